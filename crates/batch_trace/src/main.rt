// SPDX-License-Identifier: Apache-2.0
// Reads tables, each with a batch of keys, and writes for each the answer of the peek, the slots visited and the list, as `rust_batch` does of the original:
// oracle/README.md has both forms. A case that is cut off ends the program, and so does a read or a write that fails.
#![tactic(auto)]

ghost use Rattle.std.specs.Prelude.{◌≤◌, length, IfSome};
ghost use Rattle.picture_numbers.specs.Wrote.{SameList};
ghost use Rattle.cases.specs.Places.{Within};

use batch::{PEEK_BATCH, Peeked};
use key::CacheKey;
use picture_numbers::Page;
use state::State;
use streams::Failed;

// A batch: the lent list has `list` places, and the keys behind the first `count` are not asked.
#[derive(Clone, Copy)]
struct Batch {
    count: usize,
    list: usize,
    keys: [CacheKey; PEEK_BATCH],
}

// The bytes of cases that are there at once.
const BLOCK: usize = 262144;

// The room of a page.
const ROOM: usize = 524288;

// The bytes in front of the keys.
const FRONT: usize = 10;

// The bytes of a key.
const KEY: usize = 17;

// The bytes in front of the table.
const BATCH: usize = 1098;

// `as usize`: there is no `From` of u64 for it, and `try_from` could fail.
fn read_batch(bytes: &[u8]) -> Batch {
    let mut keys = [CacheKey {
        file: 0,
        kind: 0,
        index: 0,
    }; PEEK_BATCH];
    let mut at = FRONT;
    for key in &mut keys {
        *key = cases::read_key(bytes, at);
        at = cases::over(at, KEY);
    }
    let list = u16::from_le_bytes([cases::byte_at(bytes, 8), cases::byte_at(bytes, 9)]);
    Batch {
        count: cases::low_8(bytes, 0) as usize,
        list: usize::from(list),
        keys,
    }
}

// The answer, and the number of slots visited.
fn put_peeked(page: &mut Page, peeked: Peeked)
    ensures { Within page.old page.new }
{
    match peeked.answer {
        Ok(()) => page.put_text(b" done -"),
        Err(why) => {
            page.put_text(b" refused");
            page.put(u8::from(why));
        }
    }
    page.put(peeked.visited);
}

// The list after the call stands behind its length.
fn run(page: &mut Page, t: State, asked: Batch, list: &mut [u16])
    ensures { Within page.old page.new }
{
    let places = asked.list.min(list.len());
    let peeked = batch::peek_batch(t, asked.keys, asked.count, &mut list[..places]);
    put_peeked(page, peeked);
    page.put(places);
    picture::put_words(page, list, places);
}

// The line of a case.
fn put_case(page: &mut Page, number: u64, t: State, asked: Batch)
    ensures { Within page.old page.new }
{
    let mut list: [u16; 65535] = [7; 65535];
    page.digits(number);
    run(page, t, asked, &mut list);
    page.put_text(b"\n");
}

// The case at the front of some bytes, and its line: how many bytes it has. There is none where it is cut off.
fn take_case(page: &mut Page, number: u64, bytes: &[u8]) -> Option<usize>
    ensures used_in_bounds { IfSome result (λ used. used ≤ length bytes.now) }
    ensures within { IfSome result (λ _. Within page.old page.new) }
    ensures same_list { SameList page.old page.new }
{
    let table = cases::read_table(bytes, BATCH);
    let end = table.end;
    if bytes.len() < end {
        return None;
    }
    put_case(page, number, table.state, read_batch(bytes));
    Some(end)
}

fn run_all<R: Input + Print + Eprint>(rt: &R) -> Result<(), Failed> {
    let mut bytes: [u8; BLOCK] = [0; BLOCK];
    let mut out: [u8; ROOM] = [0; ROOM];
    let mut page = Page {
        bytes: &mut out,
        at: 0,
    };
    cases::run_all(rt, &mut bytes, &mut page, take_case)
}

fn main(rt: HostRuntime) {
    let _ = run_all(&rt);
}
