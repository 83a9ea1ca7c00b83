// SPDX-License-Identifier: Apache-2.0
// Reads made-up tables, each with one call, and writes for each the answer and the table after the call, as `rust_made_up` does of the
// original: oracle/README.md has both forms. A case that is cut off, or has an unknown code, ends the program, and so does a read or a
// write that fails.
#![tactic(auto)]

ghost use Rattle.std.specs.Prelude.{◌≤◌, length, IfSome};
ghost use Rattle.picture_numbers.specs.Wrote.{SameList};
ghost use Rattle.cases.specs.Places.{Within};

use cases::Call;
use key::CacheKey;
use picture_numbers::Page;
use state::{Outcome, State};
use streams::Failed;

// The bytes of cases that are there at once.
const BLOCK: usize = 262144;

// The room of a page.
const ROOM: usize = 524288;

// Resize and access with no gate. gate_trace has both through its gate, and one function for the two would be no plainer: tables, calls and answers have
// other types there.
fn run_resize(
    page: &mut Page,
    t: State,
    asked: usize,
    pins: &[u8],
    list: &mut [u16],
    count: usize,
) -> State
    ensures { Within page.old page.new }
{
    let places = count.min(list.len());
    let Outcome { state, answer } = maintenance_resize::resize(t, asked, pins, &mut list[..places]);
    cases::put_resized(page, answer, &list[..], places);
    state
}

fn run_access(page: &mut Page, t: State, key: CacheKey, allow: bool, pins: &[u8]) -> State
    ensures { Within page.old page.new }
{
    let Outcome { state, answer } = state_access::access(t, key, allow, pins);
    cases::put_access(page, answer);
    state
}

fn run(page: &mut Page, t: State, call: Call, pins: &[u8]) -> State
    ensures { Within page.old page.new }
{
    // No enum: the codes are those of oracle/README.md's forms, a byte may be any, and the last arm takes the rest.
    match call.code {
        2 => run_access(page, t, call.token.key, call.allow, pins),
        8 => {
            let mut list: [u16; 65535] = [7; 65535];
            run_resize(page, t, call.number, pins, &mut list, call.list)
        }
        _ => cases::run(page, t, call, pins),
    }
}

// The line of a case.
fn put_case(page: &mut Page, number: u64, t: State, call: Call, pins: &[u8])
    ensures { Within page.old page.new }
{
    page.digits(number);
    let state = run(page, t, call, pins);
    cases::put_state(page, &state);
}

// Whether there is such a call.
fn known(code: u8) -> bool {
    matches!(code, 2..=6 | 8..=15)
}

// The case at the front of some bytes, and its line: how many bytes it has. There is none where it is cut off or of an unknown code.
fn take_case(page: &mut Page, number: u64, bytes: &[u8]) -> Option<usize>
    ensures used_in_bounds { IfSome result (λ used. used ≤ length bytes.now) }
    ensures within { IfSome result (λ _. Within page.old page.new) }
    ensures same_list { SameList page.old page.new }
{
    let call = cases::read_call(bytes, 0);
    let table = cases::read_table(bytes, cases::CALL);
    let from = table.end;
    let end = cases::over(from, call.pins);
    if bytes.len() < end || end < from || !known(call.code) {
        return None;
    }
    put_case(page, number, table.state, call, &bytes[from..end]);
    Some(end)
}

fn run_all<R: Input + Print + Eprint>(rt: &R) -> Result<(), Failed> {
    let mut bytes: [u8; BLOCK] = [0; BLOCK];
    let mut out: [u8; ROOM] = [0; ROOM];
    let mut page = Page {
        bytes: &mut out,
        at: 0,
    };
    cases::run_all(rt, &mut bytes, &mut page, take_case)
}

fn main(rt: HostRuntime) {
    let _ = run_all(&rt);
}
