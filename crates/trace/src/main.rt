// SPDX-License-Identifier: Apache-2.0
// Runs a sheet from standard input, and writes for each record its line and the whole table behind it: the trace of oracle/README.md,
// which `rust_sheet --trace` writes of the original. A read or a write that fails ends it.
#![tactic(auto)]

ghost use Rattle.sheet_lines.specs.Words.{text_of};
ghost use Rattle.picture_numbers.specs.Wrote.{Wrote, SameList};
ghost use Rattle.trace.specs.Record.{front, standing_numbers, record_text};
ghost use Rattle.picture_numbers.specs.Numbers.{spaced};

use picture_numbers::Page;
use sheet_lines::{Line, Said};
use sheet_standing::Standing;
use streams::Failed;

// What stands after a block of records.
#[derive(Clone, Copy)]
struct Ran {
    standing: Standing,
    number: u64,
}

// A block of input: 2048 records of 24 bytes.
const BLOCK: usize = 49152;

// A page is written out before this many bytes stand in it.
const FULL: usize = 131072;

// The room of a page: a record's text is far shorter than the rest of it.
const ROOM: usize = 262144;

// A line without its end.
#[tactic(auto, unfolding(crate::specs::Record::front))]
fn put_line(page: &mut Page, line: &Line)
    ensures { Wrote page.old (front (text_of line.now)) page.new }
{
    let text = line.as_slice();
    page.put_text(&text[..text.len().saturating_sub(1)]);
}

// The table and the pins, and of both what stands past the lengths.
fn put_standing(page: &mut Page, s: &Standing)
    ensures { Wrote page.old (spaced (standing_numbers s.now)) page.new }
{
    picture::put_table(page, &s.state);
    picture::put_list(page, &s.pins, s.state.capacity);
    picture::put_past(page, &s.state);
    picture::put_list_past(page, &s.pins, s.state.capacity);
}

// The text of a record: its line, and but for a bad one what stands after it.
fn put_record(page: &mut Page, number: u64, said: Said, s: &Standing)
    ensures { Wrote page.old (record_text number said s.now) page.new }
{
    let line = sheet_words::line_of(number, said, s.state.clean, s.state.loading);
    put_line(page, &line);
    if !sheet_lines::is_bad(said) {
        put_standing(page, s);
    }
    page.put_text(b"\n");
}

// The records of a block. Nothing stands after a bad one, which ends the run.
fn run<R: Print + Eprint>(
    rt: &R,
    standing: Standing,
    first: u64,
    bytes: &[u8],
    page: &mut Page,
) -> Result<Option<Ran>, Failed>
    ensures { SameList page.old page.new }
{
    let mut s = standing;
    let mut number = first;
    for record in bytes.chunks(sheet_lines::RECORD) {
        let said = sheet_steps::step(&mut s, record);
        put_record(page, number, said, &s);
        if sheet_lines::is_bad(said) {
            page.flush(rt, 0)?;
            return Ok(None);
        }
        page.flush(rt, FULL)?;
        number = basics::one_more(number);
    }
    page.flush(rt, 0)?;
    Ok(Some(Ran {
        standing: s,
        number,
    }))
}

// The records of all blocks. A short one is the last.
fn run_all<R: Input + Print + Eprint>(rt: &R) -> Result<(), Failed> {
    let mut bytes: [u8; BLOCK] = [0; BLOCK];
    let mut out: [u8; ROOM] = [0; ROOM];
    let mut page = Page {
        bytes: &mut out,
        at: 0,
    };
    let mut standing = sheet_standing::start();
    let mut number = 0;
    // No `loop`: it needs a measure, and the input has no known end.
    for _ in 0..u64::MAX {
        let count = streams::read_block(rt, &mut bytes)?;
        let Some(ran) = run(rt, standing, number, &bytes[..count], &mut page)? else {
            break;
        };
        if count < BLOCK {
            break;
        }
        standing = ran.standing;
        number = ran.number;
    }
    Ok(())
}

fn main(rt: HostRuntime) {
    let _ = run_all(&rt);
}
