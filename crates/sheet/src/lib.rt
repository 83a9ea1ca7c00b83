// SPDX-License-Identifier: Apache-2.0
// A whole run sheet of document 01, a block of bytes at a time.
// `as u64`, `as usize`: there is no `From` between these, and `try_from` could fail.
#![tactic(auto)]

ghost use Rattle.std.specs.Prelude.{◌≡◌, ◌++◌, ◌+◌, ◌≤◌, length, take, drop};
ghost use Rattle.sheet_lines.specs.Words.{text_of};
ghost use Rattle.sheet_steps.specs.Standing.{says};
ghost use Rattle.sheet.specs.Run.{line_after, run_from, turns as turns_rule, ran_after};

use sheet_lines::{LINE, Line, RECORD, Said};
use sheet_standing::Standing;

// What stands after a block of records, the number of the next record, how many bytes were printed, and whether `bad` ended it.
// `ended` is a flag beside the others, which are no `Option`: what they are after `bad` is promised too.
#[derive(Clone, Copy)]
pub struct Ran {
    pub standing: Standing,
    pub number: u64,
    pub written: usize,
    pub ended: bool,
}

// A line's text in a list from a place on, and the place behind it. List and place stay two: what `run` promises is of the list that its caller lends.
#[tactic(auto, using(std::proofs::lemmas::Slice::overwrites))]
fn write_line(line: &Line, out: &mut [u8], at: usize) -> usize
    requires { at + 96 ≤ length out.old }
    ensures out_after { take result out.new ≡ take at out.old ++ text_of line.now }
    ensures out_unchanged { drop result out.new ≡ drop result out.old }
    ensures out_len_unchanged { length out.new ≡ length out.old }
    ensures result_value { result ≡ at + length (text_of line.now) }
    ensures upper_bound { result ≤ at + 96 }
{
    let text = line.as_slice();
    let end = at + text.len();
    out[at..end].copy_from_slice(text);
    end
}

// The line of a record, and the place behind it.
#[tactic(auto, unfolding(crate::specs::Run::line_after, sheet_standing::specs::Standing::clean_of, sheet_standing::specs::Standing::loading_of))]
fn write_record(number: u64, said: Said, s: &Standing, out: &mut [u8], at: usize) -> usize
    requires { at + 96 ≤ length out.old }
    ensures out_after { take result out.new ≡ take at out.old ++ line_after number (says s.now said) }
    ensures out_unchanged { drop result out.new ≡ drop result out.old }
    ensures out_len_unchanged { length out.new ≡ length out.old }
    ensures lower_bound { (at ≤ result) × (result ≤ at + 96) }
{
    let (clean, loading) = if s.stands {
        (s.state.clean, s.state.loading)
    } else {
        (0, 0)
    };
    let line = sheet_words::line_of(number, said, clean, loading);
    write_line(&line, out, at)
}

// How many records are read: as many as have room for a line each, while their number has room in 64 bits.
#[tactic(auto, unfolding(crate::specs::Run::turns))]
fn turns(first: u64, room: usize) -> u64
    ensures { result ≡ turns_rule first room }
{
    ((room / LINE) as u64).min(basics::MAX - first)
}

// The records of a block, from the number of the first on: as many as have room for a line each in `out`.
#[tactic(auto, unfolding(crate::specs::Run::turns))]
pub fn run(standing: Standing, first: u64, bytes: &[u8], out: &mut [u8]) -> Ran
    ensures out_after { ran_after result out.new ≡ run_from (turns_rule first (length out.old)) standing first bytes.now }
    ensures out_unchanged { drop result.written out.new ≡ drop result.written out.old }
    ensures out_len_unchanged { length out.new ≡ length out.old }
    ensures written_in_bounds { result.written ≤ length out.old }
{
    let mut ran = Ran {
        standing,
        number: first,
        written: 0,
        ended: false,
    };
    for record in bytes.chunks(RECORD).take(turns(first, out.len()) as usize) {
        let said = sheet_steps::step(&mut ran.standing, record);
        ran.written = write_record(ran.number, said, &ran.standing, out, ran.written);
        ran.ended = sheet_lines::is_bad(said);
        if ran.ended {
            break;
        }
        ran.number += 1;
    }
    ran
}
