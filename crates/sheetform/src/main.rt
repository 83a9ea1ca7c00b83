// SPDX-License-Identifier: Apache-2.0
// Turns the text form of a run sheet into records, and records into text: standard input to standard output. Its argument is what it
// writes, `records` or `text`. What is wrong with the input, a read or a write that fails, and how the program is used it says on standard
// error, and ends; what it wrote before stays. What a line says is crate `sheet_text`'s, the line of a record `sheet_show`'s; here are the
// lines of a block, and the blocks of the input. `as u64`: there is no `From` between usize and u64, and `try_from` could fail.
#![tactic(auto)]

ghost use Rattle.std.specs.Prelude.{◌≡◌, ◌+◌, ◌-◌, ◌/◌, ◌≤◌, ◌++◌};
ghost use Rattle.arrayvec.specs.ArrayVec.{array_vec_len};
ghost use Rattle.sheet_show.specs.Form.{listed_text};

use arrayvec::ArrayVec;
use sheet_text::Fault;
use std::env::FillError;
use std::fmt;
use std::rt::Env;
use streams::Failed;

// What can be wrong with a line: what it says, its length, or that its record has no room.
#[derive(Clone, Copy)]
enum Wrong {
    Says(Fault),
    Long,
    NoRoom,
}

impl fmt::Display for Wrong {
    fn fmt<W: fmt::Write>(&self, f: &mut fmt::Formatter<W>) -> fmt::Result {
        match self {
            Wrong::Says(fault) => {
                let why = fault.why;
                write!(f, "{why}")
            }
            Wrong::Long => f.write_str("longer than 256 bytes"),
            Wrong::NoRoom => f.write_str("no room for its record"),
        }
    }
}

// A line that has begun, of at most 256 bytes without its end, with the number of lines before it.
#[derive(Drop)]
struct Reading {
    line: ArrayVec<u8, 256>,
    before: u64,
}

// The record of a line behind those written.
fn add_line<const N: usize>(line: &[u8], out: &mut ArrayVec<u8, N>) -> Result<(), Wrong> {
    match sheet_text::parse_line(line) {
        Ok(Some(call)) => {
            let record = sheet_record::write_record(call);
            out.try_extend_from_slice(&record)
                .map_err(|_| Wrong::NoRoom)
        }
        Ok(None) => Ok(()),
        Err(fault) => Err(Wrong::Says(fault)),
    }
}

// One byte of a text more: the end of a line adds its record.
fn take_byte<const N: usize>(
    reading: &mut Reading,
    byte: u8,
    out: &mut ArrayVec<u8, N>,
) -> Result<(), Wrong> {
    if byte != b'\n' {
        return reading.line.try_push(byte).map_err(|_| Wrong::Long);
    }
    add_line(reading.line.as_slice(), out)?;
    reading.line.clear();
    reading.before = basics::one_more(reading.before);
    Ok(())
}

// The records of a block of text, behind a line that has begun. It ends at the first line that is wrong.
fn records_of<const N: usize>(
    reading: &mut Reading,
    text: &[u8],
    out: &mut ArrayVec<u8, N>,
) -> Result<(), Wrong> {
    for byte in text {
        take_byte(reading, *byte, out)?;
    }
    Ok(())
}

// A record that is bad, with the number of records before it in its block.
#[derive(Clone, Copy)]
struct Bad {
    before: usize,
}

// The text of a block of records behind what is written, up to the first that is bad: as many as have room. It answers how many.
fn text_of<const N: usize>(bytes: &[u8], out: &mut ArrayVec<u8, N>) -> Result<usize, Bad>
    ensures { out.new.items ≡ out.old.items ++ listed_text ((N - array_vec_len out.old) / 200) bytes.now }
{
    let room = out.remaining_capacity() / sheet_show::ROOM;
    let mut shown = 0;
    for record in bytes.chunks(sheet_lines::RECORD).take(room) {
        let Some(call) = sheet_lines::read_record(record) else {
            return Err(Bad { before: shown });
        };
        let text = sheet_show::show_record(call);
        out.try_extend_from_slice(text.as_slice()).unwrap();
        shown += 1;
    }
    Ok(shown)
}

// To standard error, never into what is written. It is a `Print` of its own, since a word of a line need not be text.
fn say<E: Print>(err: &E, text: &[u8]) {
    let _ = err.write_all(text);
}

// The word that is wrong; nothing where there is none.
fn say_word<E: Print>(err: &E, line: &[u8], fault: Fault) {
    let from = fault.word.from;
    let to = fault.word.to;
    if from < to && to <= line.len() {
        say(err, b": \"");
        say(err, &line[from..to]);
        say(err, b"\"");
    }
}

// The line with its number from 1, and what is wrong with it.
fn say_wrong<E: Print>(err: &E, reading: &Reading, wrong: Wrong) {
    let number = basics::one_more(reading.before);
    let _ = print!(err; "line {number}: {wrong}");
    if let Wrong::Says(fault) = wrong {
        say_word(err, reading.line.as_slice(), fault);
    }
    say(err, b"\n");
}

// Some text as records, or what is wrong with it. It holds no more records than bytes.
fn write_some<R: Print + Eprint, E: Print>(
    rt: &R,
    err: &E,
    reading: &mut Reading,
    text: &[u8],
) -> Result<(), Failed> {
    let mut out: ArrayVec<u8, 98304> = ArrayVec::new();
    let answer = records_of(reading, text, &mut out);
    streams::write_out(rt, out.as_slice())?;
    answer.map_err(|wrong| {
        say_wrong(err, reading, wrong);
        Failed
    })
}

// The end of the input ends its last line.
fn write_records<R: Input + Print + Eprint, E: Print>(rt: &R, err: &E) -> Result<(), Failed> {
    let mut bytes: [u8; 4096] = [0; 4096];
    let mut reading = Reading {
        line: ArrayVec::new(),
        before: 0,
    };
    // No `loop`: it needs a measure, and the input has no known end.
    for _ in 0..u64::MAX {
        let count = streams::read_block(rt, &mut bytes)?;
        if count == 0 {
            return write_some(rt, err, &mut reading, b"\n");
        }
        write_some(rt, err, &mut reading, &bytes[..count])?;
    }
    Ok(())
}

// A block of 128 records has room for the text of each.
fn write_text<R: Input + Print + Eprint, E: Print>(rt: &R, err: &E) -> Result<(), Failed> {
    let mut bytes: [u8; 3072] = [0; 3072];
    let mut out: ArrayVec<u8, 25600> = ArrayVec::new();
    let mut number: u64 = 0;
    // No `loop`, as above.
    for _ in 0..u64::MAX {
        let count = streams::read_block(rt, &mut bytes)?;
        if count == 0 {
            break;
        }
        let listed = text_of(&bytes[..count], &mut out);
        streams::write_out(rt, out.as_slice())?;
        match listed {
            Ok(shown) => number = number.wrapping_add(shown as u64),
            Err(bad) => {
                number = number.wrapping_add(bad.before as u64);
                let _ = print!(err; "record {number}: bad\n");
                return Err(Failed);
            }
        }
        out.clear();
    }
    Ok(())
}

fn usage<E: Print>(err: &E) {
    say(
        err,
        b"usage: sheetform records < TEXT > SHEET, or sheetform text < SHEET > TEXT\n",
    );
}

fn main(rt: HostRuntime) {
    let err = rt.stderr();
    let mut word: [u8; 8] = [0; 8];
    // A second argument, whatever its text.
    if !matches!(rt.arg(2, &mut []), Err(FillError::NotPresent)) {
        usage(&err);
        return;
    }
    // No word, or a longer one, is neither of the two.
    let len = rt.arg(1, &mut word).unwrap_or(0);
    // What failed or was wrong was told.
    let _ = match &word[..len] {
        b"records" => write_records(&rt, &err),
        b"text" => write_text(&rt, &err),
        _ => {
            usage(&err);
            Ok(())
        }
    };
}
