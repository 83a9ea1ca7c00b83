// SPDX-License-Identifier: Apache-2.0
// Runs a sheet: records from standard input, lines to standard output. A read or a write that fails is told on standard error and ends it.
#![tactic(auto)]

use std::env::FillError;
use std::rt::Env;
use streams::Failed;

// A block of input: 2048 records of 24 bytes.
const BLOCK: usize = 49152;

// Room for a line of at most 96 bytes for each of them.
const ROOM: usize = 196608;

// `blocks` of crate sheet is the theorem that these blocks print what the whole input prints. A short count is the end of the
// input, so nothing of a block is kept but what stands.
fn run<R: Input + Print + Eprint>(rt: &R) -> Result<(), Failed> {
    let mut bytes: [u8; BLOCK] = [0; BLOCK];
    let mut out: [u8; ROOM] = [0; ROOM];
    let mut standing = sheet_standing::start();
    let mut number = 0;
    // No `loop`: it needs a measure, and the input has no known end.
    for _ in 0..u64::MAX {
        let count = streams::read_block(rt, &mut bytes)?;
        let ran = sheet::run(standing, number, &bytes[..count], &mut out);
        streams::write_out(rt, &out[..ran.written])?;
        if ran.ended || count < BLOCK {
            break;
        }
        standing = ran.standing;
        number = ran.number;
    }
    Ok(())
}

fn main(rt: HostRuntime) {
    // An argument, whatever its text.
    if !matches!(rt.arg(1, &mut []), Err(FillError::NotPresent)) {
        let _ = eprintln!(rt; "usage: runsheet < SHEET > LINES");
        return;
    }
    let _ = run(&rt);
}
