// SPDX-License-Identifier: Apache-2.0
// Standard input and output of the programs. A read or a write that fails is told on standard error, and the caller stops; the program's exit status
// is 0 then too. Which bytes are read and written no contract can say.
#![tactic(auto)]

ghost use Rattle.std.specs.Prelude.{◌≡◌, Ok, length, MatchResult};
ghost use Rattle.io.specs.Counts.{IsPrefixLen};

use std::io::Read;

// What ends a program before the end of its input, here a read or a write that failed. Standard error was told.
#[derive(Clone, Copy, Debug)]
pub struct Failed;

// A read that failed: how many bytes of the block were read before it. Standard error was told.
#[derive(Clone, Copy, Debug)]
pub struct ReadFailed {
    pub count: usize,
}

impl From<ReadFailed> for Failed {
    fn from(_: ReadFailed) -> Failed {
        Failed
    }
}

// Reads until the block is full, the input ends or a read fails: how many bytes of it were read.
pub fn read_block<R: Input + Eprint>(rt: &R, block: &mut [u8]) -> Result<usize, ReadFailed>
    ensures prefix_len { MatchResult result (λ count. IsPrefixLen count block.new) (λ failed. IsPrefixLen failed.count block.new) }
    ensures block_len_unchanged { length block.new ≡ length block.old }
{
    let mut input = rt.reader();
    let mut count = 0;
    // `count` is what was read, and no index; std's `read_full` does not tell the end from a failure.
    while count < block.len() {
        match input.read(&mut block[count..]) {
            Ok(0) => break,
            Ok(more) => count += more,
            Err(error) => {
                let _ = eprintln!(rt; "standard input: {error}");
                return Err(ReadFailed { count });
            }
        }
    }
    Ok(count)
}

// Writes all of a text. Nothing fails where there is nothing to write.
pub fn write_out<R: Print + Eprint>(rt: &R, text: &[u8]) -> Result<(), Failed>
    ensures { length text.now ≡ 0 → result ≡ Ok tt }
{
    if text.is_empty() {
        return Ok(());
    }
    rt.write_all(text).map_err(|error| {
        let _ = eprintln!(rt; "standard output: {error}");
        Failed
    })
}
