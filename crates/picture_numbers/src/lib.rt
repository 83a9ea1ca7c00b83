// SPDX-License-Identifier: Apache-2.0
// Texts and numbers written into a list of bytes.
#![tactic(auto)]

ghost use Rattle.std.specs.Prelude.{◌≡◌, ◌∷◌, ◌≤◌, take, leb, if◌then◌else◌, IsOk};
ghost use Rattle.sheet_lines.specs.Text.{SPACE};
ghost use Rattle.picture_numbers.specs.Wrote.{waiting, Wrote, SameList};
ghost use Rattle.picture_numbers.specs.Numbers.{spaced, all_zero};

use itoa::Integer;
use streams::Failed;

// A text that is being written into a list of bytes: `at` is the place behind what stands there. Where there is no room less is written, and a place past
// the end is taken for the end.
#[derive(Drop)]
pub struct Page<'a> {
    pub bytes: &'a mut [u8],
    pub at: usize,
}

impl Page<'_> {
    // Some bytes as they are.
    #[tactic(auto, using(crate::proofs::Laws::stored))]
    pub fn put_text(&mut self, text: &[u8])
        ensures { Wrote self.old text.now self.new }
    {
        let from = self.at.min(self.bytes.len());
        let count = text.len().min(self.bytes.len() - from);
        let end = from + count;
        self.bytes[from..end].copy_from_slice(&text[..count]);
        self.at = end;
    }

    // A number in decimal.
    pub fn digits<I: Integer>(&mut self, n: I)
        ensures { Wrote self.old (I.text n) self.new }
    {
        self.put_text(itoa::Buffer::new().format(n).as_bytes());
    }

    // A space, and a number.
    #[tactic(auto, using(crate::proofs::Laws::after_space))]
    pub fn put<I: Integer>(&mut self, n: I)
        ensures { Wrote self.old (SPACE ∷ I.text n) self.new }
    {
        self.put_text(b" ");
        self.digits(n);
    }

    // Some numbers.
    pub fn put_numbers(&mut self, numbers: &[u64])
        ensures { Wrote self.old (spaced numbers.now) self.new }
    {
        // A place past the end is taken for the end with no numbers too.
        self.put_text(b"");
        for n in numbers {
            self.put(*n);
        }
    }

    // What stands there.
    fn text(&self) -> &[u8]
        ensures { result.now ≡ take (waiting self.now) self.now.bytes.now }
    {
        &self.bytes[..self.at.min(self.bytes.len())]
    }

    // Where more than `most` bytes stand there, they go to standard output, and the next text begins at place 0.
    pub fn flush<R: Print + Eprint>(&mut self, rt: &R, most: usize) -> Result<(), Failed>
        ensures bytes_unchanged { self.new.bytes.now ≡ self.old.bytes.now }
        ensures same_list { SameList self.old self.new }
        ensures at_value { self.new.at ≡ (if leb (waiting self.old) most then waiting self.old else 0) }
        ensures ok_value { waiting self.old ≤ most → IsOk result }
    {
        self.at = self.text().len();
        if self.at <= most {
            return Ok(());
        }
        let written = streams::write_out(rt, self.text());
        self.at = 0;
        written
    }
}

pub fn all_zero(numbers: &[u64]) -> bool
    ensures { result ≡ all_zero numbers.now }
{
    numbers.iter().all(|n| *n == 0)
}
