// SPDX-License-Identifier: Apache-2.0
// The records and lines of document 01's run sheets, on bytes, with the rules of both: a record is read. Crate `sheet_words` writes a line.
// `as usize`: there is no `From` between u32 and usize, and `try_from` could fail.
#![tactic(auto)]

ghost use Rattle.std.specs.Prelude.{◌≡◌, ◌+◌, ◌≤◌, ◌<◌, ◌^◌, length, take, drop};
ghost use Rattle.sheet_lines.specs.Words.{text_of};
ghost use Rattle.sheet_lines.specs.Record.{low, read_record, place_of};
ghost use Rattle.sheet_lines.specs.Words.{is_bad};

use arrayvec::ArrayVec;
use key::CacheKey;
use std::marker::Model;

// A record's fields. The bytes of file, kind and index are a key. The code stays a number: `sheet_record`, `sheet_show` and `sheet_uses` take a record
// with any.
#[derive(Clone, Copy)]
pub struct Record {
    pub code: u8,
    pub allow: bool,
    pub place: usize,
    pub number: usize,
    pub key: CacheKey,
}

// The word of a line, with its number. A refusal stays a number: a line shows any.
#[derive(Clone, Copy)]
pub enum Said {
    Made(usize),
    Hit(usize),
    Loading,
    Reserved(usize),
    Evicted(usize),
    Busy,
    Done,
    Nothing,
    Unchanged,
    Resized(usize),
    Reclaimed(usize),
    Refused(u8),
    Bad,
}

// The most bytes of a line.
pub const LINE: usize = 96;

// A text that is written to its end. It is `Copy`, which the `ArrayVec` that it is written in is not, and a contract sees both as the same record.
// The bytes behind the text are 0, so that the text alone tells the value.
#[derive(Clone, Copy, Debug, PartialEq, Eq)]
pub struct Written<const N: usize> {
    bytes: [u8; N],
    len: usize,
}

impl<const N: usize> Model for Written<N> {
    ghost use Rattle.std.specs.Prelude.{◌≡◌, ◌++◌, ◌-◌, ℕ, length, take, replicate};
    ghost use Rattle.std.proofs.Common.{ap, ◌∙◌};
    ghost use Rattle.arrayvec.specs.ArrayVec.{ArrayVec as Items, array_vec_len};

    ghost Value = { Items ℕ };

    ghost view = { λ w. record { items = take w.len w.bytes } };

    ghost invariant = { λ w. (length (take w.len w.bytes) ≡ w.len) × (take w.len w.bytes ++ replicate (N - w.len) 0 ≡ w.bytes) };

    ghost inverse = { λ v. record { bytes = v.items ++ replicate (N - array_vec_len v) 0; len = array_vec_len v } };

    ghost inverse_ok = { λ w h i. record {
      bytes = (ap (λ k. take w.len w.bytes ++ replicate (N - k) 0) h.0 ∙ h.1) i;
      len = h.0 i;
    } };
}

impl<const N: usize> Written<N> {
    // The bytes.
    pub fn as_slice(&self) -> &[u8]
        ensures value { result.now ≡ text_of self.now }
        ensures fits { length result.now ≤ N }
    {
        &self.bytes[..self.len]
    }
}

impl<const N: usize> From<&ArrayVec<u8, N>> for Written<N> {
    ghost from_gives = { λ text w. w ≡ text.now };

    #[tactic(auto, using(crate::proofs::Zeros::zeros_behind))]
    fn from(text: &ArrayVec<u8, N>) -> Self {
        let text = text.as_slice();
        let len = text.len();
        let mut bytes = [0; N];
        bytes[..len].copy_from_slice(text);
        Written { bytes, len }
    }
}

// A line's text.
pub type Line = Written<LINE>;

// The bytes of a record.
pub const RECORD: usize = 24;

// Some bytes from a place on.
fn bytes_at<const N: usize>(bytes: &[u8], at: usize) -> [u8; N]
    requires { at + N ≤ length bytes.now }
    ensures { result ≡ take N (drop at bytes.now) }
{
    let mut part = [0; N];
    part.copy_from_slice(&bytes[at..at + N]);
    part
}

// A number of four bytes, low byte first.
#[tactic(auto, unfolding(crate::specs::Record::low))]
fn low_4(bytes: &[u8], at: usize) -> u32
    requires { at + 4 ≤ length bytes.now }
    ensures { result ≡ low 4 bytes.now at }
{
    u32::from_le_bytes(bytes_at(bytes, at))
}

// A number of eight.
#[tactic(auto, unfolding(crate::specs::Record::low))]
fn low_8(bytes: &[u8], at: usize) -> u64
    requires { at + 8 ≤ length bytes.now }
    ensures { result ≡ low 8 bytes.now at }
{
    u64::from_le_bytes(bytes_at(bytes, at))
}

// The record at the front of some bytes; none where they are too few, or a field is off its range.
#[tactic(auto, using(basics::proofs::Tests::tests), unfolding(crate::specs::Record::read_record, crate::specs::Record::in_range, crate::specs::Record::fields_of))]
pub fn read_record(bytes: &[u8]) -> Option<Record>
    ensures value { result ≡ read_record bytes.now }
    ensures result_bound { place_of result < 16 }
{
    if bytes.len() < RECORD {
        return None;
    }
    let code = bytes[0];
    let allow = bytes[1];
    let place = bytes[3];
    if code == 0 || 9 < code || 1 < allow || 15 < place {
        return None;
    }
    Some(Record {
        code,
        allow: allow == 1,
        place: usize::from(place),
        number: low_4(bytes, 4) as usize,
        key: CacheKey {
            file: low_8(bytes, 8),
            kind: bytes[2],
            index: low_8(bytes, 16),
        },
    })
}

// Whether the word is `bad`.
pub fn is_bad(said: Said) -> bool
    ensures { result ≡ is_bad said }
{
    matches!(said, Said::Bad)
}
