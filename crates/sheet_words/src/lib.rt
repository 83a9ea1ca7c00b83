// SPDX-License-Identifier: Apache-2.0
// A line of document 01's run sheets written: the number of the record, the word, its number, the clean slots and the loading ones.
#![tactic(auto)]

ghost use Rattle.std.specs.Prelude.{◌≡◌, ◌++◌, ◌+◌, ◌≤◌, length};
ghost use Rattle.arrayvec.specs.ArrayVec.{array_vec_len};
ghost use Rattle.sheet_lines.specs.Words.{word_of, number_of, tail_of, line_of, text_of};

use arrayvec::ArrayVec;
use itoa::Integer;
use sheet_lines::{LINE, Line, Said, is_bad};

// Some bytes behind a text.
pub fn put<const N: usize>(text: &mut ArrayVec<u8, N>, word: &[u8])
    requires { array_vec_len text.old + length word.now ≤ N }
    ensures text_value { text_of text.new ≡ text_of text.old ++ word.now }
    ensures len_value { array_vec_len text.new ≡ array_vec_len text.old + length word.now }
{
    text.try_extend_from_slice(word).unwrap();
}

// A number behind it, in decimal.
pub fn put_number<const N: usize, I: Integer>(text: &mut ArrayVec<u8, N>, number: I)
    requires { array_vec_len text.old + I.MAX_STR_LEN ≤ N }
    ensures text_value { text_of text.new ≡ text_of text.old ++ I.text number }
    ensures len_bound { array_vec_len text.new ≤ array_vec_len text.old + I.MAX_STR_LEN }
{
    let mut digits = itoa::Buffer::new();
    put(text, digits.format(number).as_bytes());
}

// The word of a line.
#[tactic(auto, unfolding(sheet_lines::specs::Text::bytes_of))]
fn word_of(said: Said) -> &'static [u8]
    ensures value { result.now ≡ word_of said }
    ensures bound { length result.now ≤ 9 }
{
    match said {
        Said::Made(_) => b"made",
        Said::Hit(_) => b"hit",
        Said::Loading => b"loading",
        Said::Reserved(_) => b"reserved",
        Said::Evicted(_) => b"evicted",
        Said::Busy => b"busy",
        Said::Done => b"done",
        Said::Nothing => b"none",
        Said::Unchanged => b"unchanged",
        Said::Resized(_) => b"resized",
        Said::Reclaimed(_) => b"reclaimed",
        Said::Refused(_) => b"refused",
        Said::Bad => b"bad",
    }
}

// The word's number, or `-`, behind a line.
#[tactic(auto, using(sheet_lines::proofs::Bytes::decimal_same))]
fn put_number_of(line: &mut ArrayVec<u8, LINE>, said: Said)
    requires { array_vec_len line.old + 20 ≤ 96 }
    ensures text_value { text_of line.new ≡ text_of line.old ++ number_of said }
    ensures len_bound { array_vec_len line.new ≤ array_vec_len line.old + 20 }
{
    match said {
        Said::Made(number)
        | Said::Hit(number)
        | Said::Reserved(number)
        | Said::Evicted(number)
        | Said::Resized(number)
        | Said::Reclaimed(number) => put_number(line, number),
        Said::Refused(why) => put_number(line, why),
        Said::Loading | Said::Busy | Said::Done | Said::Nothing | Said::Unchanged | Said::Bad => {
            line.push(b'-');
        }
    }
}

// What stands behind the word: the other three fields, and nothing behind `bad`.
#[tactic(auto, using(std::proofs::lemmas::List::append_assoc, basics::proofs::Tests::tests, sheet_lines::proofs::Bytes::decimal_same), unfolding(sheet_lines::specs::Words::tail_of))]
fn put_tail(line: &mut ArrayVec<u8, LINE>, said: Said, clean: usize, loading: usize)
    requires { array_vec_len line.old + 64 ≤ 96 }
    ensures { text_of line.new ≡ text_of line.old ++ tail_of said clean loading }
{
    if !is_bad(said) {
        line.push(b' ');
        put_number_of(line, said);
        line.push(b' ');
        put_number(line, clean);
        line.push(b' ');
        put_number(line, loading);
    }
    line.push(b'\n');
}

// The line of a record, with the number of clean slots and that of loading ones.
#[tactic(auto, using(std::proofs::lemmas::List::append_assoc, sheet_lines::proofs::Bytes::decimal_same), unfolding(sheet_lines::specs::Words::line_of))]
pub fn line_of(number: u64, said: Said, clean: usize, loading: usize) -> Line
    ensures result_value { text_of result ≡ line_of number said clean loading }
{
    let mut line = ArrayVec::new();
    put_number(&mut line, number);
    line.push(b' ');
    put(&mut line, word_of(said));
    put_tail(&mut line, said, clean, loading);
    Line::from(&line)
}
