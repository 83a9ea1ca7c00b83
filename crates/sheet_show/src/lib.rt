// SPDX-License-Identifier: Apache-2.0
// A record of a run sheet as a line of text that a person can read (sheets/README.md): the call's word with its number, then the
// fields by their names. A field that the call does not use is 0 in such a line; a record where one is not is shown as `record` with every field.
#![tactic(auto)]

ghost use Rattle.std.specs.Prelude.{◌≡◌, [], ◌++◌, ◌+◌, ◌≤◌, length, if◌then◌else◌};
ghost use Rattle.arrayvec.specs.ArrayVec.{array_vec_len};
ghost use Rattle.sheet_lines.specs.Words.{text_of};
ghost use Rattle.sheet_show.specs.Form.{shown, word_text, call_text, record_text, head_text, usual_allow};

use arrayvec::ArrayVec;
use itoa::Integer;
use sheet_lines::{Record, Written};
use sheet_uses::{only_used, uses_number};
use sheet_words::{put, put_number};

// The bytes that a record's line of text has room in.
pub const ROOM: usize = 200;

// A record's line.
pub type Text = Written<ROOM>;

// A line that is still written.
type Begun = ArrayVec<u8, ROOM>;

// A field behind a text, with its name, where it is not what is usual. The room that is left stands in clauses: it is another number at each function.
#[tactic(auto, using(std::proofs::lemmas::List::append_assoc))]
fn put_field<I: Integer + PartialEq>(text: &mut Begun, name: &[u8], value: I, usual: I)
    requires { array_vec_len text.old + length name.now + I.MAX_STR_LEN ≤ 200 }
    ensures text_value { text_of text.new ≡ text_of text.old ++ (if I.eq value usual then [] else name.now ++ I.text value) }
    ensures len_bound { array_vec_len text.new ≤ array_vec_len text.old + length name.now + I.MAX_STR_LEN }
{
    if value != usual {
        put(text, name);
        put_number(text, value);
    }
}

// The word of a call, with what stands before its number. Tests on numbers: the codes are document 01's, and a record may have any byte as its code.
#[tactic(auto, using(basics::proofs::Tests::tests), unfolding(crate::specs::Form::word_text, sheet_lines::specs::Text::bytes_of))]
fn word_of(code: u8, allow: bool) -> &'static [u8]
    ensures value { result.now ≡ word_text allow code }
    ensures bound { length result.now ≤ 12 }
{
    match code {
        1 => b"new ",
        2 => b"access",
        3 => b"publish",
        4 => b"abort",
        5 => b"lookup",
        6 => b"remove slot=",
        7 if allow => b"pin slot=",
        7 => b"unpin slot=",
        8 => b"resize ",
        _ => b"reclaim ",
    }
}

// The front of a line that is a call: its word, with its number where it uses one.
#[tactic(auto, using(basics::proofs::Tests::tests, sheet_lines::proofs::Bytes::decimal_same), unfolding(crate::specs::Form::call_text))]
fn call_text(call: Record) -> Begun
    ensures text_value { text_of result ≡ call_text call }
    ensures len_bound { array_vec_len result ≤ 60 }
{
    let mut text = ArrayVec::new();
    put(&mut text, word_of(call.code, call.allow));
    if uses_number(call.code) {
        put_number(&mut text, call.number);
    }
    text
}

// The front of a line that tells every field.
#[tactic(auto, using(sheet_lines::proofs::Bytes::decimal_same), unfolding(crate::specs::Form::record_text, crate::specs::Form::field_text, sheet_lines::specs::Text::bytes_of))]
fn record_text(call: Record) -> Begun
    ensures text_value { text_of result ≡ record_text call }
    ensures len_bound { array_vec_len result ≤ 60 }
{
    let mut text = ArrayVec::new();
    put(&mut text, b"record code=");
    put_number(&mut text, call.code);
    put_field(&mut text, b" number=", call.number, 0);
    text
}

// The front of a line: the fields behind it are told by their names.
#[tactic(auto, using(basics::proofs::Tests::tests), unfolding(crate::specs::Form::head_text))]
fn head_text(call: Record) -> Begun
    ensures text_value { text_of result ≡ head_text call }
    ensures len_bound { array_vec_len result ≤ 60 }
{
    if only_used(call) {
        call_text(call)
    } else {
        record_text(call)
    }
}

// What allow is where the line does not say it: 1 for an access, and the word says it of a pin.
#[tactic(auto, using(basics::proofs::Tests::tests), unfolding(crate::specs::Form::usual_allow))]
fn usual_allow(call: Record) -> bool
    ensures { result ≡ usual_allow call }
{
    only_used(call) && (call.code == 2 || call.code == 7 && call.allow)
}

// The line of a record, with its end.
#[tactic(auto, using(sheet_lines::proofs::Bytes::decimal_same), unfolding(crate::specs::Form::shown, crate::specs::Form::field_text, sheet_lines::specs::Text::bytes_of))]
pub fn show_record(call: Record) -> Text
    ensures result_value { text_of result ≡ shown call }
    ensures len_bound { array_vec_len result ≤ 200 }
{
    let mut text = head_text(call);
    put_field(&mut text, b" file=", call.key.file, 0);
    put_field(&mut text, b" kind=", call.key.kind, 0);
    put_field(&mut text, b" index=", call.key.index, 0);
    let usual = usual_allow(call);
    put_field(&mut text, b" allow=", u8::from(call.allow), u8::from(usual));
    put_field(&mut text, b" place=", call.place, 0);
    text.push(b'\n');
    Text::from(&text)
}
