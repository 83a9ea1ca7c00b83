// SPDX-License-Identifier: Apache-2.0
// A line of a run sheet's text form read (sheets/README.md): one call a line, with names for fields. Crate `sheet_show` has the way back.
// `as usize`, `as u8`: there is no `From` of u64 or usize for these, and `try_from` could fail.
#![tactic(auto)]

ghost use Rattle.std.specs.Prelude.{◌≡◌, true, ◌+◌, ◌*◌, ◌^◌, SomeIff, ◌≤◌, ◌<◌, length, drop, MatchOption, IfSome};
ghost use Rattle.sheet_text.specs.Find.{index_of};
ghost use Rattle.sheet_text.specs.Parse.{is_blank, counts_as, run_of, next_word, word_place, number_of, field_of, least, most};
ghost use Rattle.sheet_text.specs.Parse.{ask, plain_call, call_of, begin, with_value, with_word, record_of, finished, with_words, text_says};
ghost use Rattle.sheet_text.specs.Parse.{line_says, good_call, good_line};

use key::CacheKey;
use sheet_lines::Record;
use sheet_uses::uses;
use std::fmt;
use std::marker::Model;

// What can be wrong with a line.
#[derive(Clone, Copy, Debug, PartialEq, Eq)]
pub enum Why {
    NoCall,
    NoField,
    // No number where one has to be.
    NoNumber,
    Range,
    // A field that the call does not use.
    Unused,
    // A field named twice.
    Twice,
    // The call's number, or the code of a `record`.
    Missing,
}

impl fmt::Display for Why {
    fn fmt<W: fmt::Write>(&self, f: &mut fmt::Formatter<W>) -> fmt::Result {
        f.write_str(match self {
            Why::NoCall => "no such call",
            Why::NoField => "no such field",
            Why::NoNumber => "not a number",
            Why::Range => "number out of range",
            Why::Unused => "not used by this call",
            Why::Twice => "given twice",
            Why::Missing => "number missing",
        })
    }
}

// A word of a text: from its first byte to behind its last.
#[derive(Clone, Copy, Debug, PartialEq, Eq)]
pub struct Span {
    pub from: usize,
    pub to: usize,
}

// What is wrong with a line, and the word that is wrong.
#[derive(Clone, Copy, Debug, PartialEq, Eq)]
pub struct Fault {
    pub why: Why,
    pub word: Span,
}

// What a line asks of a field: it may not be named, or it may, it must, it was. Four states of a field, where an `Option` has two.
#[derive(Clone, Copy)]
enum Ask {
    No,
    May,
    Must,
    Was,
}

// A field's value, and what the line asks of it.
#[derive(Clone, Copy)]
struct Field {
    value: u64,
    ask: Ask,
}

// A call with the fields read so far, as document 01 orders them. Clauses see the fields. Their values are in their ranges.
#[derive(Drop)]
struct Begun {
    fields: [Field; 7],
}

impl Model for Begun {
    ghost use Rattle.std.specs.Prelude.{List, ◌≡◌, true};
    ghost use Rattle.sheet_text.specs.declared.Field.{Field};
    ghost use Rattle.sheet_text.specs.Fields.{within};

    ghost Value = { List Field };

    ghost view = { λ b. b.fields };

    ghost invariant = { λ b. within b.fields ≡ true };
}

// The places of the fields stay numbers: they index the fields, and `sheet_uses` has document 01's numbers.
const CODE: usize = 0;

const ALLOW: usize = 1;

const KIND: usize = 2;

const PLACE: usize = 3;

const NUMBER: usize = 4;

const FILE: usize = 5;

const INDEX: usize = 6;

// ---- words and numbers

#[tactic(auto, using(basics::proofs::Tests::tests), unfolding(crate::specs::Parse::is_blank))]
fn is_blank(byte: u8) -> bool
    ensures { result ≡ is_blank byte }
{
    matches!(byte, b' ' | b'\t' | b'\r')
}

// Whether a byte is blank (`blank` is true), or is not.
#[tactic(auto, using(crate::proofs::Laws::counts_lem))]
fn counts_as(blank: bool, byte: u8) -> bool
    ensures { result ≡ counts_as blank byte }
{
    is_blank(byte) == blank
}

// How many bytes in front are so.
fn run_of(blank: bool, text: &[u8]) -> usize
    ensures value { result ≡ run_of blank text.now }
    ensures upper_bound { result ≤ length text.now }
{
    text.iter()
        .position(|byte| !counts_as(blank, *byte))
        .unwrap_or(text.len())
}

// Where a byte first stands in a text; the text's length where it does not.
fn find(text: &[u8], byte: u8) -> usize
    ensures value { result ≡ index_of byte text.now }
    ensures upper_bound { result ≤ length text.now }
{
    text.iter().position(|b| *b == byte).unwrap_or(text.len())
}

// A number with one more digit behind it, if it has room in 64 bits.
fn with_digit(n: u64, digit: u64) -> Option<u64>
    ensures { SomeIff result (n * 10 + digit < 2 ^ 64) (n * 10 + digit) }
{
    n.checked_mul(10)?.checked_add(digit)
}

// The number that a word's digits say.
#[tactic(auto, using(crate::proofs::Laws::number_begins, crate::proofs::Laws::digit_none, crate::proofs::Laws::digit_large, crate::proofs::Laws::digit_goes, crate::proofs::Laws::digits_end), unfolding(crate::specs::Parse::number_of))]
fn number_of(word: &[u8]) -> Result<u64, Why>
    ensures { result ≡ number_of word.now }
{
    if word.is_empty() {
        return Err(Why::NoNumber);
    }
    let mut n: u64 = 0;
    for byte in word {
        if !byte.is_ascii_digit() {
            return Err(Why::NoNumber);
        }
        let Some(more) = with_digit(n, u64::from(*byte - b'0')) else {
            return Err(Why::Range);
        };
        n = more;
    }
    Ok(n)
}

// The next word of a text, if there is one.
#[tactic(auto, using(crate::proofs::Laws::next_none, crate::proofs::Laws::next_some))]
fn next_word(text: &[u8], at: usize) -> Option<Span>
    requires { at ≤ length text.now }
    ensures value { result ≡ next_word at (drop at text.now) }
    ensures in_bounds { IfSome result (λ word. (at ≤ word.from) × (word.from < word.to) × (word.to ≤ length text.now)) }
{
    let from = at + run_of(true, &text[at..]);
    let to = from + run_of(false, &text[from..]);
    if from == to {
        return None;
    }
    Some(Span { from, to })
}

// ---- fields

// The place of a word in a list of names; how many there are where it is none of them.
#[tactic(auto, using(crate::proofs::Laws::names_none, crate::proofs::Laws::names_here, crate::proofs::Laws::names_more, crate::proofs::Laws::names_end))]
fn place_in(names: &[u8], word: &[u8]) -> usize
    ensures { result ≡ word_place names.now word.now }
{
    let mut at: usize = 0;
    // A turn passes a name, which has at least a byte.
    for place in 0..names.len() {
        let Some(name) = next_word(names, at) else {
            return place;
        };
        if word == &names[name.from..name.to] {
            return place;
        }
        at = name.to;
    }
    names.len()
}

// The field of a name; `slot` is another name of the number. Tests on numbers: a name's place in the list is the field's in a record.
#[tactic(auto, using(basics::proofs::Tests::tests), unfolding(crate::specs::Parse::field_of, sheet_lines::specs::Text::bytes_of))]
fn field_of(name: &[u8]) -> Option<usize>
    ensures { MatchOption result (6 < field_of name.now) (λ field. (field ≤ 6) × (field ≡ field_of name.now)) }
{
    match place_in(b"code allow kind place number file index slot", name) {
        7 => Some(NUMBER),
        place if place < 7 => Some(place),
        _ => None,
    }
}

#[tactic(auto, using(basics::proofs::Tests::tests), unfolding(crate::specs::Parse::least))]
fn least(field: usize) -> u64
    ensures { result ≡ least field }
{
    u64::from(field == CODE)
}

#[tactic(auto, using(basics::proofs::Tests::tests), unfolding(crate::specs::Parse::most))]
fn most(field: usize) -> u64
    ensures { result ≡ most field }
{
    match field {
        CODE => 9,
        ALLOW => 1,
        KIND => 255,
        PLACE => 15,
        NUMBER => 0xffff_ffff,
        _ => u64::MAX,
    }
}

// ---- calls

fn if_used(used: bool, what: Ask) -> Ask
    ensures { result ≡ ask used what }
{
    if used { what } else { Ask::No }
}

// A call of which no field is named yet: it takes the fields that it uses, and needs the number that it uses. Of a pin its word says allow.
#[tactic(auto, using(basics::proofs::Tests::tests), unfolding(crate::specs::Parse::plain_call, crate::specs::Fields::within))]
fn plain(code: u8, allow: u64) -> Begun
    requires { (0 < code) × (code ≤ 9) }
    ensures { result ≡ plain_call code allow }
{
    let key = if_used(uses(code, FILE), Ask::May);
    let place = if_used(uses(code, PLACE), Ask::May);
    let number = if_used(uses(code, NUMBER), Ask::Must);
    Begun {
        fields: [
            Field {
                value: u64::from(code),
                ask: Ask::No,
            },
            Field {
                value: allow,
                ask: if_used(code == 2, Ask::May),
            },
            Field { value: 0, ask: key },
            Field {
                value: 0,
                ask: place,
            },
            Field {
                value: 0,
                ask: number,
            },
            Field { value: 0, ask: key },
            Field { value: 0, ask: key },
        ],
    }
}

// A `record` takes every field and needs the code.
#[tactic(auto, using(basics::proofs::Tests::tests), unfolding(crate::specs::Parse::begin, crate::specs::Fields::within))]
fn any_call() -> Begun
    ensures { result ≡ begin 10 }
{
    let may = Field {
        value: 0,
        ask: Ask::May,
    };
    let code = Field {
        value: 1,
        ask: Ask::Must,
    };
    Begun {
        fields: [code, may, may, may, may, may, may],
    }
}

// The call of a word, in the order of the codes from 1, then `unpin` and `record`. Tests on numbers: a word's place in the list gives its code.
#[tactic(auto, using(basics::proofs::Tests::tests), unfolding(crate::specs::Parse::begin, crate::specs::Parse::call_of, sheet_lines::specs::Text::bytes_of))]
fn begin(word: &[u8]) -> Option<Begun>
    ensures { MatchOption result (10 < call_of word.now) (λ begun. (call_of word.now ≤ 10) × (begun ≡ begin (call_of word.now))) }
{
    let call = place_in(
        b"new access publish abort lookup remove pin resize reclaim unpin record",
        word,
    );
    match call {
        // An access allows a load where its line does not say.
        1 => Some(plain(2, 1)),
        // `pin` and `unpin` say allow.
        6 => Some(plain(7, 1)),
        9 => Some(plain(7, 0)),
        10 => Some(any_call()),
        0..=8 => Some(plain(call as u8 + 1, 0)),
        _ => None,
    }
}

// ---- the words behind a call

// A call with a field.
#[tactic(auto, using(crate::proofs::Laws::within_set, basics::proofs::Tests::tests), unfolding(crate::specs::Parse::with_value))]
fn with_value(mut begun: Begun, field: usize, value: u64) -> Result<Begun, Why>
    requires { field ≤ 6 }
    ensures { result ≡ with_value begun field value }
{
    match begun.fields[field].ask {
        Ask::No => return Err(Why::Unused),
        Ask::Was => return Err(Why::Twice),
        Ask::May | Ask::Must => {}
    }
    if value < least(field) || most(field) < value {
        return Err(Why::Range);
    }
    begun.fields[field] = Field {
        value,
        ask: Ask::Was,
    };
    Ok(begun)
}

// With a word: `name=value`, or the number alone.
#[tactic(auto, using(crate::proofs::Laws::word_number, crate::proofs::Laws::word_no_field, crate::proofs::Laws::word_field))]
fn with_word(begun: Begun, word: &[u8]) -> Result<Begun, Why>
    ensures { result ≡ with_word begun word.now }
{
    let at = find(word, b'=');
    if at == word.len() {
        return with_value(begun, NUMBER, number_of(word)?);
    }
    let Some(field) = field_of(&word[..at]) else {
        return Err(Why::NoField);
    };
    with_value(begun, field, number_of(&word[at + 1..])?)
}

#[tactic(auto, using(crate::proofs::Laws::within_parts), unfolding(crate::specs::Parse::record_of))]
fn record_of(begun: &Begun) -> Record
    ensures { result ≡ record_of begun.now }
{
    let fields = &begun.fields;
    Record {
        code: fields[CODE].value as u8,
        allow: fields[ALLOW].value == 1,
        place: fields[PLACE].value as usize,
        number: fields[NUMBER].value as usize,
        key: CacheKey {
            file: fields[FILE].value,
            kind: fields[KIND].value as u8,
            index: fields[INDEX].value,
        },
    }
}

// A call with all its words.
#[tactic(auto, using(crate::proofs::Laws::good_values, basics::proofs::Tests::tests), unfolding(crate::specs::Parse::finished))]
fn finished(begun: Begun, call: Span) -> Result<Record, Fault>
    requires { call.from ≤ call.to }
    ensures value { result ≡ finished begun call }
    ensures good { good_call call.to result ≡ true }
{
    if matches!(begun.fields[CODE].ask, Ask::Must)
        || matches!(begun.fields[NUMBER].ask, Ask::Must)
    {
        return Err(Fault {
            why: Why::Missing,
            word: call,
        });
    }
    Ok(record_of(&begun))
}

// A call with the words behind it, which begin at a place of the text.
#[tactic(auto, using(crate::proofs::Laws::words_none, crate::proofs::Laws::words_wrong, crate::proofs::Laws::words_more, crate::proofs::Laws::words_end))]
fn with_words(begun: Begun, call: Span, text: &[u8], start: usize) -> Result<Record, Fault>
    requires call_in_bounds { (call.from ≤ call.to) × (call.to ≤ length text.now) }
    requires start_in_bounds { start ≤ length text.now }
    ensures value { result ≡ with_words (length text.now) begun call start (drop start text.now) }
    ensures good { good_call (length text.now) result ≡ true }
{
    let mut so_far = begun;
    let mut at = start;
    // A turn takes a word, which has at least a byte.
    for _turn in 0..text.len() {
        let Some(word) = next_word(text, at) else {
            return finished(so_far, call);
        };
        match with_word(so_far, &text[word.from..word.to]) {
            Ok(next) => so_far = next,
            Err(why) => return Err(Fault { why, word }),
        }
        at = word.to;
    }
    finished(so_far, call)
}

// What a line says, without its comment.
#[tactic(auto, using(crate::proofs::Laws::text_none, crate::proofs::Laws::text_no_call, crate::proofs::Laws::text_call))]
fn text_says(text: &[u8]) -> Result<Option<Record>, Fault>
    ensures value { result ≡ text_says text.now }
    ensures good { good_line (length text.now) result ≡ true }
{
    let Some(call) = next_word(text, 0) else {
        return Ok(None);
    };
    let Some(begun) = begin(&text[call.from..call.to]) else {
        return Err(Fault {
            why: Why::NoCall,
            word: call,
        });
    };
    with_words(begun, call, text, call.to).map(Some)
}

// What a line says, which is handed over without its end: a call, nothing (an empty line, or only a comment), or what is wrong with it.
#[tactic(auto, unfolding(crate::specs::Parse::line_says))]
pub fn parse_line(line: &[u8]) -> Result<Option<Record>, Fault>
    ensures value { result ≡ line_says line.now }
    ensures good { good_line (length line.now) result ≡ true }
{
    let end = find(line, b'#');
    text_says(&line[..end])
}
