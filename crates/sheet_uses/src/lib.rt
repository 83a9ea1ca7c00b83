// SPDX-License-Identifier: Apache-2.0
// The fields that a call of a run sheet uses, and the records where every other field is 0.
// `as u64`: there is no `From` between usize and u64, and `try_from` could fail.
#![tactic(auto)]

ghost use Rattle.std.specs.Prelude.{◌≡◌};
ghost use Rattle.sheet_uses.specs.Uses.{uses_key, uses_place, uses_allow, uses_number, uses, fits, is_code, only_used};

use sheet_lines::Record;

// The key: access and lookup.
#[tactic(auto, using(basics::proofs::Tests::tests), unfolding(crate::specs::Uses::uses_key))]
fn uses_key(code: u8) -> bool
    ensures { result ≡ uses_key code }
{
    matches!(code, 2 | 5)
}

// The token place: access, publish and abort.
#[tactic(auto, using(basics::proofs::Tests::tests), unfolding(crate::specs::Uses::uses_place))]
fn uses_place(code: u8) -> bool
    ensures { result ≡ uses_place code }
{
    matches!(code, 2..=4)
}

// Allow: access and pin.
#[tactic(auto, using(basics::proofs::Tests::tests), unfolding(crate::specs::Uses::uses_allow))]
fn uses_allow(code: u8) -> bool
    ensures { result ≡ uses_allow code }
{
    matches!(code, 2 | 7)
}

// The number: new, remove, pin, resize and reclaim.
#[tactic(auto, using(basics::proofs::Tests::tests), unfolding(crate::specs::Uses::uses_number))]
pub fn uses_number(code: u8) -> bool
    ensures { result ≡ uses_number code }
{
    code == 1 || 5 < code
}

// Whether a call uses a field, by document 01's order: 0 code, 1 allow, 2 kind, 3 place, 4 number, 5 file, 6 index. The code is no field of its own.
// Numbers and no enums: the rule `uses` is on numbers, and reads any other field as the key's; the codes are document 01's, and a record may have any
// byte as its code.
#[tactic(auto, using(basics::proofs::Tests::tests), unfolding(crate::specs::Uses::uses))]
pub fn uses(code: u8, field: usize) -> bool
    ensures { result ≡ uses code field }
{
    match field {
        0 => false,
        1 => uses_allow(code),
        3 => uses_place(code),
        4 => uses_number(code),
        _ => uses_key(code),
    }
}

// Whether a field is used, or is 0.
#[tactic(auto, using(basics::proofs::Tests::tests), unfolding(crate::specs::Uses::fits))]
fn fits(used: bool, value: u64) -> bool
    ensures { result ≡ fits used value }
{
    used || value == 0
}

// The codes are 1 to 9.
#[tactic(auto, using(basics::proofs::Tests::tests), unfolding(crate::specs::Uses::is_code))]
fn is_code(code: u8) -> bool
    ensures { result ≡ is_code code }
{
    matches!(code, 1..=9)
}

// Whether the code is a call's and every field that the call does not use is 0.
#[tactic(auto, unfolding(crate::specs::Uses::only_used))]
pub fn only_used(call: Record) -> bool
    ensures { result ≡ only_used call }
{
    let key = uses_key(call.code);
    is_code(call.code)
        && fits(key, call.key.file)
        && fits(key, u64::from(call.key.kind))
        && fits(key, call.key.index)
        && fits(uses_place(call.code), call.place as u64)
        && fits(uses_allow(call.code), u64::from(call.allow))
        && fits(uses_number(call.code), call.number as u64)
}
