// SPDX-License-Identifier: Apache-2.0
// The run sheets of document 01: the step that a record makes. A call takes the table by value and hands one back; all else that stands is
// changed in place. That a place is below 16 stands in clauses and not in the type: a `Record` may have any, and `read_record` lets no other through.
#![tactic(auto)]

ghost use Rattle.std.specs.Prelude.{◌≡◌, ◌≤◌, ◌<◌, length, set};
ghost use Rattle.sheet_steps.specs.Standing.{lent_pins, no_pins, place_at, says, word};
ghost use Rattle.sheet_steps.specs.Call.{Follows};
ghost use Rattle.sheet_steps.specs.Steps.{step_new, step_access, step_publish, step_abort, step_lookup, step_remove, step_pin, step_resize};
ghost use Rattle.sheet_steps.specs.Steps.{say_token, move_pins as move_pins_rule, step_reclaim, step as step_rule};

use basics::Refusal;
use maintenance_resize::Maintenance;
use sheet_lines::{Record, Said};
use sheet_standing::Standing;
use state::{Access, LoadToken, Outcome, State};

// The pin bytes that are lent: one for each slot of the table.
#[tactic(auto, unfolding(sheet_standing::specs::Standing::lent_pins))]
fn lent(s: &Standing) -> &[u8]
    ensures { result.now ≡ lent_pins s.now }
{
    &s.pins[..s.state.capacity.min(s.pins.len())]
}

// One pin byte set; there is none past the last. By its place: of what a `get_mut` lends a proof knows no element afterwards.
#[tactic(auto, using(std::proofs::lemmas::List::set_past))]
fn pin_to(pins: &mut [u8; 256], slot: usize, pin: u8)
    ensures { pins.new ≡ set pins.old slot pin }
{
    if slot < pins.len() {
        pins[slot] = pin;
    }
}

// The pins of the old slots, each at the slot that the list gives its key.
#[tactic(auto, using(std::proofs::lemmas::Slice::Zip::zip_end, crate::proofs::Cases::pair_end), unfolding(crate::specs::Standing::no_pins))]
fn move_pins(old: &[u8; 256], list: &[u16]) -> [u8; 256]
    requires { length list.now ≤ 256 }
    ensures { result ≡ move_pins_rule (length list.now) old.now list.now 0 no_pins }
{
    let mut pins = [0; 256];
    for (slot, pin) in list.iter().zip(old) {
        if *pin != 0 {
            pin_to(&mut pins, usize::from(*slot), *pin);
        }
    }
    pins
}

// 1: a table is made, with no token and no pin. A refusal leaves all as it was.
#[tactic(auto, unfolding(crate::specs::Steps::step_new, crate::specs::Steps::say_new))]
fn new(s: &mut Standing, asked: &Record) -> Result<Said, Refusal>
    ensures { says s.new (word result) ≡ step_new s.old asked.now }
{
    let made = State::try_new(asked.number);
    made.answer?;
    *s = sheet_standing::afresh(made.state);
    Ok(Said::Made(asked.number))
}

// 2: a reservation puts its token in the named place.
#[tactic(auto, unfolding(crate::specs::Steps::step_access, crate::specs::Steps::access_of, crate::specs::Steps::say_access))]
fn access(s: &mut Standing, asked: &Record) -> Result<Said, Refusal>
    requires { asked.now.place < 16 }
    ensures { says s.new (word result) ≡ step_access s.old asked.now }
{
    let out = state_access::access(s.state, asked.key, asked.allow, lent(s));
    s.state = out.state;
    Ok(match out.answer? {
        Access::Hit(slot) => Said::Hit(slot),
        Access::LoadInProgress => Said::Loading,
        Access::Reserved(token) => {
            s.places[asked.place] = Some(token);
            Said::Reserved(usize::from(token.slot))
        }
        Access::Evicted(token) => {
            s.places[asked.place] = Some(token);
            Said::Evicted(usize::from(token.slot))
        }
        Access::CapacityBusy => Said::Busy,
    })
}

// What 3 and 4 share: the call on the token in the named place.
#[tactic(auto, unfolding(crate::specs::Steps::say_token, crate::specs::Steps::say_done))]
fn end_load<F: Fn(State, LoadToken) -> Outcome<()>>(
    s: &mut Standing,
    asked: &Record,
    call: F,
) -> Result<Said, Refusal>
    requires place { asked.now.place < 16 }
    requires callable { F.IsAlwaysCallable call }
    ensures { (rule : _) → Follows rule (F.post call) → says s.new (word result) ≡ say_token s.old (rule s.old.state) (place_at s.old asked.now.place) }
{
    let token = s.places[asked.place].ok_or(Refusal::StaleLoad)?;
    let out = call(s.state, token);
    s.state = out.state;
    out.answer?;
    Ok(Said::Done)
}

// 3.
#[tactic(auto, unfolding(crate::specs::Steps::step_publish))]
fn publish(s: &mut Standing, asked: &Record) -> Result<Said, Refusal>
    requires { asked.now.place < 16 }
    ensures { says s.new (word result) ≡ step_publish s.old asked.now }
{
    end_load(s, asked, state_tokens::publish)
}

// 4.
#[tactic(auto, unfolding(crate::specs::Steps::step_abort))]
fn abort(s: &mut Standing, asked: &Record) -> Result<Said, Refusal>
    requires { asked.now.place < 16 }
    ensures { says s.new (word result) ≡ step_abort s.old asked.now }
{
    end_load(s, asked, state_tokens::abort)
}

// 5.
#[tactic(auto, unfolding(crate::specs::Steps::step_lookup, crate::specs::Steps::say_found))]
fn lookup(s: &mut Standing, asked: &Record) -> Result<Said, Refusal>
    ensures { says s.new (word result) ≡ step_lookup s.old asked.now }
{
    let out = state_lookup::lookup(s.state, asked.key);
    s.state = out.state;
    Ok(match out.answer? {
        Some(slot) => Said::Hit(slot),
        None => Said::Nothing,
    })
}

// 6: a pin goes with its key.
#[tactic(auto, unfolding(crate::specs::Steps::step_remove, crate::specs::Steps::say_removed))]
fn remove(s: &mut Standing, asked: &Record) -> Result<Said, Refusal>
    ensures { says s.new (word result) ≡ step_remove s.old asked.now }
{
    let out = state_remove::remove_clean(s.state, asked.number);
    s.state = out.state;
    out.answer?;
    pin_to(&mut s.pins, asked.number, 0);
    Ok(Said::Done)
}

// 7: the pin of a clean slot is set or taken away; 5 and 8 as of remove.
#[tactic(auto, unfolding(crate::specs::Steps::step_pin, crate::specs::Steps::say_pinned))]
fn pin(s: &mut Standing, asked: &Record) -> Result<Said, Refusal>
    ensures { says s.new (word result) ≡ step_pin s.old asked.now }
{
    state_remove::check_clean(&s.state, asked.number)?;
    pin_to(&mut s.pins, asked.number, u8::from(asked.allow));
    Ok(Said::Done)
}

// 8: a pin goes with its key, to the slot that the list gives it.
#[tactic(auto, unfolding(crate::specs::Steps::step_resize, crate::specs::Steps::resize_of, crate::specs::Steps::say_size, sheet_standing::specs::Standing::lent_list))]
fn resize(s: &mut Standing, asked: &Record) -> Result<Said, Refusal>
    ensures { says s.new (word result) ≡ step_resize s.old asked.now }
{
    let mut list = [basics::NONE; 256];
    let count = s.state.capacity.min(list.len());
    let out = maintenance_resize::resize(s.state, asked.number, lent(s), &mut list[..count]);
    s.state = out.state;
    Ok(match out.answer? {
        Maintenance::Unchanged => Said::Unchanged,
        Maintenance::Busy => Said::Busy,
        Maintenance::Resized(capacity) => {
            s.pins = move_pins(&s.pins, &list[..count]);
            Said::Resized(capacity)
        }
    })
}

// 9.
#[tactic(auto, unfolding(crate::specs::Steps::step_reclaim, crate::specs::Steps::reclaim_of, crate::specs::Steps::say_count))]
fn reclaim(s: &mut Standing, asked: &Record) -> Result<Said, Refusal>
    ensures { says s.new (word result) ≡ step_reclaim s.old asked.now }
{
    let batch = maintenance_reclaim::reclaim(s.state, asked.number, lent(s));
    s.state = batch.state;
    batch.answer?;
    Ok(Said::Reclaimed(batch.count))
}

// The step of the record at the front of some bytes. Tests on numbers: the codes are document 01's, and a record may have any byte as its code.
#[tactic(auto, using(basics::proofs::Tests::tests), unfolding(crate::specs::Steps::step, crate::specs::Steps::step_record, crate::specs::Steps::step_code))]
pub fn step(s: &mut Standing, bytes: &[u8]) -> Said
    ensures { says s.new result ≡ step_rule s.old bytes.now }
{
    let Some(asked) = sheet_lines::read_record(bytes) else {
        return Said::Bad;
    };
    if asked.code != 1 && !s.stands {
        return Said::Bad;
    }
    // A record's code is a byte, and these are document 01's numbers; none but 1 to 9 comes here.
    let answer = match asked.code {
        1 => new(s, &asked),
        2 => access(s, &asked),
        3 => publish(s, &asked),
        4 => abort(s, &asked),
        5 => lookup(s, &asked),
        6 => remove(s, &asked),
        7 => pin(s, &asked),
        8 => resize(s, &asked),
        _ => reclaim(s, &asked),
    };
    answer.unwrap_or_else(|why| Said::Refused(why.into()))
}
