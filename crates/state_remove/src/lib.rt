// SPDX-FileCopyrightText: 2026 roolrz
// SPDX-License-Identifier: Apache-2.0
// Ported from src/fs/cache/state/mod.rs of HypeR-Proj/kernel at 53afd06a1d, changed; see NOTICE.

// state/mod.rs, the calls that take a clean key out of the table: remove_clean, which counts an eviction, and detach_clean, which does
// not. Every call works on any table; a refusal hands the table back as it came. `detach` and `remove` require a capacity of at most 256, which their
// callers have tested: a type for tested tables would ask more of these than the number, and owe it after every change.
#![tactic(auto)]

ghost use Rattle.std.specs.Prelude.{◌≡◌, ◌≤◌, true, MatchResult, OnErr, OnOk};
ghost use Rattle.basics.specs.Try.{ok, refuse};
ghost use Rattle.basics.specs.Answers.{number, tried};
ghost use Rattle.state.specs.Answers.{finished_after};
ghost use Rattle.state.specs.Remove.{detach_clean, remove_clean, need_clean, detach as detach_rule, remove as remove_rule};

use basics::Refusal;
use state::{Outcome, State};

// A clean slot's key leaves the heap and its chain, and the slot goes onto the stack. In place, as resize detaches.
#[tactic(auto, using(basics::proofs::Tests::tests), unfolding(state::specs::Remove::detach_clean))]
pub fn detach(t: &mut State, slot: usize) -> Result<(), Refusal>
    requires { t.old.capacity ≤ 256 }
    ensures value { tried t.new result ≡ detach_clean t.old slot }
    ensures kept { OnErr result (t.new ≡ t.old) }
    ensures size { t.new.capacity ≡ t.old.capacity }
{
    if t.capacity <= slot || t.slots[slot].kind != state::CLEAN {
        return Err(Refusal::Stop);
    }
    let heap = eviction_sift::remove(t.eviction, t.capacity, slot)?;
    let index = index_chains::vacate(t.capacity, t.index, t.slots[slot].key, slot)?;
    let clean = t.clean.checked_sub(1).ok_or(Refusal::Stop)?;
    t.eviction = heap;
    t.index = index;
    t.slots[slot] = state::vacant_slot();
    t.clean = clean;
    Ok(())
}

// Removing counts an eviction. In place, as reclaim and resize remove.
#[tactic(auto, unfolding(state::specs::Remove::remove_clean))]
pub fn remove(t: &mut State, slot: usize) -> Result<(), Refusal>
    requires { t.old.capacity ≤ 256 }
    ensures value { tried t.new result ≡ remove_clean t.old slot }
    ensures kept { OnErr result (t.new ≡ t.old) }
    ensures size { t.new.capacity ≡ t.old.capacity }
{
    detach(t, slot)?;
    t.counters.evictions = basics::one_more(t.counters.evictions);
    Ok(())
}

// The tests of the table's calls, which know no more of a slot than its number.
#[tactic(auto, using(basics::proofs::Tests::tests), unfolding(state::specs::Remove::need_clean))]
pub fn check_clean(t: &State, slot: usize) -> Result<(), Refusal>
    ensures value { MatchResult result (λ _. need_clean t.now slot ≡ ok true) (λ why. need_clean t.now slot ≡ refuse (number why)) }
    ensures bound { OnOk result (t.now.capacity ≤ 256) }
{
    t.check_sound()?;
    if t.capacity <= slot {
        return Err(Refusal::Slot);
    }
    if t.slots[slot].kind != state::CLEAN {
        return Err(Refusal::Unclean);
    }
    Ok(())
}

// `remove` as the table's call, which takes it by value. It and `detach_clean` stay two: one function over the step would need a rule over a step, and
// definitions of what it asks of one, which are longer than both.
#[tactic(auto, unfolding(state::specs::Remove::remove))]
pub fn remove_clean(mut t: State, slot: usize) -> Outcome<()>
    ensures { finished_after result ≡ remove_rule t slot }
{
    let mut answer = check_clean(&t, slot);
    if answer.is_ok() {
        answer = remove(&mut t, slot);
    }
    Outcome { state: t, answer }
}

// `detach` as the table's call.
#[tactic(auto, unfolding(state::specs::Remove::detach))]
pub fn detach_clean(mut t: State, slot: usize) -> Outcome<()>
    ensures { finished_after result ≡ detach_rule t slot }
{
    let mut answer = check_clean(&t, slot);
    if answer.is_ok() {
        answer = detach(&mut t, slot);
    }
    Outcome { state: t, answer }
}
