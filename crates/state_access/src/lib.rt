// SPDX-FileCopyrightText: 2026 roolrz
// SPDX-License-Identifier: Apache-2.0
// Ported from src/fs/cache/state/mod.rs of HypeR-Proj/kernel at 53afd06a1d, changed; see NOTICE.

// state/mod.rs, the call that makes a load: access (the Rust's `access_with_victim`). It works on any table and any pin bytes; a refusal hands
// the table back as it came, but for the generation that 7 in a reservation uses up. The `as u16` is proved to lose nothing; `try_from` could fail.
#![tactic(auto)]

ghost use Rattle.std.specs.Prelude.{◌≡◌, ◌<◌, ◌≤◌};
ghost use Rattle.state.specs.Answers.{access_answer, accessed_after, unless_refused};
ghost use Rattle.state.specs.Slots.{slot_at};
ghost use Rattle.state.specs.Access.{count_load, free as free_rule, reserve as reserve_rule, access as access_rule};
ghost use Rattle.state_access.specs.Answers.{freed_answer};

use basics::Refusal;
use eviction::EvictionHeap;
use index::Index;
use key::CacheKey;
use state::{Access, CLEAN, Counters, LOADING, LoadToken, Outcome, Slot, State};
use state_search::Seen;

// Index, heap and number of clean slots once a slot is free for a key, and whether a clean key left it: a fact of the reservation, and no answer.
#[derive(Clone, Copy)]
struct Freed {
    index: Index,
    heap: EvictionHeap,
    clean: usize,
    left: bool,
}

// A slot is made free for a key: a clean key leaves it, or a vacant one is taken from the stack.
#[tactic(auto, using(basics::proofs::Tests::tests), unfolding(state::specs::Access::free, state::specs::Access::evict, state::specs::Access::take_top))]
fn free(t: &State, slot: usize) -> Result<Freed, Refusal>
    requires { slot < 256 }
    ensures { freed_answer result ≡ free_rule t.now.capacity t.now.index t.now.eviction t.now.clean slot (slot_at t.now slot) }
{
    match t.slots[slot].kind {
        LOADING => Err(Refusal::Stop),
        CLEAN => Ok(Freed {
            heap: eviction_sift::remove(t.eviction, t.capacity, slot)?,
            index: index_chains::remove(t.index, t.capacity, t.slots[slot].key, slot)?,
            clean: t.clean.checked_sub(1).ok_or(Refusal::Stop)?,
            left: true,
        }),
        _ => Ok(Freed {
            index: t.index.take_vacant(t.capacity, slot)?,
            heap: t.eviction,
            clean: t.clean,
            left: false,
        }),
    }
}

// The counters of a load: one miss more, and one eviction more where a clean key left.
fn count_load(left: bool, mut counters: Counters) -> Counters
    ensures { result ≡ count_load left counters }
{
    counters.misses = basics::one_more(counters.misses);
    if left {
        counters.evictions = basics::one_more(counters.evictions);
    }
    counters
}

// The slot is freed, linked under its new key, and loading. Both numbers are tested first: 7 for the use number has used up a generation.
#[tactic(auto, using(basics::proofs::Tests::tests), unfolding(state::specs::Access::reserve, state::specs::Access::occupy, state::specs::Access::load_into))]
fn reserve(t: &mut State, key: CacheKey, slot: usize) -> Result<Access, Refusal>
    requires { t.old.capacity ≤ 256 }
    ensures { record { table = t.new; answer = access_answer result } ≡ unless_refused t.old (reserve_rule t.old key slot) }
{
    let generation = t
        .next_load_generation
        .checked_add(1)
        .ok_or(Refusal::SequenceExhausted)?;
    let Some(access_sequence) = t.next_access_sequence.checked_add(1) else {
        t.next_load_generation = generation;
        return Err(Refusal::SequenceExhausted);
    };
    if t.capacity <= slot {
        return Err(Refusal::Stop);
    }
    let freed = free(t, slot)?;
    let index = index_chains::insert(freed.index, t.capacity, key, slot)?;
    let loading = t.loading.checked_add(1).ok_or(Refusal::Stop)?;
    t.slots[slot] = Slot {
        kind: LOADING,
        key,
        generation,
        last_access: 0,
    };
    t.index = index;
    t.eviction = freed.heap;
    t.next_load_generation = generation;
    t.next_access_sequence = access_sequence;
    t.counters = count_load(freed.left, t.counters);
    t.clean = freed.clean;
    t.loading = loading;
    let token = LoadToken {
        slot: slot as u16,
        generation,
        key,
        access_sequence,
    };
    Ok(if freed.left {
        Access::Evicted(token)
    } else {
        Access::Reserved(token)
    })
}

// Access on the table in place, which a refusal leaves as `access` says. The first test of 10 is made here too, since that of the pins stands between it
// and `seek`, whose walk has its own: the rule has both.
#[tactic(auto, using(basics::proofs::Tests::tests), unfolding(state::specs::Access::access, state::specs::Access::access_seen, state::specs::Access::miss, state::specs::Access::reserve_at, state::specs::Access::capacity_busy, state::specs::Find::seek, state::specs::Find::seek_at))]
fn access_in(t: &mut State, key: CacheKey, allow_load: bool, pins: &[u8]) -> Result<Access, Refusal>
    ensures { record { table = t.new; answer = access_answer result } ≡ access_rule t.old key allow_load pins.now }
{
    t.check_sound()?;
    if pins.len() != t.capacity {
        return Err(Refusal::Pins);
    }
    match state_search::seek(t, key)? {
        Seen::Hit(slot) => return Ok(Access::Hit(slot)),
        Seen::Loading => return Ok(Access::LoadInProgress),
        Seen::Absent => {}
    }
    match state_choice::choose(t, key, allow_load, pins)? {
        Some(slot) => reserve(t, key, slot),
        None => {
            t.counters.capacity_busy = basics::one_more(t.counters.capacity_busy);
            Ok(Access::CapacityBusy)
        }
    }
}

// The Rust's `access_with_victim`, with pin bytes for its closure.
pub fn access(mut t: State, key: CacheKey, allow_load: bool, pins: &[u8]) -> Outcome<Access>
    ensures { accessed_after result ≡ access_rule t key allow_load pins.now }
{
    let answer = access_in(&mut t, key, allow_load, pins);
    Outcome { state: t, answer }
}
