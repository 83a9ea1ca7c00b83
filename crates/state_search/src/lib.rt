// SPDX-FileCopyrightText: 2026 roolrz
// SPDX-License-Identifier: Apache-2.0
// Ported from src/fs/cache/state/mod.rs of HypeR-Proj/kernel at 53afd06a1d, changed; see NOTICE.

// state/mod.rs, the searches of a key's chain: that of lookup and access with what it does to the table, and peek_clean. Every function works on
// any table; a refusal leaves it as it was.
#![tactic(auto)]

ghost use Rattle.std.specs.Prelude.{◌≡◌, ◌<◌, ◌≤◌, ◌-◌, Bool, IfOk, IfSome, MatchResult};
ghost use Rattle.index.specs.Chain.{CHAIN, length_of};
ghost use Rattle.basics.specs.Try.{Try, ok, refuse};
ghost use Rattle.basics.specs.Answers.{number, answer, found_answer};
ghost use Rattle.state.specs.Slots.{occupied, clean_with};
ghost use Rattle.state.specs.Find.{ended, find_key, touch_next, seek};
ghost use Rattle.state.specs.Reads.{peek_clean};
ghost use Rattle.state_search.specs.Sought.{seen_of, Follows, walk_key, find_test, peek_test};
ghost use Rattle.state.specs.declared.Slot.{Slot as SlotRecord};

use basics::{NO_SLOT, Refusal};
use eviction::EvictionHeap;
use index::Index;
use index_chains::MAX_CHAIN;
use key::CacheKey;
use state::{CLEAN, LOADING, Slot, State};

// What a search for a key saw.
#[derive(Clone, Copy)]
pub enum Seen {
    Hit(usize),
    Loading,
    Absent,
}

// Whether the slot holds a key: the Rust's `Slot::key` gives one.
#[tactic(auto, using(basics::proofs::Tests::tests), unfolding(state::specs::Slots::occupied))]
pub fn holds_key(slot: Slot) -> bool
    ensures { result ≡ occupied slot }
{
    slot.kind == LOADING || slot.kind == CLEAN
}

// Whether the slot is clean with the key.
#[tactic(auto, using(basics::proofs::Tests::tests), unfolding(state::specs::Slots::clean_with))]
fn clean_with(slot: Slot, key: CacheKey) -> bool
    ensures { result ≡ clean_with slot key }
{
    slot.kind == CLEAN && slot.key.same(key)
}

// The next use number is taken and the slot touched, on the heap alone.
#[tactic(auto, using(basics::proofs::Tests::tests), unfolding(state::specs::Find::touch_next))]
pub fn touch_next(
    capacity: usize,
    heap: EvictionHeap,
    slot: usize,
    last: u64,
) -> Result<EvictionHeap, Refusal>
    ensures { answer result ≡ touch_next capacity heap slot last }
{
    let next = last.checked_add(1).ok_or(Refusal::SequenceExhausted)?;
    eviction_sift::touch(heap, capacity, slot, next)
}

// The end of the key's chain behind so many slots: no slot, where the length kept is what was walked.
#[tactic(auto, using(crate::proofs::Cases::walked_all))]
fn at_end(index: &Index, key: CacheKey, walked: usize) -> Result<Option<usize>, Refusal>
    requires { walked ≤ CHAIN }
    ensures slot { found_answer result ≡ ended (length_of index.now key) (CHAIN - walked) }
    ensures inside { IfOk result (λ found. IfSome found (λ slot. slot < 256)) }
{
    if index.length_of(key) != walked {
        return Err(Refusal::Stop);
    }
    Ok(None)
}

// The walk of a key's chain, to the first slot at which the test `here` is true; a test may be a stop. It is of any rule that says what the test does.
#[tactic(auto, using(basics::proofs::Tests::tests, crate::proofs::Cases::walk_step, crate::proofs::Cases::walk_end), unfolding(crate::specs::Sought::walk_key))]
fn walk<F: Fn(Slot) -> Result<bool, Refusal>>(
    t: &State,
    key: CacheKey,
    here: F,
) -> Result<Option<usize>, Refusal>
    requires { F.IsAlwaysCallable here }
    ensures slot { (rule : SlotRecord → Try Bool) → Follows (F.post here) rule → found_answer result ≡ walk_key rule t.now key }
    ensures inside { IfOk result (λ found. IfSome found (λ slot. slot < 256)) }
{
    t.check_sound()?;
    let mut slot = t.index.head(key);
    for walked in 0..MAX_CHAIN {
        if slot == NO_SLOT {
            return at_end(&t.index, key, walked);
        }
        if t.capacity <= slot {
            return Err(Refusal::Stop);
        }
        if here(t.slots[slot])? {
            return Ok(Some(slot));
        }
        slot = t.index.next_in_chain(slot);
    }
    if slot == NO_SLOT {
        at_end(&t.index, key, MAX_CHAIN)
    } else {
        Err(Refusal::Stop)
    }
}

// The slot of the key's chain that holds the key; a vacant one on the way is a stop.
#[tactic(auto, using(basics::proofs::Tests::tests), unfolding(crate::specs::Sought::find_test))]
fn find(t: &State, key: CacheKey) -> Result<Option<usize>, Refusal>
    ensures slot { found_answer result ≡ find_key t.now key }
    ensures inside { IfOk result (λ found. IfSome found (λ slot. slot < 256)) }
{
    walk(
        t,
        key,
        |slot: Slot| -> Result<bool, Refusal>
            ensures { answer result ≡ find_test key slot }
        {
            if !holds_key(slot) {
                return Err(Refusal::Stop);
            }
            Ok(slot.key.same(key))
        },
    )
}

// What lookup and access do first: a clean key's slot is touched and a hit counted, a loading key is counted. The first test of 10 is in its walk, as
// in the rule `find_key`; lookup makes no other.
#[tactic(auto, using(basics::proofs::Tests::tests), unfolding(state::specs::Find::seek, state::specs::Find::seek_at, state::specs::Find::hit_at, state::specs::Find::touch_next))]
pub fn seek(t: &mut State, key: CacheKey) -> Result<Seen, Refusal>
    ensures seen { MatchResult result (λ seen. seek t.old key ≡ ok (record { table = t.new; seen = seen_of seen }))
        (λ why. (seek t.old key ≡ refuse (number why)) × (t.new ≡ t.old)) }
    ensures absent { IfOk result (λ seen. seen ≡ Seen.Absent → t.new ≡ t.old) }
{
    let Some(slot) = find(t, key)? else {
        return Ok(Seen::Absent);
    };
    if t.slots[slot].kind != CLEAN {
        t.counters.in_progress = basics::one_more(t.counters.in_progress);
        return Ok(Seen::Loading);
    }
    let last = t.next_access_sequence;
    t.eviction = touch_next(t.capacity, t.eviction, slot, last)?;
    t.next_access_sequence = last + 1;
    t.slots[slot] = Slot {
        kind: CLEAN,
        key,
        generation: 0,
        last_access: last + 1,
    };
    t.counters.hits = basics::one_more(t.counters.hits);
    Ok(Seen::Hit(slot))
}

// The slot of the key's chain that is clean with the key; a loading or vacant one is passed.
#[tactic(auto, using(basics::proofs::Tests::tests), unfolding(crate::specs::Sought::peek_test))]
pub fn peek(t: &State, key: CacheKey) -> Result<Option<usize>, Refusal>
    ensures { found_answer result ≡ peek_clean t.now key }
{
    walk(
        t,
        key,
        |slot: Slot| -> Result<bool, Refusal>
            ensures { answer result ≡ peek_test key slot }
        { Ok(clean_with(slot, key)) },
    )
}

// `peek` as the table's call, which takes it by value.
pub fn peek_clean(t: State, key: CacheKey) -> Result<Option<usize>, Refusal>
    ensures { found_answer result ≡ peek_clean t key }
{
    peek(&t, key)
}
