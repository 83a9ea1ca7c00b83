// SPDX-FileCopyrightText: 2026 roolrz
// SPDX-License-Identifier: Apache-2.0
// Ported from src/fs/cache/maintenance.rs of HypeR-Proj/kernel at 53afd06a1d, changed; see NOTICE.

// maintenance.rs, keys put into a new table: `restore_clean`, and the table with the pinned keys.
ghost use Rattle.std.specs.Prelude.{◌≡◌, ◌+◌, ◌≤◌, ◌<◌, false, length, MatchResult};
ghost use Rattle.state.specs.Fresh.{fresh};
ghost use Rattle.maintenance_restore.specs.Answers.{restored, restored_answer};
ghost use Rattle.maintenance_restore.specs.Restore.{restore as restore_rule, restore_pinned, candidate as candidate_rule};
ghost use Rattle.maintenance_restore.specs.Tries.{TRIES, tries_pinned, tries_candidate};

use basics::Refusal;
use key::CacheKey;
use state::{Slot, State};

// The Rust's `restore_clean`, in place: whether the table had room for the key. Where not, and where it refuses, the table is as it came.
#[tactic(auto, using(basics::proofs::Tests::tests, crate::proofs::Cases::inserted_low), unfolding(crate::specs::Restore::restore, crate::specs::Restore::restore_into))]
pub fn restore(t: &mut State, key: CacheKey, last_access: u64) -> Result<bool, Refusal>
    ensures value { restored t.new result ≡ restore_rule t.old key last_access }
    ensures kept { MatchResult result (λ room. room ≡ false → t.new ≡ t.old) (λ _. t.new ≡ t.old) }
{
    if !index_chains::can_insert(&t.index, t.capacity, key)? {
        return Ok(false);
    }
    let Some(slot) = t.index.vacant(t.capacity)? else {
        return Ok(false);
    };
    let rest = t.index.take_vacant(t.capacity, slot)?;
    let index = index_chains::insert(rest, t.capacity, key, slot)?;
    let heap = eviction_sift::insert(t.eviction, t.capacity, slot, last_access)?;
    t.clean = t.clean.checked_add(1).ok_or(Refusal::Stop)?;
    t.index = index;
    t.eviction = heap;
    t.slots[slot] = Slot {
        kind: state::CLEAN,
        key,
        generation: 0,
        last_access,
    };
    Ok(true)
}

// The pinned keys of the old table are restored into `new`, in old slot order, up to the first that is refused. Each restore is counted.
#[tactic(auto, using(basics::proofs::Tests::tests, crate::proofs::Cases::pinned_all, crate::proofs::Cases::pinned_tried, crate::proofs::Cases::few_pinned), unfolding(crate::proofs::Cases::restored_from, crate::proofs::Cases::tried_from))]
fn restore_pinned(
    old: &State,
    pins: &[u8],
    new: &mut State,
    tries: &mut usize,
) -> Result<bool, Refusal>
    requires { ((old.now.capacity ≤ 256) × (length pins.now ≡ old.now.capacity)) × (tries.old ≤ TRIES) }
    ensures value { restored new.new result ≡ restore_pinned old.now.capacity old.now pins.now 0 new.old }
    ensures tries { tries.new ≡ tries.old + tries_pinned old.now.capacity old.now pins.now 0 new.old }
{
    for (entry, pin) in old.slots.iter().zip(pins) {
        if *pin != 0 {
            *tries += 1;
            if !restore(new, entry.key, entry.last_access)? {
                return Ok(false);
            }
        }
    }
    Ok(true)
}

// A new table, of a capacity that a table may have.
#[tactic(auto, using(crate::proofs::Cases::made_fresh))]
pub fn fresh(capacity: usize) -> State
    requires { (0 < capacity) × (capacity ≤ 256) }
    ensures { result ≡ fresh capacity }
{
    State::try_new(capacity).state
}

// More than are needed: no capacity is doubled 8 times.
const ROUNDS: usize = 9;

// A table of this capacity with the pinned keys. Where a chain refuses one, while shrinking and below half the old capacity, one of
// twice the capacity is tried. `tries` counts the restores of all attempts.
#[tactic(auto, using(crate::proofs::Cases::candidate_stops, crate::proofs::Cases::candidate_fits, crate::proofs::Cases::candidate_ends, crate::proofs::Cases::candidate_half, crate::proofs::Cases::candidate_twice, crate::proofs::Cases::candidate_end, crate::proofs::Cases::tries_ends, crate::proofs::Cases::tries_half, crate::proofs::Cases::tries_twice, crate::proofs::Cases::tries_end, crate::proofs::Cases::few_pinned))]
pub fn candidate(
    old: &State,
    pins: &[u8],
    shrinking: bool,
    capacity: usize,
    tries: &mut usize,
) -> Result<Option<State>, Refusal>
    requires { (((old.now.capacity ≤ 256) × (length pins.now ≡ old.now.capacity)) × ((0 < capacity) × (capacity ≤ 256))) × (tries.old ≡ 0) }
    ensures value { restored_answer result ≡ candidate_rule 9 old.now pins.now shrinking capacity }
    ensures tries { tries.new ≡ tries_candidate 9 old.now pins.now shrinking capacity }
{
    let mut size = capacity;
    for _ in 0..ROUNDS {
        let mut new = fresh(size);
        if restore_pinned(old, pins, &mut new, tries)? {
            return Ok(Some(new));
        }
        if !shrinking || old.capacity / 2 <= size {
            return Ok(None);
        }
        size *= 2;
    }
    Ok(None)
}
