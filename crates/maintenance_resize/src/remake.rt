// SPDX-FileCopyrightText: 2026 roolrz
// SPDX-License-Identifier: Apache-2.0
// Ported from src/fs/cache/maintenance.rs of HypeR-Proj/kernel at 53afd06a1d, changed; see NOTICE.

// maintenance.rs, the steps from the new table with the pinned keys on: what leaves the old table, what the new one takes, and the list. They work in
// place, on copies that a refusal drops. The three loops over the old slots stay apart: a closure for what each does with a slot is no plainer. Two of
// them go by slot number, since they change the table whose slots they go over. All require a capacity of at most 256, which resize has tested (crate
// state_remove says why no type holds that).
// Each `as u16` is proved to lose nothing; `try_from` could fail.
ghost use Rattle.std.specs.Prelude.{◌≡◌, true, List, ℕ, ◌+◌, ◌≤◌, take, length, IfOk};
ghost use Rattle.basics.specs.Lists.{each_slot};
ghost use Rattle.basics.specs.Answers.{tried};
ghost use Rattle.state.specs.Fresh.{sound};
ghost use Rattle.maintenance_resize.specs.Answers.{maintained_after};
ghost use Rattle.maintenance_resize.specs.Resize.{unless_refused};
ghost use Rattle.maintenance_resize.specs.Move.{moving_of, leave_pinned, drop_oldest, restore_rest, move_rest, inherit as inherit_rule, remake as remake_rule};
ghost use Rattle.maintenance_restore.specs.Tries.{TRIES};
ghost use Rattle.maintenance_resize.specs.Cost.{tries_rest, tries_remaking};

use crate::Maintenance;
use basics::Refusal;
use maintenance_restore::restore::restore;
use state::State;

// The keys that the new table has leave the old one. The list says where they are.
#[tactic(auto, using(crate::proofs::Moves::peek_low, crate::proofs::Moves::leave_unclean, crate::proofs::Moves::leave_refused, crate::proofs::Moves::leave_absent, crate::proofs::Moves::leave_stops, crate::proofs::Moves::leave_left, crate::proofs::Moves::leave_end, crate::proofs::Moves::leave_sound))]
fn leave_pinned(old: &mut State, new: &State, list: &mut [u16; 256]) -> Result<(), Refusal>
    requires { old.old.capacity ≤ 256 }
    ensures value { tried (moving_of old.new new.now (take old.old.capacity list.new)) result
        ≡ each_slot leave_pinned old.old.capacity 0 (moving_of old.old new.now (take old.old.capacity list.old)) }
    ensures size { old.new.capacity ≡ old.old.capacity }
    ensures sound { sound old.old ≡ true → sound old.new ≡ true }
{
    let capacity = old.capacity;
    for slot in 0..capacity {
        let entry = old.slots[slot];
        if entry.kind != state::CLEAN {
            continue;
        }
        if let Some(to) = state_search::peek(new, entry.key)? {
            state_remove::detach(old, slot)?;
            list[slot] = to as u16;
        }
    }
    Ok(())
}

// More than are needed: a heap has at most 256 keys.
const ROUNDS: usize = 257;

// The oldest keys are removed until the rest fits into the new table.
#[tactic(auto, using(crate::proofs::Moves::drop_end, crate::proofs::Moves::drop_fits, crate::proofs::Moves::drop_none, crate::proofs::Moves::drop_stops, crate::proofs::Moves::drop_on, crate::proofs::Moves::drop_sound))]
fn drop_oldest(old: &mut State, new: &State) -> Result<(), Refusal>
    requires { old.old.capacity ≤ 256 }
    ensures value { (list : List ℕ) → tried (moving_of old.new new.now list) result ≡ drop_oldest 257 (moving_of old.old new.now list) }
    ensures size { old.new.capacity ≡ old.old.capacity }
    ensures sound { sound old.old ≡ true → sound old.new ≡ true }
{
    let room = new.capacity.saturating_sub(new.clean);
    for _ in 0..ROUNDS {
        if old.clean <= room {
            return Ok(());
        }
        if old.eviction.len == 0 {
            return Err(Refusal::Stop);
        }
        let slot = basics::wide(old.eviction.entries[0].slot);
        state_remove::remove(old, slot)?;
    }
    Err(Refusal::Stop)
}

// The rest of the old table's keys are restored in old slot order, where a chain takes them. Each restore is counted.
#[tactic(auto, using(crate::proofs::Moves::rest_unclean, crate::proofs::Moves::rest_refused, crate::proofs::Moves::rest_there, crate::proofs::Moves::rest_stops, crate::proofs::Moves::rest_tried, crate::proofs::Moves::rest_end, crate::proofs::Moves::count_unclean, crate::proofs::Moves::count_there, crate::proofs::Moves::count_tried, crate::proofs::Moves::count_end))]
fn restore_rest(old: &State, new: &mut State, tries: &mut usize) -> Result<(), Refusal>
    requires { (old.now.capacity ≤ 256) × (tries.old ≤ TRIES) }
    ensures value { (list : List ℕ) → tried (moving_of old.now new.new list) result
        ≡ each_slot restore_rest old.now.capacity 0 (moving_of old.now new.old list) }
    ensures tries { (list : List ℕ) → IfOk result (λ _. tries.new ≡ tries.old + tries_rest old.now.capacity 0 (moving_of old.now new.old list)) }
{
    for entry in &old.slots[..old.capacity] {
        if entry.kind == state::CLEAN && state_search::peek(new, entry.key)?.is_none() {
            *tries += 1;
            restore(new, entry.key, entry.last_access)?;
        }
    }
    Ok(())
}

// The keys left in the old table: the list says where the new table has them, and those that a chain refused are removed.
#[tactic(auto, using(crate::proofs::Moves::peek_low, crate::proofs::Moves::move_unclean, crate::proofs::Moves::move_refused, crate::proofs::Moves::move_moved, crate::proofs::Moves::move_stops, crate::proofs::Moves::move_removed, crate::proofs::Moves::move_end))]
fn move_rest(old: &mut State, new: &State, list: &mut [u16; 256]) -> Result<(), Refusal>
    requires { old.old.capacity ≤ 256 }
    ensures { tried (moving_of old.new new.now (take old.old.capacity list.new)) result
        ≡ each_slot move_rest old.old.capacity 0 (moving_of old.old new.now (take old.old.capacity list.old)) }
{
    let capacity = old.capacity;
    for slot in 0..capacity {
        let entry = old.slots[slot];
        if entry.kind != state::CLEAN {
            continue;
        }
        if let Some(to) = state_search::peek(new, entry.key)? {
            list[slot] = to as u16;
        } else {
            state_remove::remove(old, slot)?;
        }
    }
    Ok(())
}

// The Rust's `inherit_history`: "counts and counters carried over".
#[tactic(auto, unfolding(crate::specs::Move::inherit))]
pub(crate) fn inherit(new: &mut State, old: &State)
    ensures { new.new ≡ inherit_rule new.old old.now }
{
    new.next_load_generation = old.next_load_generation;
    new.next_access_sequence = old.next_access_sequence;
    new.counters = old.counters;
}

// From the new table with the pinned keys on: the steps that remake the table. Where one refuses, table and list are as they came.
#[tactic(auto, using(crate::proofs::Resizes::remake_unleft))]
pub(crate) fn remake(
    t: &mut State,
    mut new: State,
    list: &mut [u16],
    tries: &mut usize,
) -> Result<Maintenance, Refusal>
    requires { ((t.old.capacity ≤ 256) × (length list.old ≡ t.old.capacity)) × (tries.old ≤ TRIES) }
    ensures value { maintained_after (record { state = t.new; answer = result }) list.new ≡ unless_refused t.old list.old (remake_rule t.old new) }
    ensures tries { IfOk result (λ _. tries.new ≡ tries.old + tries_remaking t.old new) }
{
    let mut rest = *t;
    let mut slots = [basics::NONE; 256];
    leave_pinned(&mut rest, &new, &mut slots)?;
    drop_oldest(&mut rest, &new)?;
    restore_rest(&rest, &mut new, tries)?;
    move_rest(&mut rest, &new, &mut slots)?;
    inherit(&mut new, &rest);
    list.copy_from_slice(&slots[..list.len()]);
    *t = new;
    Ok(Maintenance::Resized(t.capacity))
}
