// SPDX-FileCopyrightText: 2026 roolrz
// SPDX-License-Identifier: Apache-2.0
// Ported from src/fs/cache/state/eviction.rs of HypeR-Proj/kernel at 53afd06a1d, changed; see NOTICE.

// state/eviction.rs, the changes of the heap: insert, touch and remove. Each function works on any value: where the Rust would stop, the answer
// is the refusal `Stop`, and the caller keeps the heap that it had. Each `as u16` is proved to lose nothing; `try_from` could fail.
#![tactic(auto)]

ghost use Rattle.std.specs.Prelude.{◌≡◌, ◌<◌, ◌≤◌, IfOk};
ghost use Rattle.basics.specs.Answers.{answer};
ghost use Rattle.eviction.specs.Heap.{insert_heap, place_of as place_rule, touch_heap, remove_heap};

use basics::{NONE, Refusal};
use eviction::{Entry, EvictionHeap};
use eviction_swaps::{sift_down_in_place, sift_up_in_place, up_to};

// The slot goes in at the end, and up from there.
#[tactic(auto, using(basics::proofs::Tests::tests), unfolding(eviction::specs::Heap::insert_heap, eviction::specs::Entries::sized))]
pub fn insert(
    mut heap: EvictionHeap,
    capacity: usize,
    slot: usize,
    last_access: u64,
) -> Result<EvictionHeap, Refusal>
    ensures { answer result ≡ insert_heap capacity heap slot last_access }
{
    heap.check_sized(capacity)?;
    let end = heap.len;
    if capacity <= slot || heap.positions[slot] != NONE || capacity <= end {
        return Err(Refusal::Stop);
    }
    heap.entries[end] = Entry {
        last_access,
        slot: slot as u16,
    };
    heap.positions[slot] = end as u16;
    heap.len = end + 1;
    sift_up_in_place(&mut heap, capacity, end)?;
    Ok(heap)
}

// The place of a slot, whose entry names the slot.
#[tactic(auto, using(basics::proofs::Tests::tests), unfolding(eviction::specs::Heap::place_of, eviction::specs::Entries::sized))]
fn place_of(heap: &EvictionHeap, capacity: usize, slot: usize) -> Result<usize, Refusal>
    ensures value { answer result ≡ place_rule capacity heap.now slot }
    ensures within { IfOk result (λ place. (place < heap.now.len) × ((heap.now.len ≤ capacity) × ((slot < capacity) × (capacity ≤ 256)))) }
{
    heap.check_sized(capacity)?;
    if capacity <= slot {
        return Err(Refusal::Stop);
    }
    let place = usize::from(heap.positions[slot]);
    if heap.len <= place || usize::from(heap.entries[place].slot) != slot {
        return Err(Refusal::Stop);
    }
    Ok(place)
}

// The slot's entry takes a greater last use, and goes down from there.
#[tactic(auto, using(basics::proofs::Tests::tests), unfolding(eviction::specs::Heap::touch_heap, eviction::specs::Heap::touch_at))]
pub fn touch(
    mut heap: EvictionHeap,
    capacity: usize,
    slot: usize,
    last_access: u64,
) -> Result<EvictionHeap, Refusal>
    ensures { answer result ≡ touch_heap capacity heap slot last_access }
{
    let place = place_of(&heap, capacity, slot)?;
    if last_access <= heap.entries[place].last_access {
        return Err(Refusal::Stop);
    }
    heap.entries[place] = Entry {
        last_access,
        slot: slot as u16,
    };
    sift_down_in_place(&mut heap, capacity, place)?;
    Ok(heap)
}

// The last entry takes the slot's place, and moves up or down from there.
#[tactic(auto, using(basics::proofs::Tests::tests), unfolding(eviction::specs::Heap::remove_heap, eviction::specs::Heap::remove_at, eviction::specs::Heap::popped, eviction::specs::Heap::put_at, eviction::specs::Heap::settle))]
pub fn remove(mut heap: EvictionHeap, capacity: usize, slot: usize) -> Result<EvictionHeap, Refusal>
    ensures { answer result ≡ remove_heap capacity heap slot }
{
    let place = place_of(&heap, capacity, slot)?;
    let end = heap.len - 1;
    let last = heap.entries[end];
    heap.entries[end] = Entry::default();
    heap.len = end;
    heap.positions[slot] = NONE;
    if place == end {
        return Ok(heap);
    }
    let moved = usize::from(last.slot);
    if capacity <= moved {
        return Err(Refusal::Stop);
    }
    heap.entries[place] = last;
    heap.positions[moved] = place as u16;
    if up_to(&heap, place) == place {
        sift_down_in_place(&mut heap, capacity, place)?;
    } else {
        sift_up_in_place(&mut heap, capacity, place)?;
    }
    Ok(heap)
}
