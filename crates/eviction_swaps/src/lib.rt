// SPDX-FileCopyrightText: 2026 roolrz
// SPDX-License-Identifier: Apache-2.0
// Ported from src/fs/cache/state/eviction.rs of HypeR-Proj/kernel at 53afd06a1d, changed; see NOTICE.

// state/eviction.rs, the sifts: an entry of the heap moved up or down by swaps, by value or in place. They are parts of the heap's calls (crate
// eviction_sift), which meet what the sifts require, work in place to copy no heap, and drop the heap of a sift that is refused.
#![tactic(auto)]

ghost use Rattle.std.specs.Prelude.{◌≡◌, ◌+◌, ◌*◌, ◌≤◌, ◌<◌};
ghost use Rattle.basics.specs.Answers.{answer, tried};
ghost use Rattle.eviction_swaps.specs.Step.{Callable, Within, Follows};
ghost use Rattle.eviction.specs.Sift.{swapped, sift_from, sift_up as sift_up_rule, sift_down as sift_down_rule};
ghost use Rattle.eviction.specs.Sift.{up_to as up_rule, child_of as child_rule, down_to as down_rule};

use basics::{MAX_CAPACITY, Refusal};
use eviction::EvictionHeap;

// Where the entry at p goes next on its way up; p, where it stays. Above place 0 is 0 itself, and no entry is older than itself.
#[tactic(auto, using(basics::proofs::Tests::tests, crate::proofs::Cases::older_self), unfolding(eviction::specs::Sift::up_to))]
pub fn up_to(heap: &EvictionHeap, p: usize) -> usize
    requires { p < 256 }
    ensures value { result ≡ up_rule heap.now p }
    ensures upper_bound { result < 256 }
{
    let above = p.saturating_sub(1) / 2;
    if heap.entries[p].older_than(heap.entries[above]) {
        above
    } else {
        p
    }
}

// The right child of p only when it is strictly older than the left.
#[tactic(auto, using(basics::proofs::Tests::tests), unfolding(eviction::specs::Sift::child_of))]
fn child_of(heap: &EvictionHeap, p: usize) -> usize
    requires { (p * 2 + 1 < heap.now.len) × (heap.now.len ≤ 256) }
    ensures value { result ≡ child_rule heap.now p }
    ensures upper_bound { result < 256 }
{
    let left = p * 2 + 1;
    let right = p * 2 + 2;
    if right < heap.len && heap.entries[right].older_than(heap.entries[left]) {
        right
    } else {
        left
    }
}

// Where the entry at p goes next on its way down; p, where it stays.
#[tactic(auto, using(basics::proofs::Tests::tests), unfolding(eviction::specs::Sift::down_to))]
fn down_to(heap: &EvictionHeap, p: usize) -> usize
    requires { (p < 256) × (heap.now.len ≤ 256) }
    ensures value { result ≡ down_rule heap.now p }
    ensures upper_bound { result < 256 }
{
    if heap.len <= p * 2 + 1 {
        return p;
    }
    let child = child_of(heap, p);
    if heap.entries[child].older_than(heap.entries[p]) {
        child
    } else {
        p
    }
}

// The entries at i and j change places.
#[tactic(auto, using(basics::proofs::Tests::tests, std::proofs::lemmas::List::Edits::swap_is), unfolding(eviction::specs::Sift::swapped))]
fn swap(heap: &mut EvictionHeap, capacity: usize, i: usize, j: usize) -> Result<(), Refusal>
    requires { (capacity ≤ 256) × ((i < 256) × (j < 256)) }
    ensures swaps { tried heap.new result ≡ swapped capacity heap.old i j }
    ensures len { heap.new.len ≡ heap.old.len }
{
    let a = usize::from(heap.entries[i].slot);
    let b = usize::from(heap.entries[j].slot);
    if capacity <= b || capacity <= a {
        return Err(Refusal::Stop);
    }
    heap.entries.swap(i, j);
    // `as u16` here is proved to lose nothing; `try_from` could fail.
    heap.positions[b] = i as u16;
    heap.positions[a] = j as u16;
    Ok(())
}

// The entry at `start` goes on, place by place, until it stays; no way has 256 steps. The step is `up_to` or `down_to`.
#[tactic(auto, using(basics::proofs::Tests::tests, crate::proofs::Cases::sift_step, crate::proofs::Cases::sift_end))]
fn sift<F: Fn(&EvictionHeap, usize) -> usize>(
    heap: &mut EvictionHeap,
    capacity: usize,
    start: usize,
    step: F,
) -> Result<(), Refusal>
    requires room { (capacity ≤ 256) × (start < 256) }
    requires callable { Callable heap.old.len (F.pre step) }
    requires within { Within heap.old.len (F.post step) }
    ensures { (rule : _) → Follows heap.old.len rule (F.post step) → tried heap.new result ≡ sift_from rule 256 capacity heap.old start }
{
    let mut p = start;
    for _ in 0..MAX_CAPACITY {
        let next = step(heap, p);
        if next == p {
            return Ok(());
        }
        swap(heap, capacity, p, next)?;
        p = next;
    }
    Ok(())
}

// Where this is refused, the heap is one between two swaps.
pub fn sift_up_in_place(
    heap: &mut EvictionHeap,
    capacity: usize,
    start: usize,
) -> Result<(), Refusal>
    requires { (capacity ≤ 256) × (start < 256) }
    ensures { tried heap.new result ≡ sift_up_rule capacity heap.old start }
{
    sift(heap, capacity, start, up_to)
}

// As for sift_up_in_place, a refused heap is one between two swaps.
pub fn sift_down_in_place(
    heap: &mut EvictionHeap,
    capacity: usize,
    start: usize,
) -> Result<(), Refusal>
    requires { (capacity ≤ 256) × ((start < 256) × (heap.old.len ≤ 256)) }
    ensures { tried heap.new result ≡ sift_down_rule capacity heap.old start }
{
    sift(heap, capacity, start, down_to)
}

// By value: where this is refused, the caller has the heap that it passed.
pub fn sift_up(
    mut heap: EvictionHeap,
    capacity: usize,
    start: usize,
) -> Result<EvictionHeap, Refusal>
    requires { (capacity ≤ 256) × (start < 256) }
    ensures { answer result ≡ sift_up_rule capacity heap start }
{
    sift_up_in_place(&mut heap, capacity, start)?;
    Ok(heap)
}

// As for sift_up, the caller of a refused one has its own heap.
pub fn sift_down(
    mut heap: EvictionHeap,
    capacity: usize,
    start: usize,
) -> Result<EvictionHeap, Refusal>
    requires { (capacity ≤ 256) × ((start < 256) × (heap.len ≤ 256)) }
    ensures { answer result ≡ sift_down_rule capacity heap start }
{
    sift_down_in_place(&mut heap, capacity, start)?;
    Ok(heap)
}
