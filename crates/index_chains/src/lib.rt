// SPDX-FileCopyrightText: 2026 roolrz
// SPDX-License-Identifier: Apache-2.0
// Ported from src/fs/cache/index.rs of HypeR-Proj/kernel at 53afd06a1d, changed; see NOTICE.

// index.rs, the chains: whether one takes a slot, a slot put in or taken out, and one given up. Each function works on any value: where the Rust
// would stop, it is refused. The `as u16` is proved to lose nothing; `try_from` could fail.
#![tactic(auto)]

ghost use Rattle.std.specs.Prelude.{◌≡◌};
ghost use Rattle.basics.specs.Answers.{answer};
ghost use Rattle.index.specs.Chain.{can_insert, insert_index, remove_index};
ghost use Rattle.index.specs.Free.{vacate as vacate_index};

use basics::{NONE, Refusal};
use index::Index;
use key::CacheKey;

// The most slots of a chain.
pub const MAX_CHAIN: usize = 64;

// Whether the key's chain takes one more slot, by the length kept for it.
#[tactic(auto, using(basics::proofs::Tests::tests), unfolding(index::specs::Chain::can_insert))]
pub fn can_insert(index: &Index, capacity: usize, key: CacheKey) -> Result<bool, Refusal>
    ensures { answer result ≡ can_insert capacity index.now key }
{
    index.check_sized(capacity)?;
    Ok(index.length_of(key) < MAX_CHAIN)
}

// Puts a slot that links to nothing at the front of the key's chain. The sizes are tested before the head is read, as the rule has it, and once more in
// `can_insert`, which stands by itself too.
#[tactic(auto, using(basics::proofs::Tests::tests, key::proofs::Buckets::bucket_low, crate::proofs::Cases::room_left), unfolding(index::specs::Chain::insert_index))]
pub fn insert(
    mut index: Index,
    capacity: usize,
    key: CacheKey,
    slot: usize,
) -> Result<Index, Refusal>
    ensures { answer result ≡ insert_index capacity index key slot }
{
    index.check_sized(capacity)?;
    let bucket = key.bucket(index.buckets);
    let first = index.heads[bucket];
    if capacity <= slot
        || index.next[slot] != NONE
        || usize::from(first) == slot
        || !can_insert(&index, capacity, key)?
    {
        return Err(Refusal::Stop);
    }
    index.next[slot] = first;
    index.heads[bucket] = slot as u16;
    index.lengths[bucket] += 1;
    Ok(index)
}

// Takes a slot out of the key's chain. One walk for this and that of state_search would be no plainer: each ends at a slot of its own and by a rule of
// its own, and only this one keeps the place before.
#[tactic(auto, using(basics::proofs::Tests::tests, key::proofs::Buckets::bucket_low, crate::proofs::Cases::remove_place, crate::proofs::Cases::remove_end), unfolding(index::specs::Chain::remove_index, index::specs::Chain::unlinked))]
pub fn remove(
    mut index: Index,
    capacity: usize,
    key: CacheKey,
    target: usize,
) -> Result<Index, Refusal>
    ensures { answer result ≡ remove_index capacity index key target }
{
    index.check_sized(capacity)?;
    let bucket = key.bucket(index.buckets);
    let shorter = index.lengths[bucket].checked_sub(1).ok_or(Refusal::Stop)?;
    let mut previous = None;
    let mut slot = usize::from(index.heads[bucket]);
    for _ in 0..MAX_CHAIN {
        if capacity <= slot {
            return Err(Refusal::Stop);
        }
        let next = index.next[slot];
        if slot == target {
            match previous {
                None => index.heads[bucket] = next,
                Some(before) => index.next[before] = next,
            }
            index.next[slot] = NONE;
            index.lengths[bucket] = shorter;
            return Ok(index);
        }
        previous = Some(slot);
        slot = usize::from(next);
    }
    Err(Refusal::Stop)
}

// A slot's key leaves its chain, and the slot goes onto the stack.
#[tactic(auto, unfolding(index::specs::Free::vacate))]
pub fn vacate(capacity: usize, index: Index, key: CacheKey, slot: usize) -> Result<Index, Refusal>
    ensures { answer result ≡ vacate_index capacity index key slot }
{
    remove(index, capacity, key, slot)?.release(capacity, slot)
}
