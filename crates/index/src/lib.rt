// SPDX-FileCopyrightText: 2026 roolrz
// SPDX-License-Identifier: Apache-2.0
// Ported from src/fs/cache/index.rs of HypeR-Proj/kernel at 53afd06a1d, changed; see NOTICE.

// index.rs: the chains of slots and the stack of vacant slots: a new index, the stack, and what reads a chain. Each function works on any value:
// where the Rust would stop, it is refused. Each `as u16` is proved to lose nothing; `try_from` could fail.
#![tactic(auto)]

ghost use Rattle.std.specs.Prelude.{◌-◌, ◌≤◌, ◌≡◌, ◌++◌, replicate, true, false, MatchResult, OnOk};
ghost use Rattle.basics.specs.declared.Refusal.{Refusal};
ghost use Rattle.basics.specs.Answers.{answer, found_answer};
ghost use Rattle.basics.specs.Lists.{down};
ghost use Rattle.index.specs.Chain.{sized, head_of, next_of, length_of};
ghost use Rattle.index.specs.Sizes.{Sized};
ghost use Rattle.index.specs.Free.{top_vacant, take_vacant, release_index};
ghost use Rattle.index.specs.Fresh.{no_index, new_index};

use basics::{MAX_CAPACITY, NONE, Refusal};
use key::CacheKey;

// The most buckets of a table: twice the most slots.
pub const MAX_BUCKETS: usize = 512;

// No arrayvec for the stack: the rules read the places past its length too ("other places past a length are 0"). The capacity is an argument: it stands once,
// in the table. A length has 8 bits: 64 fits, and an index is copied in every call.
#[derive(Clone, Copy)]
pub struct Index {
    pub heads: [u16; MAX_BUCKETS],
    pub lengths: [u8; MAX_BUCKETS],
    pub buckets: usize,
    pub next: [u16; MAX_CAPACITY],
    pub free: [u16; MAX_CAPACITY],
    pub free_len: usize,
}

impl Index {
    // An index of empty chains, with every slot on the stack.
    #[tactic(auto, unfolding(crate::specs::Fresh::new_index, crate::specs::Fresh::fresh_index, key::specs::Bucket::count_for))]
    pub fn try_new(capacity: usize) -> Result<Index, Refusal>
        ensures { answer result ≡ new_index capacity }
    {
        let buckets = key::bucket_count(capacity)?;
        Ok(Index {
            heads: basics::unset(buckets),
            lengths: [0; MAX_BUCKETS], // every chain is empty
            buckets,
            next: basics::unset(capacity),
            free: full_stack(capacity),
            free_len: capacity,
        })
    }

    // What a refused new table has.
    #[tactic(auto, unfolding(crate::specs::Fresh::no_index))]
    pub fn none() -> Index
        ensures { result ≡ no_index }
    {
        Index {
            heads: [0; MAX_BUCKETS],
            lengths: [0; MAX_BUCKETS],
            buckets: 0,
            next: [0; MAX_CAPACITY],
            free: [0; MAX_CAPACITY],
            free_len: 0,
        }
    }

    // The first test of each call: sizes that the arrays hold.
    #[tactic(auto, using(basics::proofs::Tests::tests), unfolding(crate::specs::Chain::sizes))]
    pub fn check_sized(&self, capacity: usize) -> Result<(), Refusal>
        ensures test { MatchResult result (λ _. sized capacity self.now ≡ true)
            (λ why. (why ≡ Refusal.Stop) × (sized capacity self.now ≡ false)) }
        ensures bounds { OnOk result (Sized capacity self.now.buckets self.now.free_len) }
    {
        if MAX_CAPACITY < capacity
            || self.buckets == 0
            || MAX_BUCKETS < self.buckets
            || capacity < self.free_len
        {
            return Err(Refusal::Stop);
        }
        Ok(())
    }

    // The top of the stack.
    #[tactic(auto, using(basics::proofs::Tests::tests), unfolding(crate::specs::Free::top_vacant))]
    pub fn vacant(&self, capacity: usize) -> Result<Option<usize>, Refusal>
        ensures top { found_answer result ≡ top_vacant capacity self.now }
        ensures bounds { OnOk result (Sized capacity self.now.buckets self.now.free_len) }
    {
        self.check_sized(capacity)?;
        Ok(self.free[..self.free_len].last().copied().map(usize::from))
    }

    // Takes the top of the stack, which must be this slot. The place given up becomes 0.
    #[tactic(auto, using(basics::proofs::Tests::tests), unfolding(crate::specs::Free::take_vacant, crate::specs::Free::top_vacant))]
    pub fn take_vacant(mut self, capacity: usize, slot: usize) -> Result<Index, Refusal>
        ensures { answer result ≡ take_vacant capacity self slot }
    {
        if self.vacant(capacity)? != Some(slot) {
            return Err(Refusal::Stop);
        }
        self.free_len -= 1;
        self.free[self.free_len] = 0;
        Ok(self)
    }

    // Puts a slot that links to nothing on the stack.
    #[tactic(auto, using(basics::proofs::Tests::tests), unfolding(crate::specs::Free::release_index, crate::specs::Chain::sizes))]
    pub fn release(mut self, capacity: usize, slot: usize) -> Result<Index, Refusal>
        ensures { answer result ≡ release_index capacity self slot }
    {
        self.check_sized(capacity)?;
        if capacity <= slot || self.next[slot] != NONE || self.free_len == capacity {
            return Err(Refusal::Stop);
        }
        self.free[self.free_len] = slot as u16;
        self.free_len += 1;
        Ok(self)
    }

    // The first slot of the key's chain, as it is stored: 65535 for none. An `Option` is no plainer: the walks, which are all that ask, test the number
    // against the capacity besides. A bucket past the heads, which an index of the right sizes does not have, gives 0.
    pub fn head(&self, key: CacheKey) -> usize
        ensures { result ≡ head_of self.now key }
    {
        self.heads
            .get(key.bucket(self.buckets))
            .copied()
            .map_or(0, usize::from)
    }

    // The length kept for the key's chain. A bucket past the lengths gives 0.
    pub fn length_of(&self, key: CacheKey) -> usize
        ensures { result ≡ length_of self.now key }
    {
        let bucket = key.bucket(self.buckets);
        self.lengths.get(bucket).copied().map_or(0, usize::from)
    }

    // The slot behind one in its chain, stored like a head. A slot past the places gives 0.
    pub fn next_in_chain(&self, slot: usize) -> usize
        ensures { result ≡ next_of self.now slot }
    {
        self.next.get(slot).copied().map_or(0, usize::from)
    }
}

// Every slot on the stack, 0 on top.
fn full_stack(capacity: usize) -> [u16; MAX_CAPACITY]
    requires { capacity ≤ 256 }
    ensures { result ≡ down capacity ++ replicate (256 - capacity) 0 }
{
    let mut free = [0; MAX_CAPACITY];
    for i in 0..capacity {
        free[i] = (capacity - 1 - i) as u16;
    }
    free
}
