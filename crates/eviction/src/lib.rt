// SPDX-FileCopyrightText: 2026 roolrz
// SPDX-License-Identifier: Apache-2.0
// Ported from src/fs/cache/state/eviction.rs of HypeR-Proj/kernel at 53afd06a1d, changed; see NOTICE.

// state/eviction.rs: a heap of the clean slots, ordered by their last use, with the place of each slot: a new one, its reads and the victim
// search. Each function works on any value: where the Rust would stop, the answer is the refusal `Stop`.
#![tactic(auto)]

ghost use Rattle.std.specs.Prelude.{◌≡◌, true, false, MatchResult};
ghost use Rattle.basics.specs.Answers.{answer, found_answer};
ghost use Rattle.basics.specs.declared.Refusal.{Refusal};
ghost use Rattle.eviction.specs.Entries.{older, sized, no_heap, new_heap};
ghost use Rattle.eviction.specs.Victim.{candidate_at, oldest_of, victim_of};

use basics::{MAX_CAPACITY, Refusal};

// In the order of age: by the last use, then by the slot.
#[derive(Clone, Copy, Default, PartialEq, Eq, PartialOrd, Ord)]
pub struct Entry {
    pub last_access: u64,
    pub slot: u16,
}

// No arrayvec: the rules read the places past the length too ("other places past a length are 0"). The capacity is an argument: it stands once, in the table.
#[derive(Clone, Copy)]
pub struct EvictionHeap {
    pub entries: [Entry; MAX_CAPACITY],
    pub len: usize,
    pub positions: [u16; MAX_CAPACITY],
}

impl Entry {
    #[tactic(auto, using(basics::proofs::Tests::tests), unfolding(crate::specs::Entries::older))]
    pub fn older_than(self, other: Entry) -> bool
        ensures { result ≡ older self other }
    {
        self < other
    }
}

impl EvictionHeap {
    // Of a new table that is refused.
    #[tactic(auto, unfolding(crate::specs::Entries::no_heap))]
    pub fn none() -> EvictionHeap
        ensures { result ≡ no_heap }
    {
        EvictionHeap {
            entries: [Entry::default(); MAX_CAPACITY],
            len: 0,
            positions: [0; MAX_CAPACITY],
        }
    }

    #[tactic(auto, using(basics::proofs::Capacities::capacity_fits), unfolding(crate::specs::Entries::new_heap, crate::specs::Entries::no_heap, crate::specs::Entries::fresh_heap))]
    pub fn try_new(capacity: usize) -> Result<EvictionHeap, Refusal>
        ensures { answer result ≡ new_heap capacity }
    {
        basics::check_capacity(capacity)?;
        Ok(EvictionHeap {
            entries: [Entry::default(); MAX_CAPACITY],
            len: 0,
            positions: basics::unset(capacity),
        })
    }

    // The first test of each call: sizes that the arrays hold.
    #[tactic(auto, using(basics::proofs::Tests::tests), unfolding(crate::specs::Entries::sized))]
    pub fn check_sized(&self, capacity: usize) -> Result<(), Refusal>
        ensures { MatchResult result (λ _. sized capacity self.now ≡ true) (λ why. (why ≡ Refusal.Stop) × (sized capacity self.now ≡ false)) }
    {
        if MAX_CAPACITY < capacity || capacity < self.len {
            return Err(Refusal::Stop);
        }
        Ok(())
    }

    #[tactic(auto, unfolding(crate::specs::Victim::oldest_of))]
    pub fn oldest(&self, capacity: usize) -> Result<Option<usize>, Refusal>
        ensures { found_answer result ≡ oldest_of capacity self.now }
    {
        self.candidate(capacity, 0)
    }

    #[tactic(auto, using(basics::proofs::Tests::tests), unfolding(crate::specs::Victim::candidate_at, crate::specs::Entries::sized))]
    pub fn candidate(&self, capacity: usize, index: usize) -> Result<Option<usize>, Refusal>
        ensures { found_answer result ≡ candidate_at capacity self.now index }
    {
        self.check_sized(capacity)?;
        if self.len <= index {
            return Ok(None);
        }
        Ok(Some(usize::from(self.entries[index].slot)))
    }

    // The first unpinned slot among the first heap places: the victim search of access and of reclaim.
    #[tactic(auto, using(basics::proofs::Tests::tests, crate::proofs::Cases::victim_place, crate::proofs::Cases::victim_end, crate::proofs::Cases::taken), unfolding(crate::specs::Victim::victim_of, crate::specs::Entries::sized))]
    pub fn victim(
        &self,
        capacity: usize,
        places: usize,
        pins: &[u8],
    ) -> Result<Option<usize>, Refusal>
        ensures { found_answer result ≡ victim_of places capacity self.now pins.now }
    {
        self.check_sized(capacity)?;
        if pins.len() != capacity {
            return Err(Refusal::Pins);
        }
        for entry in &self.entries[..places.min(self.len)] {
            let slot = usize::from(entry.slot);
            if capacity <= slot {
                return Err(Refusal::Stop);
            }
            if pins[slot] == 0 {
                return Ok(Some(slot));
            }
        }
        Ok(None)
    }
}
