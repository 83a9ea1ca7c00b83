// SPDX-FileCopyrightText: 2026 roolrz
// SPDX-License-Identifier: Apache-2.0
// Ported from src/fs/cache/state/mod.rs of HypeR-Proj/kernel at 53afd06a1d, changed; see NOTICE.

// state/mod.rs, the choice of the slot that an absent key is loaded into: the top of the free stack, else a victim. Every function works on any
// table, heap and pin bytes.
#![tactic(auto)]

ghost use Rattle.std.specs.Prelude.{◌≡◌};
ghost use Rattle.basics.specs.Answers.{found_answer};
ghost use Rattle.state.specs.Access.{choose as choose_rule};
ghost use Rattle.state.specs.Victim.{victim as victim_rule, target as target_rule};

use basics::Refusal;
use key::CacheKey;
use state::State;

// The heap places that the victim search looks at.
pub const PLACES: usize = 64;

// The first unpinned slot among the first min(clean, 64) heap places.
#[tactic(auto, unfolding(state::specs::Victim::victim))]
pub fn victim(t: &State, pins: &[u8]) -> Result<Option<usize>, Refusal>
    ensures { found_answer result ≡ victim_rule t.now.capacity t.now.eviction t.now.clean pins.now }
{
    t.eviction.victim(t.capacity, t.clean.min(PLACES), pins)
}

// The top of the free stack, else a victim.
#[tactic(auto, unfolding(state::specs::Victim::target, state::specs::Victim::target_or))]
fn target(t: &State, pins: &[u8]) -> Result<Option<usize>, Refusal>
    ensures { found_answer result ≡ target_rule t.now.capacity t.now.index t.now.eviction t.now.clean pins.now }
{
    match t.index.vacant(t.capacity)? {
        None => victim(t, pins),
        top => Ok(top),
    }
}

// The slot to load an absent key into, or none where the answer is CapacityBusy.
#[tactic(auto, unfolding(state::specs::Access::choose))]
pub fn choose(
    t: &State,
    key: CacheKey,
    allow_load: bool,
    pins: &[u8],
) -> Result<Option<usize>, Refusal>
    ensures { found_answer result ≡ choose_rule t.now.capacity t.now.index t.now.eviction t.now.clean key allow_load pins.now }
{
    if !allow_load || !index_chains::can_insert(&t.index, t.capacity, key)? {
        return Ok(None);
    }
    target(t, pins)
}
