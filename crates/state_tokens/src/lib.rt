// SPDX-FileCopyrightText: 2026 roolrz
// SPDX-License-Identifier: Apache-2.0
// Ported from src/fs/cache/state/mod.rs of HypeR-Proj/kernel at 53afd06a1d, changed; see NOTICE.

// state/mod.rs, the calls that end a load: publish and abort. Both work on any table; a refusal hands the table back as it came.
#![tactic(auto)]

ghost use Rattle.std.specs.Prelude.{◌≡◌};
ghost use Rattle.state.specs.Answers.{finished_after};
ghost use Rattle.state.specs.Tokens.{publish as publish_rule, abort as abort_rule};

use basics::Refusal;
use state::{LoadToken, Outcome, Slot, State};

// The slot becomes clean with the token's use number.
#[tactic(auto, using(basics::proofs::Tests::tests), unfolding(state::specs::Tokens::publish))]
fn publish_in(t: &mut State, token: LoadToken) -> Result<(), Refusal>
    ensures { finished_after record { state = t.new; answer = result } ≡ publish_rule t.old token }
{
    t.check_sound()?;
    let slot = t.outstanding_slot(token)?;
    if t.next_access_sequence < token.access_sequence {
        return Err(Refusal::Ungiven);
    }
    let heap = eviction_sift::insert(t.eviction, t.capacity, slot, token.access_sequence)?;
    let left = t.loading.checked_sub(1).ok_or(Refusal::Stop)?;
    t.clean = t.clean.checked_add(1).ok_or(Refusal::Stop)?;
    t.loading = left;
    t.eviction = heap;
    t.slots[slot] = Slot {
        kind: state::CLEAN,
        key: token.key,
        generation: 0,
        last_access: token.access_sequence,
    };
    Ok(())
}

// The slot is free again.
#[tactic(auto, using(basics::proofs::Tests::tests), unfolding(state::specs::Tokens::abort))]
fn abort_in(t: &mut State, token: LoadToken) -> Result<(), Refusal>
    ensures { finished_after record { state = t.new; answer = result } ≡ abort_rule t.old token }
{
    t.check_sound()?;
    let slot = t.outstanding_slot(token)?;
    let index = index_chains::vacate(t.capacity, t.index, token.key, slot)?;
    let loading = t.loading.checked_sub(1).ok_or(Refusal::Stop)?;
    t.index = index;
    t.slots[slot] = state::vacant_slot();
    t.loading = loading;
    Ok(())
}

pub fn publish(mut t: State, token: LoadToken) -> Outcome<()>
    ensures { finished_after result ≡ publish_rule t token }
{
    let answer = publish_in(&mut t, token);
    Outcome { state: t, answer }
}

pub fn abort(mut t: State, token: LoadToken) -> Outcome<()>
    ensures { finished_after result ≡ abort_rule t token }
{
    let answer = abort_in(&mut t, token);
    Outcome { state: t, answer }
}
