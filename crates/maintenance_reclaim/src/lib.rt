// SPDX-FileCopyrightText: 2026 roolrz
// SPDX-License-Identifier: Apache-2.0
// Ported from src/fs/cache/maintenance.rs of HypeR-Proj/kernel at 53afd06a1d, changed; see NOTICE.

// maintenance.rs, reclaim (`reclaim_batch`). It works on any table; a refusal hands back the table as it came. The `as u16` is proved to lose
// nothing; `try_from` could fail.
#![tactic(auto)]

ghost use Rattle.std.specs.Prelude.{◌≡◌, ◌≤◌};
ghost use Rattle.maintenance_reclaim.specs.Answers.{batch_after};
ghost use Rattle.maintenance_reclaim.specs.Parts.{removed_answer, taken};
ghost use Rattle.maintenance_reclaim.specs.Reclaim.{no_slots, reclaim_from, unless_refused as unless_stopped, reclaim as reclaim_rule};

use basics::Refusal;
use state::State;

// The most slots that one reclaim removes.
pub const RECLAIM_BATCH: usize = 64;

// What reclaim hands back, in fixed memory: the slots removed in order, then 65535, and how many they are. No `Result` holds them: document 01 says what
// they are after a refusal too, 65535 throughout and count 0.
#[derive(Clone, Copy)]
pub struct Batch {
    pub state: State,
    pub slots: [u16; RECLAIM_BATCH],
    pub count: usize,
    pub answer: Result<(), Refusal>,
}

// So many rounds: a victim is looked for afresh and removed. The answer is how many slots were; a refusal leaves the earlier removals.
#[tactic(auto, using(crate::proofs::Reclaims::round_step, crate::proofs::Reclaims::rounds_end, eviction::proofs::Cases::victim_below), unfolding(state::specs::Victim::victim))]
fn reclaim_rounds(
    t: &mut State,
    slots: &mut [u16; RECLAIM_BATCH],
    rounds: usize,
    pins: &[u8],
) -> Result<usize, Refusal>
    requires { rounds ≤ 64 }
    ensures { removed_answer t.new slots.new result ≡ reclaim_from rounds pins.now (taken t.old 0 slots.old) }
{
    for count in 0..rounds {
        let Some(slot) = state_choice::victim(t, pins)? else {
            return Ok(count);
        };
        state_remove::remove(t, slot)?;
        slots[count] = slot as u16;
    }
    Ok(rounds)
}

// The tests, then the rounds.
#[tactic(auto, unfolding(crate::specs::Reclaim::reclaim))]
fn reclaim_tested(
    t: &mut State,
    slots: &mut [u16; RECLAIM_BATCH],
    limit: usize,
    pins: &[u8],
) -> Result<usize, Refusal>
    requires { slots.old ≡ no_slots }
    ensures { unless_stopped t.old (removed_answer t.new slots.new result) ≡ reclaim_rule t.old limit pins.now }
{
    t.check_sound()?;
    if pins.len() != t.capacity {
        return Err(Refusal::Pins);
    }
    reclaim_rounds(t, slots, limit.min(RECLAIM_BATCH), pins)
}

// The Rust's `reclaim_batch`. A refusal in a later round gives up the earlier removals too: it hands back the table that came.
pub fn reclaim(t: State, limit: usize, pins: &[u8]) -> Batch
    ensures { batch_after result ≡ reclaim_rule t limit pins.now }
{
    let mut state = t;
    let mut slots = [basics::NONE; RECLAIM_BATCH];
    match reclaim_tested(&mut state, &mut slots, limit, pins) {
        Ok(count) => Batch {
            state,
            slots,
            count,
            answer: Ok(()),
        },
        Err(why) => Batch {
            state: t,
            slots: [basics::NONE; RECLAIM_BATCH],
            count: 0,
            answer: Err(why),
        },
    }
}
