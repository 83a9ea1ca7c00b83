// SPDX-FileCopyrightText: 2026 roolrz
// SPDX-License-Identifier: Apache-2.0
// Ported from src/fs/cache/maintenance.rs and src/fs/cache/mod.rs of HypeR-Proj/kernel at 53afd06a1d, changed; see NOTICE.

// Access and resize through the gate of `maintain_capacity`. They work on any table and any gate; the calls without the gate stay beside them.
#![tactic(auto)]

ghost use Rattle.std.specs.Prelude.{◌≡◌, ◌<◌};
ghost use Rattle.basics.specs.Numbers.{MAX};
ghost use Rattle.state.specs.Answers.{accessed_after};
ghost use Rattle.maintenance_resize.specs.Answers.{size_answer};
ghost use Rattle.gate.specs.Gate.{marked};
ghost use Rattle.passage.specs.Access.{access_through};
ghost use Rattle.passage.specs.Resize.{passed_after, attempted as attempted_rule, attempt_rule, resize_through};

use basics::Refusal;
use gate::Gate;
use key::CacheKey;
use maintenance_resize::Maintenance;
use state::{Access, Outcome, State};

// What resize hands back, and the gate after it. The outcome stands first, as the table does in it.
#[derive(Clone, Copy)]
pub struct Passed {
    pub outcome: Outcome<Maintenance>,
    pub gate: Gate,
}

// Access through the gate, which it leaves as it was.
#[tactic(auto, unfolding(crate::specs::Access::access_through))]
pub fn access(t: State, gate: Gate, key: CacheKey, allow_load: bool, pins: &[u8]) -> Outcome<Access>
    ensures { accessed_after result ≡ access_through t gate key allow_load pins.now }
{
    state_access::access(t, key, gate.admits(allow_load), pins)
}

// The gate by the answer of an attempt.
#[tactic(auto, unfolding(crate::specs::Resize::attempted))]
fn attempted(gate: Gate, answer: Result<Maintenance, Refusal>) -> Gate
    requires { gate.generation < MAX }
    ensures { result ≡ attempted_rule gate (size_answer answer) }
{
    let counted = Gate {
        generation: gate.generation + 1,
        ..gate
    };
    match answer {
        Err(_) => gate,
        Ok(Maintenance::Busy) => counted,
        Ok(Maintenance::Unchanged | Maintenance::Resized(_)) => Gate {
            pending: false,
            ..counted
        },
    }
}

// An attempt: document 01's resize, and the gate by its answer.
#[tactic(auto, using(crate::proofs::Cases::attempt_is))]
fn attempt(t: State, gate: Gate, asked: usize, pins: &[u8], list: &mut [u16]) -> Passed
    requires { gate.generation < MAX }
    ensures { passed_after result list.new ≡ attempt_rule t gate asked pins.now list.old }
{
    let outcome = maintenance_resize::resize(t, asked, pins, list);
    Passed {
        outcome,
        gate: attempted(gate, outcome.answer),
    }
}

// The table stays, and the gate has this mark.
fn held(t: State, gate: Gate, pending: bool, answer: Result<Maintenance, Refusal>) -> Passed
    ensures { result ≡ record { outcome = record { state = t; answer = answer }; gate = marked pending gate } }
{
    Passed {
        outcome: Outcome { state: t, answer },
        gate: Gate { pending, ..gate },
    }
}

// The Rust's `maintain_capacity`.
#[tactic(auto, using(basics::proofs::Tests::tests), unfolding(crate::specs::Resize::resize_through, crate::specs::Resize::pass_steps, gate::specs::Gate::stops))]
pub fn resize(t: State, gate: Gate, asked: usize, pins: &[u8], list: &mut [u16]) -> Passed
    ensures { passed_after result list.new ≡ resize_through t gate asked pins.now list.old }
{
    if let Err(why) = maintenance_resize::check_input(&t, asked, pins.len(), list.len()) {
        return held(t, gate, gate.pending, Err(why));
    }
    if gate.pauses != 0 || gate.dirty != 0 {
        return held(t, gate, gate.pending, Ok(Maintenance::Busy));
    }
    if asked == t.capacity {
        return held(t, gate, false, Ok(Maintenance::Unchanged));
    }
    if 0 < t.loading {
        return held(t, gate, true, Ok(Maintenance::Busy));
    }
    if gate.generation == basics::MAX {
        return held(t, gate, false, Err(Refusal::SequenceExhausted));
    }
    attempt(t, gate, asked, pins, list)
}
