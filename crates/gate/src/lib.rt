// SPDX-FileCopyrightText: 2026 roolrz
// SPDX-License-Identifier: Apache-2.0
// Ported from src/fs/cache/maintenance.rs, src/fs/cache/mod.rs and src/fs/cache/write.rs of HypeR-Proj/kernel at 53afd06a1d, changed; see NOTICE.

// The gate of `maintain_capacity`: pauses, dirty pages, the pending mark and the generation. It is a value of its own beside the table; access and
// resize go through it in crate `passage`. Every function works on any gate; a refusal leaves the gate as it was.
#![tactic(auto)]

ghost use Rattle.std.specs.Prelude.{◌≡◌};
ghost use Rattle.basics.specs.Answers.{answer};
ghost use Rattle.gate.specs.Gate.{at_first, one_more, one_less, admits as admits_rule, begin_pause, end_pause, begin_dirty, end_dirty};

use basics::Refusal;

#[derive(Clone, Copy, Default)]
pub struct Gate {
    pub pauses: u64,
    pub dirty: u64,
    pub pending: bool,
    pub generation: u64,
}

#[tactic(auto, using(basics::proofs::Tests::tests), unfolding(crate::specs::Gate::one_more))]
fn raised(count: u64) -> Result<u64, Refusal>
    ensures { answer result ≡ one_more count }
{
    count.checked_add(1).ok_or(Refusal::Full)
}

#[tactic(auto, using(basics::proofs::Tests::tests), unfolding(crate::specs::Gate::one_less))]
fn lowered(count: u64) -> Result<u64, Refusal>
    ensures { answer result ≡ one_less count }
{
    count.checked_sub(1).ok_or(Refusal::Empty)
}

impl Gate {
    // No pause, no dirty page, no mark.
    #[tactic(auto, unfolding(crate::specs::Gate::at_first))]
    pub fn new() -> Gate
        ensures { result ≡ at_first }
    {
        Gate::default()
    }

    // Four turns: they are the Rust's and document 02's calls, and each has a field of its own.
    // The Rust's `pause_admission`.
    #[tactic(auto, unfolding(crate::specs::Gate::begin_pause))]
    pub fn begin_pause(self) -> Result<Gate, Refusal>
        ensures { answer result ≡ begin_pause self }
    {
        Ok(Gate {
            pauses: raised(self.pauses)?,
            ..self
        })
    }

    // The Rust's drop of an `AdmissionPause`.
    #[tactic(auto, unfolding(crate::specs::Gate::end_pause))]
    pub fn end_pause(self) -> Result<Gate, Refusal>
        ensures { answer result ≡ end_pause self }
    {
        Ok(Gate {
            pauses: lowered(self.pauses)?,
            ..self
        })
    }

    #[tactic(auto, unfolding(crate::specs::Gate::begin_dirty))]
    pub fn begin_dirty(self) -> Result<Gate, Refusal>
        ensures { answer result ≡ begin_dirty self }
    {
        Ok(Gate {
            dirty: raised(self.dirty)?,
            ..self
        })
    }

    #[tactic(auto, unfolding(crate::specs::Gate::end_dirty))]
    pub fn end_dirty(self) -> Result<Gate, Refusal>
        ensures { answer result ≡ end_dirty self }
    {
        Ok(Gate {
            dirty: lowered(self.dirty)?,
            ..self
        })
    }

    // Whether an access may load.
    #[tactic(auto, unfolding(crate::specs::Gate::admits))]
    pub fn admits(self, allow_load: bool) -> bool
        ensures { result ≡ admits_rule self allow_load }
    {
        allow_load && self.pauses == 0 && !self.pending
    }
}
