// SPDX-FileCopyrightText: 2026 roolrz
// SPDX-License-Identifier: Apache-2.0
// Ported from src/fs/cache/state/mod.rs of HypeR-Proj/kernel at 53afd06a1d, changed; see NOTICE.

// state/mod.rs, lookup. It works on any table; a refusal hands the table back as it came.
#![tactic(auto)]

ghost use Rattle.std.specs.Prelude.{◌≡◌};
ghost use Rattle.state.specs.Answers.{looked_after};
ghost use Rattle.state.specs.Lookup.{lookup as lookup_rule};

use key::CacheKey;
use state::{Outcome, State};
use state_search::Seen;

#[tactic(auto, using(crate::proofs::Cases::lookup_seek), unfolding(state::specs::Lookup::found_seen))]
pub fn lookup(mut t: State, key: CacheKey) -> Outcome<Option<usize>>
    ensures { looked_after result ≡ lookup_rule t key }
{
    let seen = state_search::seek(&mut t, key);
    let answer = seen.map(|seen| match seen {
        Seen::Hit(slot) => Some(slot),
        Seen::Loading | Seen::Absent => None,
    });
    Outcome { state: t, answer }
}
