// SPDX-License-Identifier: Apache-2.0

// What stands between two records of a run sheet.
#![tactic(auto)]

ghost use Rattle.std.specs.Prelude.{◌≡◌};
ghost use Rattle.sheet_standing.specs.Standing.{start as start_rule, afresh as afresh_rule};

use state::{LoadToken, State};

// What stands between two records: the table, the token places, a pin byte for each slot, and whether there was a table made.
// `stands` is a flag beside the table, which is no `Option`, since every step works on the table by value, and a table taken out of
// an `Option` and put back would be copied twice more. The trace also shows the table of no slots that stands before the first is made.
// `places` and `pins` are not parallel: the one goes by token place, the other by slot, and the calls are lent the pins as a list.
#[derive(Clone, Copy)]
pub struct Standing {
    pub state: State,
    pub places: [Option<LoadToken>; 16],
    pub pins: [u8; 256],
    pub stands: bool,
}

// A new table, with no token and no pin.
#[tactic(auto, unfolding(crate::specs::Standing::afresh, crate::specs::Standing::empty_places, crate::specs::Standing::no_pins))]
pub fn afresh(t: State) -> Standing
    ensures { result ≡ afresh_rule t }
{
    Standing {
        state: t,
        places: [None; 16],
        pins: [0; 256],
        stands: true,
    }
}

// Before the first record.
#[tactic(auto, unfolding(crate::specs::Standing::start, crate::specs::Standing::afresh, state::specs::Fresh::new, basics::specs::Capacity::need_capacity))]
pub fn start() -> Standing
    ensures { result ≡ start_rule }
{
    Standing {
        stands: false,
        ..afresh(State::try_new(0).state)
    }
}
