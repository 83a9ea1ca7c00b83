// SPDX-FileCopyrightText: 2026 roolrz
// SPDX-License-Identifier: Apache-2.0
// Ported from src/fs/cache/maintenance.rs of HypeR-Proj/kernel at 53afd06a1d, changed; see NOTICE.

// maintenance.rs, what the pins of a resize say: how many there are, what capacity they need, and whether each is on a clean slot.
ghost use Rattle.std.specs.Prelude.{◌≡◌, ◌≤◌, length};
ghost use Rattle.maintenance_restore.specs.Pins.{pin_count, pins_clean, raised as raised_to};

use state::State;

// How many slots are pinned.
#[tactic(auto, using(crate::proofs::Cases::pinned))]
fn pin_count(pins: &[u8]) -> usize
    ensures value { result ≡ pin_count pins.now }
    ensures upper_bound { result ≤ length pins.now }
{
    pins.iter().filter(|p| **p != 0).count()
}

// The asked capacity, raised to what the pinned slots need.
#[tactic(auto, using(crate::proofs::Cases::next_power, crate::proofs::Cases::next_small), unfolding(crate::specs::Pins::raised))]
pub fn raised(asked: usize, pins: &[u8]) -> usize
    requires { (asked ≤ 256) × (length pins.now ≤ 256) }
    ensures value { result ≡ raised_to asked pins.now }
    ensures lower_bound { (asked ≤ result) × (result ≤ 256) }
{
    asked.max(pin_count(pins).next_power_of_two())
}

// Whether every pinned slot is clean.
pub fn pins_clean(t: &State, pins: &[u8]) -> bool
    requires { (t.now.capacity ≤ 256) × (length pins.now ≡ t.now.capacity) }
    ensures { result ≡ pins_clean t.now.capacity t.now pins.now 0 }
{
    t.slots
        .iter()
        .zip(pins)
        .all(|(entry, p)| *p == 0 || entry.kind == state::CLEAN)
}
