// SPDX-FileCopyrightText: 2026 roolrz
// SPDX-License-Identifier: Apache-2.0
// Ported from src/fs/cache/maintenance.rs of HypeR-Proj/kernel at 53afd06a1d, changed; see NOTICE.

// maintenance.rs, what resize does before it remakes a table: the pins, and a new table with the pinned keys. These are parts of resize and not what a
// user calls, and require a capacity of at most 256, which resize has tested (crate state_remove says why no type holds that).
#![tactic(auto)]

pub mod pins;
pub mod restore;
