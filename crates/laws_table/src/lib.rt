// SPDX-License-Identifier: Apache-2.0

// Theorems only: the invariants of the eviction heap and of the index, which the Rust's `assert_valid` tests, and that of the table over them;
// that the rules keep them, and that under them no call stops.

#![tactic(auto)]
