// SPDX-License-Identifier: Apache-2.0

// Theorems only: what resize and reclaim do to a valid table, slot by slot, and that neither stops.

#![tactic(auto)]
