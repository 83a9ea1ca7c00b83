// SPDX-License-Identifier: Apache-2.0
// Theorems only: demand 3 under the gate.

#![tactic(auto)]
