// SPDX-License-Identifier: Apache-2.0
// Theorems only: what document 02 says of the gate, of every table and every gate.

#![tactic(auto)]
