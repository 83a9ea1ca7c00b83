// SPDX-License-Identifier: Apache-2.0

// Theorems only: what stands between two records of a run sheet, that every record keeps it, and which refusals a record can therefore say.

#![tactic(auto)]
