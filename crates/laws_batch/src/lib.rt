// SPDX-License-Identifier: Apache-2.0
// Theorems on the batch of keys (document 02, request 5); no code stands here.
#![tactic(auto)]
