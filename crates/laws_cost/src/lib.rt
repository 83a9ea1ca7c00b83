// SPDX-License-Identifier: Apache-2.0
// Theorems on what a resize will cost (document 02, request 6); no code stands here.
#![tactic(auto)]
