// SPDX-FileCopyrightText: 2026 roolrz
// SPDX-License-Identifier: Apache-2.0
// Ported from src/fs/cache/key.rs of HypeR-Proj/kernel at 53afd06a1d, changed; see NOTICE.

// Document 01's key and its bucket, in place of the Rust's key.rs; and the bucket counts, which the Rust works out in index.rs.
#![tactic(auto)]

ghost use Rattle.std.specs.Prelude.{◌≡◌};
ghost use Rattle.key.specs.Key.{same_key};
ghost use Rattle.key.specs.Bucket.{rotated, bucket_of, count_for};
ghost use Rattle.basics.specs.Answers.{answer};

use basics::Refusal;

#[derive(Clone, Copy, Debug, Default, PartialEq, Eq)]
pub struct CacheKey {
    pub file: u64,
    pub kind: u8,
    pub index: u64,
}

impl CacheKey {
    // The Rust's `==`.
    #[tactic(auto, using(basics::proofs::Tests::tests, crate::proofs::Keys::all_three), unfolding(crate::specs::Key::same_key))]
    pub fn same(self, other: CacheKey) -> bool
        ensures { result ≡ same_key self other }
    {
        self == other
    }

    // File is rotated before it joins the sum, which wraps at 2^64. With no buckets there is no remainder, and the sum itself is the answer.
    // `as usize`: there is no `From` of u64, and `try_from` could fail.
    pub fn bucket(self, buckets: usize) -> usize
        ensures { result ≡ bucket_of self buckets }
    {
        let turned = rotate_left_5(self.file);
        let part = turned.wrapping_add(u64::from(self.kind));
        let sum = part.wrapping_add(self.index) as usize;
        if buckets == 0 {
            return sum;
        }
        sum % buckets
    }
}

// The Rust's `rotate_left(5)`, of two shifts and an or, as the project asks.
fn rotate_left_5(x: u64) -> u64
    ensures { result ≡ rotated x }
{
    (x << 5) | (x >> 59)
}

// The bucket count of a capacity, or why there is none, by leading zeros, as the project asks: a predecessor of n binary digits makes 2^(n + 1)
// buckets, and n is 64 less its leading zeros.
#[tactic(auto, unfolding(crate::specs::Bucket::count_for))]
pub fn bucket_count(capacity: usize) -> Result<usize, Refusal>
    ensures { answer result ≡ count_for capacity }
{
    basics::check_capacity(capacity)?;
    let predecessor = capacity - 1;
    Ok(1 << (65 - predecessor.leading_zeros()))
}
