// SPDX-License-Identifier: Apache-2.0

// Up to 64 keys answered in one peek: each bucket's chain is walked once, for all keys asked of it. It works on any table, and reads only.
#![tactic(auto)]

ghost use Rattle.std.specs.Prelude.{ℕ, ◌≡◌, ◌≤◌, ◌<◌, ◌-◌, ◌&&◌, true, false, ltb, eqb, get_or, length, take, IfOk, if◌then◌else◌};
ghost use Rattle.basics.specs.Answers.{answer};
ghost use Rattle.basics.specs.Numbers.{NONE as none_number};
ghost use Rattle.key.specs.Bucket.{bucket_of};
ghost use Rattle.index.specs.Chain.{CHAIN, head_of, length_of};
ghost use Rattle.batch.specs.Answers.{peeked_after};
ghost use Rattle.batch.specs.Batch.{holds, end_of_chain, visit_from, slot_from, visit_chains, slot_for, visits_of, peek_batch as peek_batch_rule};
ghost use Rattle.batch.specs.Parts.{marked, mark_at, Between, asked_at, still_sought, answered, visited_more};

use basics::{NO_SLOT, NONE, Refusal};
use index_chains::MAX_CHAIN;
use key::CacheKey;
use state::{CLEAN, LOADING, Slot, State};

// The most keys of one peek.
pub const PEEK_BATCH: usize = 64;

// What the peek hands back: how many slots it visited, 0 after a refusal.
#[derive(Clone, Copy)]
pub struct Peeked {
    pub visited: usize,
    pub answer: Result<(), Refusal>,
}

// Whether the slot holds the key, clean or loading.
#[tactic(auto, using(basics::proofs::Tests::tests), unfolding(crate::specs::Batch::holds, state::specs::Slots::occupied))]
fn holds(held: Slot, key: CacheKey) -> bool
    ensures { result ≡ holds held key }
{
    (held.kind == LOADING || held.kind == CLEAN) && held.key.same(key)
}

// At a slot, under its number: each key that is sought and that it holds is found, and answered. Only the places from `first` to `end` are looked at.
fn visit(
    held: Slot,
    number: u16,
    keys: &[CacheKey; PEEK_BATCH],
    first: usize,
    end: usize,
    sought: &mut [bool; PEEK_BATCH],
    slots: &mut [u16; PEEK_BATCH],
)
    requires end { end ≤ 64 }
    requires within { Between sought.old first end }
    ensures sought { (p : ℕ) → p < 64 → mark_at sought.new p ≡ still_sought held (mark_at sought.old p) (asked_at keys.now p) }
    ensures slots { (p : ℕ) → p < 64 → get_or slots.new p 0 ≡ answered held number (mark_at sought.old p) (asked_at keys.now p) (get_or slots.old p 0) }
{
    for place in first..end {
        if sought[place] && holds(held, keys[place]) {
            sought[place] = false;
            slots[place] = if held.kind == CLEAN { number } else { NONE };
        }
    }
}

// The key's chain ends behind so many slots, where the length kept for it is what was walked.
#[tactic(auto, using(state_search::proofs::Cases::walked_all))]
fn end_of_chain(t: &State, key: CacheKey, visited: usize) -> Result<usize, Refusal>
    requires { visited ≤ CHAIN }
    ensures { answer result ≡ visited_more visited (end_of_chain (length_of t.now.index key) (CHAIN - visited)) }
{
    if t.index.length_of(key) != visited {
        return Err(Refusal::Stop);
    }
    Ok(visited)
}

// The walk of a chain for the sought places, which stand from `first`, a key of the chain, to `end`: how many slots it visits.
fn walk(
    t: &State,
    keys: &[CacheKey; PEEK_BATCH],
    first: usize,
    end: usize,
    mut sought: [bool; PEEK_BATCH],
    slots: &mut [u16; PEEK_BATCH],
) -> Result<usize, Refusal>
    requires small { t.now.capacity ≤ 256 }
    requires inside { first < 64 }
    requires end { end ≤ 64 }
    requires within { Between sought first end }
    requires unanswered { (p : ℕ) → p < 64 → mark_at sought p ≡ true → get_or slots.old p 0 ≡ none_number }
    ensures visits { answer result ≡ visit_from CHAIN t.now (length_of t.now.index (asked_at keys.now first)) (marked sought keys.now)
        (head_of t.now.index (asked_at keys.now first)) }
    ensures bound { IfOk result (λ n. n ≤ CHAIN) }
    ensures slots { IfOk result (λ _. (p : ℕ) → p < 64 → get_or slots.new p 0
        ≡ (if mark_at sought p then slot_from CHAIN t.now (asked_at keys.now p) (head_of t.now.index (asked_at keys.now first)) else get_or slots.old p 0)) }
{
    let key = keys[first];
    let mut slot = t.index.head(key);
    let mut visited = 0;
    while sought.contains(&true) {
        if slot == NO_SLOT {
            return end_of_chain(t, key, visited);
        }
        if visited == MAX_CHAIN || t.capacity <= slot {
            return Err(Refusal::Stop);
        }
        visit(
            t.slots[slot],
            slot as u16,
            keys,
            first,
            end,
            &mut sought,
            slots,
        );
        slot = t.index.next_in_chain(slot);
        visited += 1;
    }
    Ok(visited)
}

// The bucket, of so many, of each of the first `count` keys, in the lent array: one that is handed back would be copied.
fn buckets_of(
    keys: &[CacheKey; PEEK_BATCH],
    count: usize,
    buckets: usize,
    bucket: &mut [usize; PEEK_BATCH],
)
    requires { count ≤ 64 }
    ensures { (p : ℕ) → p < count → get_or bucket.new p 0 ≡ bucket_of (asked_at keys.now p) buckets }
{
    for place in 0..count {
        bucket[place] = keys[place].bucket(buckets);
    }
}

// Marks the places, below the count, whose bucket is that of the key at `first`, the first of them, and says where the last of them ends.
#[tactic(auto, using(basics::proofs::Tests::tests))]
fn places_of(
    buckets: &[usize; PEEK_BATCH],
    first: usize,
    count: usize,
    sought: &mut [bool; PEEK_BATCH],
) -> usize
    requires count { (first < count) × (count ≤ 64) }
    requires first { (p : ℕ) → p < first → eqb (get_or buckets.now p 0) (get_or buckets.now first 0) ≡ false }
    requires none { (p : ℕ) → p < 64 → mark_at sought.old p ≡ false }
    ensures marks { (p : ℕ) → p < 64 → mark_at sought.new p ≡ (ltb p count && eqb (get_or buckets.now p 0) (get_or buckets.now first 0)) }
    ensures end { result ≤ 64 }
    ensures within { Between sought.new first result }
{
    let mut end = first;
    for place in first..count {
        if buckets[place] == buckets[first] {
            sought[place] = true;
            end = place + 1;
        }
    }
    end
}

// The walks, each at the first key of its bucket.
fn walks(
    t: &State,
    keys: &[CacheKey; PEEK_BATCH],
    count: usize,
    slots: &mut [u16; PEEK_BATCH],
) -> Result<usize, Refusal>
    requires count { count ≤ 64 }
    requires small { t.now.capacity ≤ 256 }
    requires some { 0 < t.now.index.buckets }
    requires unanswered { (p : ℕ) → p < 64 → get_or slots.old p 0 ≡ none_number }
    ensures visits { answer result ≡ visit_chains t.now (take count keys.now) }
    ensures slots { IfOk result (λ _. (p : ℕ) → p < count → get_or slots.new p 0 ≡ slot_for t.now (asked_at keys.now p)) }
{
    let mut buckets = [0; PEEK_BATCH];
    buckets_of(keys, count, t.index.buckets, &mut buckets);
    let mut visited = 0;
    for place in 0..count {
        let bucket = buckets[place];
        if !buckets[..place].contains(&bucket) {
            let mut sought = [false; PEEK_BATCH];
            let end = places_of(&buckets, place, count, &mut sought);
            visited += walk(t, keys, place, end, sought, slots)?;
        }
    }
    Ok(visited)
}

// The tests, with so many places lent, then the walks. A function of its own in the compiled program too: so table and keys are only read, and neither is
// copied, where `peek_batch` is put into its caller.
#[inline(never)]
#[tactic(auto, using(basics::proofs::Tests::tests, state::proofs::Cases::sound_sizes_lem), unfolding(crate::specs::Batch::visits_of))]
fn peek_tested(
    t: &State,
    keys: &[CacheKey; PEEK_BATCH],
    count: usize,
    places: usize,
    slots: &mut [u16; PEEK_BATCH],
) -> Result<usize, Refusal>
    requires { (p : ℕ) → p < 64 → get_or slots.old p 0 ≡ none_number }
    ensures visits { answer result ≡ visits_of t.now keys.now count places }
    ensures fits { IfOk result (λ _. (count ≤ 64) × (places ≡ count)) }
    ensures slots { IfOk result (λ _. (p : ℕ) → p < count → get_or slots.new p 0 ≡ slot_for t.now (asked_at keys.now p)) }
{
    t.check_sound()?;
    if PEEK_BATCH < count || places != count {
        return Err(Refusal::Keys);
    }
    walks(t, keys, count, slots)
}

// For each of the first `count` keys, in order, the clean slot or 65535, in the lent list. A refusal leaves the list as it was.
#[inline]
#[tactic(auto, unfolding(crate::specs::Batch::peek_batch))]
pub fn peek_batch(t: State, keys: [CacheKey; PEEK_BATCH], count: usize, list: &mut [u16]) -> Peeked
    ensures { peeked_after list.new result ≡ peek_batch_rule t keys count list.old }
{
    let mut slots = [NONE; PEEK_BATCH];
    match peek_tested(&t, &keys, count, list.len(), &mut slots) {
        Ok(visited) => {
            list.copy_from_slice(&slots[..count]);
            Peeked {
                visited,
                answer: Ok(()),
            }
        }
        Err(why) => Peeked {
            visited: 0,
            answer: Err(why),
        },
    }
}
