// SPDX-License-Identifier: Apache-2.0
// What every crate is written with: the number for no slot, why a call is refused, a counter, and the capacities that a table may have.
#![tactic(auto)]

ghost use Rattle.std.specs.Prelude.{◌≡◌, ◌≤◌, ◌-◌, ◌++◌, replicate};
ghost use Rattle.basics.specs.Answers.{number, done_answer};
ghost use Rattle.basics.specs.Capacity.{need_capacity};
ghost use Rattle.basics.specs.Numbers.{NONE, more};

// The Rust's `NONE`.
pub const NONE: u16 = 65535;

// `NONE` beside slots that are kept in a usize: a constant has one type, and cannot be generic.
pub const NO_SLOT: usize = 65535;

// The greatest number of 64 bits.
pub const MAX: u64 = u64::MAX;

// The same beside counts of slots, which are of the other type.
pub const MAX_COUNT: usize = usize::MAX;

// The most slots of a table.
pub const MAX_CAPACITY: usize = 256;

// Why a call is refused. `number` gives each its number: 1 to 5 from the input, 6 to 10 from the state, 11 and 12 from the gate,
// 13 from the keys of a batch.
#[derive(Clone, Copy, Debug, PartialEq, Eq)]
pub enum Refusal {
    InvalidCapacity,
    Allocation,
    Pins,
    List,
    Slot,
    StaleLoad,
    SequenceExhausted,
    Unclean,
    Ungiven,
    Stop,
    Full,
    Empty,
    Keys,
}

impl From<Refusal> for u8 {
    ghost from_gives = { λ why n. n ≡ number why };

    fn from(why: Refusal) -> u8 {
        match why {
            Refusal::InvalidCapacity => 1,
            Refusal::Allocation => 2,
            Refusal::Pins => 3,
            Refusal::List => 4,
            Refusal::Slot => 5,
            Refusal::StaleLoad => 6,
            Refusal::SequenceExhausted => 7,
            Refusal::Unclean => 8,
            Refusal::Ungiven => 9,
            Refusal::Stop => 10,
            Refusal::Full => 11,
            Refusal::Empty => 12,
            Refusal::Keys => 13,
        }
    }
}

// A slot number as it is stored, widened to an index.
pub fn wide(slot: u16) -> usize
    ensures { result ≡ slot }
{
    usize::from(slot)
}

// `NONE` in the first places of a list, and 0 in the others.
pub fn unset<const N: usize>(count: usize) -> [u16; N]
    requires { count ≤ N }
    ensures { result ≡ replicate count NONE ++ replicate (N - count) 0 }
{
    let mut places = [0; N];
    places[..count].fill(NONE);
    places
}

// A counter with one more, which stops at 2^64 − 1.
#[tactic(auto, using(crate::proofs::Tests::tests), unfolding(crate::specs::Numbers::more))]
pub fn one_more(count: u64) -> u64
    ensures { result ≡ more count }
{
    count.saturating_add(1)
}

// Whether a table can have this capacity: 1 for 0 and above 2^62, 2 for 257 to 2^62.
#[tactic(auto, using(crate::proofs::Tests::tests), unfolding(crate::specs::Capacity::need_capacity))]
pub fn check_capacity(capacity: usize) -> Result<(), Refusal>
    ensures { done_answer result ≡ need_capacity capacity }
{
    if capacity == 0 || 0x4000_0000_0000_0000 < capacity {
        return Err(Refusal::InvalidCapacity);
    }
    if MAX_CAPACITY < capacity {
        return Err(Refusal::Allocation);
    }
    Ok(())
}
