// SPDX-License-Identifier: Apache-2.0
// What bench/ times of the port: a run sheet through the calls, one after the other on one table in a local. Only the calls that are timed
// are taken, and no line is written. Four codes are added to a run sheet's: 10 is access through a gate, which stays as at first; 11 is one peek for
// 64 keys, that of the record and those behind it, as many pages apart as its number says; 12 is one peek for the record's key; 13 is what a resize to
// the record's number will cost.
// `as`: there is no `From` between u64 and usize, and `try_from` could fail.
#![tactic(auto)]

ghost use Rattle.std.specs.Prelude.{◌≡◌, ◌<◌};
ghost use Rattle.std.specs.List.{fold};
ghost use Rattle.basics.specs.Answers.{number, done_answer, found_answer};
ghost use Rattle.state.specs.Answers.{access_answer};
ghost use Rattle.maintenance_resize.specs.Answers.{size_answer};
ghost use Rattle.bench.specs.Sum.{plus, word_of, access_number, done_number, found_number, size_number};
ghost use Rattle.bench.specs.Reel.{reel};
ghost use Rattle.bench.specs.Run.{no_token, placed, checksum};

use basics::Refusal;
use batch::PEEK_BATCH;
use gate::Gate;
use key::CacheKey;
use maintenance_resize::Maintenance;
use state::{Access, LoadToken, State};

// A checksum that tells the order: the sum of the numbers, and the sum of those sums.
#[derive(Clone, Copy)]
struct Sum {
    first: u64,
    second: u64,
}

impl Sum {
    #[tactic(auto, unfolding(crate::specs::Sum::plus))]
    fn plus(self, number: u64) -> Sum
        ensures { result ≡ plus self number }
    {
        let first = self.first.wrapping_add(number);
        Sum {
            first,
            second: self.second.wrapping_add(first),
        }
    }

    // Each number of a list in turn.
    fn plus_all(self, numbers: &[u16]) -> Sum
        ensures { result ≡ fold plus self numbers.now }
    {
        let mut sum = self;
        for number in numbers {
            sum = sum.plus(u64::from(*number));
        }
        sum
    }
}

// A word of the answer and its number, as one number.
fn word(word: u64, number: usize) -> u64
    ensures { result ≡ word_of word number }
{
    word.wrapping_add(number as u64)
}

// The number of a refusal.
fn of_refusal(why: Refusal) -> u64
    ensures { result ≡ number why }
{
    u64::from(u8::from(why))
}

#[tactic(auto, unfolding(crate::specs::Sum::access_number))]
fn of_access(answer: Result<Access, Refusal>) -> u64
    ensures { result ≡ access_number (access_answer answer) }
{
    match answer {
        Ok(Access::Hit(slot)) => word(1000, slot),
        Ok(Access::LoadInProgress) => 2000,
        Ok(Access::Reserved(token)) => word(3000, usize::from(token.slot)),
        Ok(Access::Evicted(token)) => word(4000, usize::from(token.slot)),
        Ok(Access::CapacityBusy) => 5000,
        Err(why) => of_refusal(why),
    }
}

#[tactic(auto, unfolding(crate::specs::Sum::done_number))]
fn of_done(answer: Result<(), Refusal>) -> u64
    ensures { result ≡ done_number (done_answer answer) }
{
    match answer {
        Ok(()) => 6000,
        Err(why) => of_refusal(why),
    }
}

#[tactic(auto, unfolding(crate::specs::Sum::found_number))]
fn of_found(answer: Result<Option<usize>, Refusal>) -> u64
    ensures { result ≡ found_number (found_answer answer) }
{
    match answer {
        Ok(Some(slot)) => word(1000, slot),
        Ok(None) => 7000,
        Err(why) => of_refusal(why),
    }
}

#[tactic(auto, unfolding(crate::specs::Sum::size_number))]
fn of_maintenance(answer: Result<Maintenance, Refusal>) -> u64
    ensures { result ≡ size_number (size_answer answer) }
{
    match answer {
        Ok(Maintenance::Unchanged) => 8000,
        Ok(Maintenance::Busy) => 5000,
        Ok(Maintenance::Resized(capacity)) => word(9000, capacity),
        Err(why) => of_refusal(why),
    }
}

fn no_token() -> LoadToken
    ensures { result ≡ no_token }
{
    LoadToken::default()
}

// A reservation puts its token in the named place.
#[tactic(auto, unfolding(crate::specs::Run::placed))]
fn hold(tokens: &mut [LoadToken; 16], place: usize, answer: Result<Access, Refusal>)
    requires { place < 16 }
    ensures { tokens.new ≡ placed tokens.old place (access_answer answer) }
{
    if let Ok(Access::Reserved(token) | Access::Evicted(token)) = answer {
        tokens[place] = token;
    }
}

// The 64 keys from this one on, so many pages apart, in the lent array: one that is handed back would be copied.
fn reel(mut key: CacheKey, stride: u64, keys: &mut [CacheKey; PEEK_BATCH])
    ensures { keys.new ≡ reel 64 key stride }
{
    for place in 0..PEEK_BATCH {
        keys[place] = key;
        key.index = key.index.wrapping_add(stride);
    }
}

// The sheet's records, each read as three numbers of 8 bytes, low byte first. Answers with a checksum of all that the calls answered and of
// the counts at the end, which bench/ compares with the Rust's.
#[unsafe(no_mangle)]
pub extern "C" fn tallboycrow_bench(sheet: &[u64]) -> u64
    ensures { result ≡ checksum sheet.now }
{
    let mut t = State::try_new(1).state;
    let mut tokens = [no_token(); 16];
    let pins: [u8; 256] = [0; 256];
    let gate = Gate::new();
    let mut sum = Sum {
        first: 0,
        second: 0,
    };
    // A head's parts stand as its rule has them, by division: by `to_le_bytes` each part would need a law of the bytes.
    for record in sheet.chunks_exact(3) {
        let (head, file, index) = (record[0], record[1], record[2]);
        let place = (head / 16777216 % 16) as usize;
        let number = (head / 4294967296) as usize;
        let key = CacheKey {
            file,
            kind: (head / 65536 % 256) as u8,
            index,
        };
        let count = t.capacity.min(basics::MAX_CAPACITY);
        // The codes are document 01's numbers, and 10 to 13. A byte may be any: the last arm takes the rest.
        match head % 256 {
            1 => {
                let made = State::try_new(number);
                t = made.state;
                sum = sum.plus(of_done(made.answer));
            }
            2 => {
                let accessed = state_access::access(t, key, true, &pins[..count]);
                t = accessed.state;
                hold(&mut tokens, place, accessed.answer);
                sum = sum.plus(of_access(accessed.answer));
            }
            3 => {
                let published = state_tokens::publish(t, tokens[place]);
                t = published.state;
                sum = sum.plus(of_done(published.answer));
            }
            4 => {
                let aborted = state_tokens::abort(t, tokens[place]);
                t = aborted.state;
                sum = sum.plus(of_done(aborted.answer));
            }
            5 => {
                let looked = state_lookup::lookup(t, key);
                t = looked.state;
                sum = sum.plus(of_found(looked.answer));
            }
            8 => {
                let mut list = [basics::NONE; 256];
                let maintained = maintenance_resize::resize(
                    t,
                    number,
                    &pins[..count],
                    &mut list[..count],
                );
                t = maintained.state;
                sum = sum.plus(of_maintenance(maintained.answer));
            }
            10 => {
                let accessed = passage::access(t, gate, key, true, &pins[..count]);
                t = accessed.state;
                hold(&mut tokens, place, accessed.answer);
                sum = sum.plus(of_access(accessed.answer));
            }
            11 => {
                let mut keys = [key; PEEK_BATCH];
                reel(key, number as u64, &mut keys);
                let mut list = [basics::NONE; PEEK_BATCH];
                let peeked = batch::peek_batch(t, keys, PEEK_BATCH, &mut list);
                sum = sum
                    .plus(of_done(peeked.answer))
                    .plus(peeked.visited as u64)
                    .plus_all(&list);
            }
            12 => {
                sum = sum.plus(of_found(state_search::peek_clean(t, key)));
            }
            13 => {
                let cost = maintenance_resize::cost(t, number, &pins[..count]);
                sum = sum
                    .plus(of_maintenance(cost.answer))
                    .plus(cost.capacity as u64)
                    .plus(cost.drops as u64)
                    .plus(cost.restores as u64);
            }
            _ => {
                let batch = maintenance_reclaim::reclaim(t, number, &pins[..count]);
                t = batch.state;
                sum = sum.plus(word(10000, batch.count));
            }
        }
    }
    sum.plus(t.counters.hits)
        .plus(t.counters.misses)
        .plus(t.counters.evictions)
        .plus(t.clean as u64)
        .plus(t.loading as u64)
        .plus(t.next_access_sequence)
        .second
}
