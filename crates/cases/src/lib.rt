// SPDX-License-Identifier: Apache-2.0
// What the programs over made-up tables share: cases are read, the calls that each of them makes alike are run, and answers are written.
// oracle/README.md has the forms. `as usize`, `as u16`: there is no `From` of u64 or usize for these, and `try_from` could fail.
#![tactic(auto)]

ghost use Rattle.std.specs.Prelude.{◌≡◌, ◌+◌, ◌≤◌, min, length, MatchResult};
ghost use Rattle.cases.specs.Places.{Within};
ghost use Rattle.cases.specs.Bytes.{FAR as farthest, byte_at, low, numbers_at, key_at, call_at};
ghost use Rattle.picture_numbers.specs.Wrote.{SameList};
ghost use Rattle.picture.specs.Table.{count_numbers};

use basics::Refusal;
use eviction::{Entry, EvictionHeap};
use index::Index;
use key::CacheKey;
use maintenance_resize::Maintenance;
use picture_numbers::Page;
use state::{Access, CleanEntry, Counters, LoadToken, Outcome, Slot, State};
use streams::Failed;

// A call without the table that it is made on and without its pin bytes, whose number is `pins`.
#[derive(Clone, Copy)]
pub struct Call {
    pub code: u8,
    pub allow: bool,
    pub pins: usize,
    pub list: usize,
    pub number: usize,
    pub token: LoadToken,
}

// A table, and the place behind its bytes.
#[derive(Clone, Copy)]
pub struct Table {
    pub state: State,
    pub end: usize,
}

// The bytes from `at` to `have` wait.
#[derive(Clone, Copy)]
pub struct Waiting {
    pub at: usize,
    pub have: usize,
}

// The bytes of a call.
pub const CALL: usize = 47;

// A page is written out before this many bytes stand in it. A case's text is shorter than the rest of it.
pub const FULL: usize = 131072;

// Past the end of any bytes that are read here.
const FAR: usize = 1048576;

// More is read before fewer bytes than this are left: no case is longer.
const LONGEST: usize = 98304;

// ---- Numbers, low byte first. Past the end there are zeros. The bytes and a place in them stay two: `byte_at`, `low_8`, `read_key`, `read_call` and
// `read_table` are public over both.

// A place some bytes on.
pub fn over(at: usize, bytes: usize) -> usize
    ensures upper_bound { result ≤ 1048576 }
    ensures value { result ≡ min (at + bytes) farthest }
{
    at.saturating_add(bytes).min(FAR)
}

pub fn byte_at(bytes: &[u8], at: usize) -> u8
    ensures { result ≡ byte_at bytes.now at }
{
    bytes.get(at).copied().unwrap_or(0)
}

#[tactic(auto, using(crate::proofs::Numbers::low_two))]
fn low_2(bytes: &[u8], at: usize) -> u16
    ensures { result ≡ low 2 bytes.now at }
{
    u16::from_le_bytes([byte_at(bytes, at), byte_at(bytes, over(at, 1))])
}

// Each byte by itself. Tried: `bytes_at<const N: usize>` by `std::array::from_fn`; its proof did not close, since what from_fn ensures of a byte does not name
// the closure's captures.
#[tactic(auto, using(crate::proofs::Numbers::low_eight))]
pub fn low_8(bytes: &[u8], at: usize) -> u64
    ensures { result ≡ low 8 bytes.now at }
{
    u64::from_le_bytes([
        byte_at(bytes, at),
        byte_at(bytes, over(at, 1)),
        byte_at(bytes, over(at, 2)),
        byte_at(bytes, over(at, 3)),
        byte_at(bytes, over(at, 4)),
        byte_at(bytes, over(at, 5)),
        byte_at(bytes, over(at, 6)),
        byte_at(bytes, over(at, 7)),
    ])
}

pub fn read_key(bytes: &[u8], at: usize) -> CacheKey
    ensures { result ≡ key_at bytes.now at }
{
    CacheKey {
        file: low_8(bytes, at),
        kind: byte_at(bytes, over(at, 8)),
        index: low_8(bytes, over(at, 9)),
    }
}

// What the lists of a table are made of: how many bytes one has in a case, and what is seen behind those that a case tells.
trait Listed: Copy {
    const BYTES: usize;

    const BEHIND: Self;

    fn read(bytes: &[u8], at: usize) -> Self;
}

impl Listed for u8 {
    const BYTES: usize = 1;

    const BEHIND: u8 = 7;

    fn read(bytes: &[u8], at: usize) -> u8 {
        byte_at(bytes, at)
    }
}

impl Listed for u16 {
    const BYTES: usize = 2;

    const BEHIND: u16 = 7;

    fn read(bytes: &[u8], at: usize) -> u16 {
        low_2(bytes, at)
    }
}

impl Listed for Entry {
    const BYTES: usize = 10;

    const BEHIND: Entry = Entry {
        slot: 7,
        last_access: 7,
    };

    fn read(bytes: &[u8], at: usize) -> Entry {
        Entry {
            slot: low_2(bytes, at),
            last_access: low_8(bytes, over(at, 2)),
        }
    }
}

impl Listed for Slot {
    const BYTES: usize = 34;

    const BEHIND: Slot = Slot {
        kind: 7,
        key: CacheKey {
            file: 7,
            kind: 7,
            index: 7,
        },
        generation: 7,
        last_access: 7,
    };

    fn read(bytes: &[u8], at: usize) -> Slot {
        Slot {
            kind: byte_at(bytes, at),
            key: read_key(bytes, over(at, 1)),
            generation: low_8(bytes, over(at, 18)),
            last_access: low_8(bytes, over(at, 26)),
        }
    }
}

// The first places of a list, as many as are counted, and the place behind them. A case does not tell what stands past them: the first place there and the
// last are marked, so that it is seen whether they stay.
fn read_list<T: Listed>(bytes: &[u8], from: usize, list: &mut [T], count: usize) -> usize
    ensures { result ≤ farthest }
{
    let mut at = over(from, 0);
    let places = count.min(list.len());
    for place in &mut list[..places] {
        *place = T::read(bytes, at);
        at = over(at, T::BYTES);
    }
    let behind = &mut list[places..];
    if let Some(first) = behind.first_mut() {
        *first = T::BEHIND;
    }
    if let Some(last) = behind.last_mut() {
        *last = T::BEHIND;
    }
    at
}

pub fn read_table(bytes: &[u8], at: usize) -> Table
    ensures end_le_farthest { result.end ≤ farthest }
    ensures state_value { count_numbers result.state ≡ numbers_at 10 bytes.now at }
{
    let capacity = low_8(bytes, at) as usize;
    let counters = Counters {
        hits: low_8(bytes, over(at, 24)),
        misses: low_8(bytes, over(at, 32)),
        evictions: low_8(bytes, over(at, 40)),
        in_progress: low_8(bytes, over(at, 48)),
        capacity_busy: low_8(bytes, over(at, 56)),
    };
    let mut slots = [state::vacant_slot(); 256];
    let mut index = Index::none();
    let mut eviction = EvictionHeap::none();
    let a = read_list(bytes, over(at, 80), &mut slots, capacity);
    let buckets = low_8(bytes, a) as usize;
    index.buckets = buckets;
    let b = read_list(bytes, over(a, 8), &mut index.heads, buckets);
    let c = read_list(bytes, b, &mut index.lengths, buckets);
    let d = read_list(bytes, c, &mut index.next, capacity);
    let free_len = low_8(bytes, d) as usize;
    index.free_len = free_len;
    let e = read_list(bytes, over(d, 8), &mut index.free, free_len);
    let heap_len = low_8(bytes, e) as usize;
    eviction.len = heap_len;
    let f = read_list(bytes, over(e, 8), &mut eviction.entries, heap_len);
    let end = read_list(bytes, f, &mut eviction.positions, capacity);
    let state = State {
        slots,
        capacity,
        index,
        eviction,
        next_load_generation: low_8(bytes, over(at, 64)),
        next_access_sequence: low_8(bytes, over(at, 72)),
        counters,
        clean: low_8(bytes, over(at, 8)) as usize,
        loading: low_8(bytes, over(at, 16)) as usize,
    };
    Table { state, end }
}

// A call: code, allow, number of pin bytes, length of the list that is lent to resize, number, key, generation and use number. The number is the token's slot
// too, or no slot where it is above that.
#[tactic(auto, unfolding(crate::specs::Bytes::call_at))]
pub fn read_call(bytes: &[u8], at: usize) -> Call
    ensures { result ≡ call_at bytes.now at }
{
    let number = low_8(bytes, over(at, 6)) as usize;
    let key = read_key(bytes, over(at, 14));
    let token = LoadToken {
        slot: number.min(basics::NO_SLOT) as u16,
        generation: low_8(bytes, over(at, 31)),
        key,
        access_sequence: low_8(bytes, over(at, 39)),
    };
    Call {
        code: byte_at(bytes, at),
        allow: byte_at(bytes, over(at, 1)) != 0,
        pins: usize::from(low_2(bytes, over(at, 2))),
        list: usize::from(low_2(bytes, over(at, 4))),
        number,
        token,
    }
}

// ---- Answers: the word, its number, how many more numbers there are, and these.

// A word and a number.
pub fn put_numbered(page: &mut Page, word: &[u8], number: usize, more: usize)
    ensures { Within page.old page.new }
{
    page.put_text(b" ");
    page.put_text(word);
    page.put(number);
    page.put(more);
}

// A word that has none.
fn put_word(page: &mut Page, word: &[u8], more: usize)
    ensures { Within page.old page.new }
{
    page.put_text(b" ");
    page.put_text(word);
    page.put_text(b" -");
    page.put(more);
}

// `why` stays the number of a refusal, and below it is whatever tells one: a `Refusal` would be a narrower argument of a public function.
pub fn put_refused(page: &mut Page, why: u8, more: usize)
    ensures { Within page.old page.new }
{
    put_numbered(page, b"refused", usize::from(why), more);
}

pub fn put_done<W: Into<u8>>(page: &mut Page, answer: Result<(), W>)
    ensures { Within page.old page.new }
{
    match answer {
        Ok(()) => put_word(page, b"done", 0),
        Err(why) => put_refused(page, why.into(), 0),
    }
}

fn put_found(page: &mut Page, answer: Result<Option<usize>, Refusal>, word: &[u8])
    ensures { Within page.old page.new }
{
    match answer {
        Ok(Some(slot)) => put_numbered(page, word, slot, 0),
        Ok(None) => put_word(page, b"none", 0),
        Err(why) => put_refused(page, u8::from(why), 0),
    }
}

fn put_key(page: &mut Page, key: CacheKey)
    ensures { Within page.old page.new }
{
    page.put(key.file);
    page.put(key.kind);
    page.put(key.index);
}

fn put_entry(page: &mut Page, slot: usize, answer: Result<Option<CleanEntry>, Refusal>)
    ensures { Within page.old page.new }
{
    match answer {
        Ok(Some(entry)) => {
            put_numbered(page, b"found", slot, 4);
            put_key(page, entry.key);
            page.put(entry.last_access);
        }
        Ok(None) => put_word(page, b"none", 0),
        Err(why) => put_refused(page, u8::from(why), 0),
    }
}

// A reservation's token.
fn put_token(page: &mut Page, word: &[u8], token: LoadToken)
    ensures { Within page.old page.new }
{
    put_numbered(page, word, usize::from(token.slot), 6);
    page.put(token.slot);
    page.put(token.generation);
    put_key(page, token.key);
    page.put(token.access_sequence);
}

pub fn put_access<W: Into<u8>>(page: &mut Page, answer: Result<Access, W>)
    ensures { Within page.old page.new }
{
    match answer {
        Ok(Access::Hit(slot)) => put_numbered(page, b"hit", slot, 0),
        Ok(Access::LoadInProgress) => put_word(page, b"loading", 0),
        Ok(Access::Reserved(token)) => put_token(page, b"reserved", token),
        Ok(Access::Evicted(token)) => put_token(page, b"evicted", token),
        Ok(Access::CapacityBusy) => put_word(page, b"busy", 0),
        Err(why) => put_refused(page, why.into(), 0),
    }
}

// The answer of resize; `places` is how many more numbers follow.
pub fn put_maintenance<W: Into<u8>>(page: &mut Page, answer: Result<Maintenance, W>, places: usize)
    ensures { Within page.old page.new }
{
    match answer {
        Ok(Maintenance::Unchanged) => put_word(page, b"unchanged", places),
        Ok(Maintenance::Busy) => put_word(page, b"busy", places),
        Ok(Maintenance::Resized(capacity)) => put_numbered(page, b"resized", capacity, places),
        Err(why) => put_refused(page, why.into(), places),
    }
}

// resize: the answer, and the list after the call, which is lent as long as asked.
pub fn put_resized<W: Into<u8>>(
    page: &mut Page,
    answer: Result<Maintenance, W>,
    list: &[u16],
    places: usize,
)
    ensures { Within page.old page.new }
{
    put_maintenance(page, answer, places);
    picture::put_words(page, list, places);
}

fn put_reclaimed(page: &mut Page, answer: Result<(), Refusal>, count: usize)
    ensures { Within page.old page.new }
{
    match answer {
        Ok(()) => put_numbered(page, b"reclaimed", count, 64),
        Err(why) => put_refused(page, u8::from(why), 64),
    }
}

// ---- Calls

// reclaim: the answer, and the 64 slots.
fn run_reclaim(page: &mut Page, t: State, limit: usize, pins: &[u8]) -> State
    ensures { Within page.old page.new }
{
    let batch = maintenance_reclaim::reclaim(t, limit, pins);
    put_reclaimed(page, batch.answer, batch.count);
    picture::put_words(page, &batch.slots, 64);
    batch.state
}

fn run_lookup(page: &mut Page, t: State, key: CacheKey) -> State
    ensures { Within page.old page.new }
{
    let Outcome { state, answer } = state_lookup::lookup(t, key);
    put_found(page, answer, b"hit");
    state
}

// publish, abort, remove and detach.
fn run_finished(page: &mut Page, t: State, call: Call) -> State
    ensures { Within page.old page.new }
{
    // No enum: the codes are those of oracle/README.md's forms, a byte may be any, and the last arm takes the rest.
    let Outcome { state, answer } = match call.code {
        3 => state_tokens::publish(t, call.token),
        4 => state_tokens::abort(t, call.token),
        6 => state_remove::remove_clean(t, call.number),
        _ => state_remove::detach_clean(t, call.number),
    };
    put_done(page, answer);
    state
}

// The reads: the table stays.
fn run_read(page: &mut Page, t: State, call: Call)
    ensures { Within page.old page.new }
{
    // No enum: the codes are those of oracle/README.md's forms, a byte may be any, and the last arm takes the rest.
    match call.code {
        11 => put_done(page, t.validate(call.token)),
        12 => put_found(page, state_search::peek_clean(t, call.token.key), b"found"),
        13 => put_entry(page, call.number, t.clean_entry(call.number)),
        14 => put_found(page, t.oldest_clean(), b"found"),
        _ => put_found(page, t.cold_candidate(call.number), b"found"),
    }
}

// The calls of these cases that no gate stands before: all but access and resize.
pub fn run(page: &mut Page, t: State, call: Call, pins: &[u8]) -> State
    ensures { Within page.old page.new }
{
    // No enum: the codes are those of oracle/README.md's forms, a byte may be any, and the last arm takes the rest.
    match call.code {
        5 => run_lookup(page, t, call.token.key),
        9 => run_reclaim(page, t, call.number, pins),
        11..=u8::MAX => {
            run_read(page, t, call);
            t
        }
        _ => run_finished(page, t, call),
    }
}

// The table after the call, what stands past its lengths, and the line's end.
pub fn put_state(page: &mut Page, t: &State)
    ensures { Within page.old page.new }
{
    picture::put_table(page, t);
    picture::put_past(page, t);
    page.put_text(b"\n");
}

// The bytes that wait, with more read behind them, at the front, where a whole case may not be among them. A read that failed hands them back too.
pub fn wait<R: Input + Eprint>(
    rt: &R,
    bytes: &mut [u8],
    waiting: Waiting,
) -> Result<Waiting, Waiting>
    ensures at_le_have { MatchResult result
        (λ w. (w.at ≤ w.have) × (w.have ≤ length bytes.old)) (λ w. (w.at ≤ w.have) × (w.have ≤ length bytes.old)) }
    ensures bytes_len_unchanged { length bytes.new ≡ length bytes.old }
{
    let have = waiting.have.min(bytes.len());
    let at = waiting.at.min(have);
    if LONGEST <= have - at {
        return Ok(Waiting { at, have });
    }
    bytes.copy_within(at..have, 0);
    let to = have - at;
    match streams::read_block(rt, &mut bytes[to..]) {
        Ok(count) => Ok(Waiting {
            at: 0,
            have: to + count,
        }),
        Err(failed) => Err(Waiting {
            at: 0,
            have: to + failed.count,
        }),
    }
}

// All cases, each by its number and the bytes that it begins: `take_case` writes its line and tells how many of the bytes it has, or that there is none. What
// was written before the last is written out, whatever ends them.
pub fn run_all<R: Input + Print + Eprint, F: FnMut(&mut Page, u64, &[u8]) -> Option<usize>>(
    rt: &R,
    bytes: &mut [u8],
    page: &mut Page,
    mut take_case: F,
) -> Result<(), Failed>
    requires callable { F.IsAlwaysCallable take_case }
    requires keeps_list { (f : F) (p : _) (n : _) (b : _) (r : _) (q : _) (g : F) → F.step f p n b r q g → SameList p.now q.now }
    ensures bytes_len_unchanged { length bytes.new ≡ length bytes.old }
    ensures same_list { SameList page.old page.new }
{
    let mut waiting = Waiting { at: 0, have: 0 };
    let mut number = 0;
    // No `loop`: it needs a measure, and the input has no known end.
    for _ in 0..u64::MAX {
        let Ok(next) = wait(rt, bytes, waiting) else {
            break;
        };
        let Some(used) = take_case(page, number, &bytes[next.at..next.have]) else {
            break;
        };
        page.flush(rt, FULL)?;
        waiting = Waiting {
            at: next.at.saturating_add(used),
            have: next.have,
        };
        number = basics::one_more(number);
    }
    page.flush(rt, 0)
}
