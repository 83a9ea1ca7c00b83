// SPDX-License-Identifier: Apache-2.0
// Tables in plain numbers, as oracle/README.md has them: what the programs `trace`, `made_up`, `gate_trace` and `batch_trace` share.
#![tactic(auto)]

ghost use Rattle.std.specs.Prelude.{◌≡◌, ℕ, false, not, List, take};
ghost use Rattle.picture_numbers.specs.Wrote.{Wrote};
ghost use Rattle.picture_numbers.specs.Numbers.{spaced, word_numbers, all_zero, placed, below, past};
ghost use Rattle.picture.specs.Table.{slot_numbers, entry_numbers, index_numbers, heap_numbers, table_numbers, index_past, heap_past, past_numbers};

use eviction::{Entry, EvictionHeap};
use index::Index;
use picture_numbers::{Page, all_zero};
use state::{Slot, State};

// What a list that is told is made of.
pub trait Place {
    ghost stand: { Self → List ℕ };

    // Whether all numbers that stand there are 0.
    fn is_zero(&self) -> bool
        ensures { result ≡ all_zero (stand self.now) };

    fn put(&self, page: &mut Page)
        ensures { Wrote page.old (spaced (stand self.now)) page.new };
}

impl Place for u8 {
    ghost stand = { word_numbers };

    fn is_zero(&self) -> bool {
        u16::from(*self).is_zero()
    }

    fn put(&self, page: &mut Page) {
        u16::from(*self).put(page);
    }
}

impl Place for u16 {
    ghost stand = { word_numbers };

    fn is_zero(&self) -> bool {
        all_zero(&[u64::from(*self)])
    }

    fn put(&self, page: &mut Page) {
        page.put_numbers(&[u64::from(*self)]);
    }
}

fn entry_numbers(entry: &Entry) -> [u64; 2]
    ensures { result ≡ entry_numbers entry.now }
{
    [u64::from(entry.slot), entry.last_access]
}

impl Place for Entry {
    ghost stand = { entry_numbers };

    fn is_zero(&self) -> bool {
        all_zero(&entry_numbers(self))
    }

    fn put(&self, page: &mut Page) {
        page.put_numbers(&entry_numbers(self));
    }
}

fn slot_numbers(slot: &Slot) -> [u64; 6]
    ensures { result ≡ slot_numbers slot.now }
{
    [
        u64::from(slot.kind),
        slot.key.file,
        u64::from(slot.key.kind),
        slot.key.index,
        slot.generation,
        slot.last_access,
    ]
}

impl Place for Slot {
    ghost stand = { slot_numbers };

    fn is_zero(&self) -> bool {
        all_zero(&slot_numbers(self))
    }

    fn put(&self, page: &mut Page) {
        page.put_numbers(&slot_numbers(self));
    }
}

// The first places of a list, `count` of them.
pub fn put_list<T: Place>(page: &mut Page, list: &[T], count: usize)
    ensures { Wrote page.old (spaced (below T.stand count list.now)) page.new }
{
    let places = count.min(list.len());
    // A place past the end is taken for the end with no places too.
    page.put_text(b"");
    for place in &list[..places] {
        place.put(page);
    }
}

// What stands at a place behind the place's number; nothing where it is 0.
fn put_place<T: Place>(page: &mut Page, number: usize, place: &T)
    ensures { Wrote page.old (spaced (placed false number (T.stand place.now))) page.new }
{
    if place.is_zero() {
        // A place past the end is taken for the end here too.
        page.put_text(b"");
        return;
    }
    page.put(number);
    place.put(page);
}

// Those past a length that are not 0: how many they are, and each behind its place.
pub fn put_list_past<T: Place>(page: &mut Page, list: &[T], length: usize)
    ensures { Wrote page.old (spaced (past T.stand length list.now)) page.new }
{
    let from = length.min(list.len());
    let behind = &list[from..];
    let held = behind
        .iter()
        .filter(
            |place| -> bool
                ensures { result ≡ not (all_zero (T.stand place.now.now)) }
            { !place.is_zero() },
        )
        .count();
    page.put(held);
    // Mostly there are none, and then the places are not gone over again.
    if held == 0 {
        return;
    }
    for (i, place) in behind.iter().enumerate() {
        put_place(page, from + i, place);
    }
}

// The first words of a list, `count` of them.
#[tactic(auto, using(picture_numbers::proofs::Laws::wrote_as, crate::proofs::Laws::below_words))]
pub fn put_words(page: &mut Page, list: &[u16], count: usize)
    ensures { Wrote page.old (spaced (take count list.now)) page.new }
{
    put_list(page, list, count);
}

// Bucket count, heads, lengths of the chains, next, and the free stack.
fn put_index(page: &mut Page, index: &Index, capacity: usize)
    ensures { Wrote page.old (spaced (index_numbers index.now capacity)) page.new }
{
    page.put(index.buckets);
    put_words(page, &index.heads, index.buckets);
    put_list(page, &index.lengths, index.buckets);
    put_words(page, &index.next, capacity);
    page.put(index.free_len);
    put_words(page, &index.free, index.free_len);
}

// The heap: its length, slot and last use of each place, and the places.
fn put_heap(page: &mut Page, heap: &EvictionHeap, capacity: usize)
    ensures { Wrote page.old (spaced (heap_numbers heap.now capacity)) page.new }
{
    page.put(heap.len);
    put_list(page, &heap.entries, heap.len);
    put_words(page, &heap.positions, capacity);
}

// A table: 2 to 10 of the trace.
pub fn put_table(page: &mut Page, t: &State)
    ensures { Wrote page.old (spaced (table_numbers t.now)) page.new }
{
    page.put(t.capacity);
    page.put(t.clean);
    page.put(t.loading);
    page.put_numbers(&[
        t.counters.hits,
        t.counters.misses,
        t.counters.evictions,
        t.counters.in_progress,
        t.counters.capacity_busy,
        t.next_load_generation,
        t.next_access_sequence,
    ]);
    put_list(page, &t.slots, t.capacity);
    put_index(page, &t.index, t.capacity);
    put_heap(page, &t.eviction, t.capacity);
}

// Of the index what stands past the lengths and is not 0.
fn put_index_past(page: &mut Page, index: &Index, capacity: usize)
    ensures { Wrote page.old (spaced (index_past index.now capacity)) page.new }
{
    put_list_past(page, &index.heads, index.buckets);
    put_list_past(page, &index.lengths, index.buckets);
    put_list_past(page, &index.next, capacity);
    put_list_past(page, &index.free, index.free_len);
}

// Of the heap.
fn put_heap_past(page: &mut Page, heap: &EvictionHeap, capacity: usize)
    ensures { Wrote page.old (spaced (heap_past heap.now capacity)) page.new }
{
    put_list_past(page, &heap.entries, heap.len);
    put_list_past(page, &heap.positions, capacity);
}

// Of a table: 12 of the trace, without the pins.
pub fn put_past(page: &mut Page, t: &State)
    ensures { Wrote page.old (spaced (past_numbers t.now)) page.new }
{
    put_list_past(page, &t.slots, t.capacity);
    put_index_past(page, &t.index, t.capacity);
    put_heap_past(page, &t.eviction, t.capacity);
}
