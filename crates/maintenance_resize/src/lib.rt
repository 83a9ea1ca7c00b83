// SPDX-FileCopyrightText: 2026 roolrz
// SPDX-License-Identifier: Apache-2.0
// Ported from src/fs/cache/maintenance.rs of HypeR-Proj/kernel at 53afd06a1d, changed; see NOTICE.

// maintenance.rs, resize (`maintain_capacity` after its gate). It works on any table; a refusal hands back the table, and the lent list, as they
// came.
#![tactic(auto)]

ghost use Rattle.std.specs.Prelude.{◌≡◌, ◌≤◌, ◌<◌, length, IfOk, OnOk};
ghost use Rattle.basics.specs.Answers.{done_answer};
ghost use Rattle.maintenance_resize.specs.Answers.{maintained_after};
ghost use Rattle.maintenance_resize.specs.Resize.{unless_refused, need_input, resize_to, resize as resize_rule};
ghost use Rattle.maintenance_resize.specs.Cost.{tries_to, restores_of, dropped, told, cost as cost_rule};

mod remake;

use basics::Refusal;
use maintenance_restore::{pins, restore};
use state::{Outcome, State};

// The answer of resize; `Resized` has the new capacity.
#[derive(Clone, Copy, Debug, PartialEq, Eq)]
pub enum Maintenance {
    Unchanged,
    Busy,
    Resized(usize),
}

// From the raised capacity on.
#[tactic(auto, using(basics::proofs::Tests::tests, maintenance_restore::proofs::Cases::few_tries), unfolding(crate::specs::Resize::resize_to, crate::specs::Resize::fresh_start, crate::specs::Move::inherit, crate::specs::Resize::remake_or_busy, crate::specs::Cost::tries_to))]
fn resize_to(
    t: &mut State,
    pins: &[u8],
    list: &mut [u16],
    capacity: usize,
    tries: &mut usize,
) -> Result<Maintenance, Refusal>
    requires { ((t.old.capacity ≤ 256) × (length pins.now ≡ t.old.capacity))
        × ((length list.old ≡ t.old.capacity) × ((0 < capacity) × (capacity ≤ 256))) × (tries.old ≡ 0) }
    ensures value { maintained_after (record { state = t.new; answer = result }) list.new
        ≡ unless_refused t.old list.old (resize_to t.old pins.now list.old capacity) }
    ensures tries { IfOk result (λ _. tries.new ≡ tries_to t.old pins.now capacity) }
{
    if capacity == t.capacity {
        return Ok(Maintenance::Unchanged);
    }
    if t.clean == 0 && capacity < t.capacity {
        list.fill(basics::NONE);
        let mut new = restore::fresh(capacity);
        remake::inherit(&mut new, t);
        *t = new;
        return Ok(Maintenance::Resized(capacity));
    }
    let Some(new) = restore::candidate(t, pins, capacity < t.capacity, capacity, tries)? else {
        return Ok(Maintenance::Busy);
    };
    remake::remake(t, new, list, tries)
}

// The first test of resize, and 1 to 4, with so many pin bytes and places of the list.
#[tactic(auto, using(basics::proofs::Tests::tests, state::proofs::Cases::sound_sizes_lem, basics::proofs::Capacities::capacity_fits), unfolding(crate::specs::Resize::need_input_of))]
pub fn check_input(t: &State, asked: usize, pins: usize, list: usize) -> Result<(), Refusal>
    ensures value { done_answer result ≡ need_input t.now asked pins list }
    ensures within { OnOk result (((t.now.capacity ≤ 256) × (pins ≡ t.now.capacity)) × ((list ≡ t.now.capacity) × ((0 < asked) × (asked ≤ 256)))) }
{
    t.check_sound()?;
    basics::check_capacity(asked)?;
    if pins != t.capacity {
        return Err(Refusal::Pins);
    }
    if list != t.capacity {
        return Err(Refusal::List);
    }
    Ok(())
}

// The tests, then from the raised capacity on. Where it refuses, table and list are as they came. `tries` counts the restores. Inlined, since as a function of
// its own it would make `resize` copy the table once more.
#[inline(always)]
#[tactic(auto, using(basics::proofs::Tests::tests, crate::proofs::Resizes::resize_refused, crate::proofs::Resizes::resize_on), unfolding(crate::specs::Resize::resize_steps, crate::specs::Cost::restores_of))]
fn resize_tested(
    t: &mut State,
    asked: usize,
    pins: &[u8],
    list: &mut [u16],
    tries: &mut usize,
) -> Result<Maintenance, Refusal>
    requires { tries.old ≡ 0 }
    ensures value { maintained_after (record { state = t.new; answer = result }) list.new ≡ resize_rule t.old asked pins.now list.old }
    ensures tries { IfOk result (λ _. tries.new ≡ restores_of t.old asked pins.now) }
    ensures within { OnOk result (t.old.capacity ≤ 256) }
{
    check_input(t, asked, pins.len(), list.len())?;
    if asked == t.capacity {
        return Ok(Maintenance::Unchanged);
    }
    if 0 < t.loading {
        return Ok(Maintenance::Busy);
    }
    if !pins::pins_clean(t, pins) {
        return Err(Refusal::Unclean);
    }
    resize_to(t, pins, list, pins::raised(asked, pins), tries)
}

// The Rust's `maintain_capacity` after its gate.
pub fn resize(mut t: State, asked: usize, pins: &[u8], list: &mut [u16]) -> Outcome<Maintenance>
    ensures { maintained_after result list.new ≡ resize_rule t asked pins.now list.old }
{
    let answer = resize_tested(&mut t, asked, pins, list, &mut 0);
    Outcome { state: t, answer }
}

// What a resize will cost: its answer, the capacity that it ends with, the keys that it drops and the restores that it tries. A refusal has 0 for all three.
#[derive(Clone, Copy)]
pub struct ResizeCost {
    pub answer: Result<Maintenance, Refusal>,
    pub capacity: usize,
    pub drops: usize,
    pub restores: usize,
}

// The clean slots to which the list gives no slot.
fn dropped(t: &State, list: &[u16]) -> usize
    requires { (t.now.capacity ≤ 256) × (length list.now ≡ t.now.capacity) }
    ensures { result ≡ dropped t.now list.now }
{
    t.slots
        .iter()
        .zip(list)
        .filter(|(entry, to)| entry.kind == state::CLEAN && **to == basics::NONE)
        .count()
}

// What a resize of this table will cost, told without doing it: the same steps, on a copy, with a list of its own. Not inlined, so that an
// inlined `cost` makes no other copy.
#[inline(never)]
fn cost_tested(t: &State, asked: usize, pins: &[u8]) -> ResizeCost
    ensures { told result ≡ cost_rule t.now asked pins.now }
{
    let mut after = *t;
    let mut slots = [0; 256];
    let list = &mut slots[..t.capacity.min(256)];
    let mut restores = 0;
    let answer = resize_tested(&mut after, asked, pins, list, &mut restores);
    match answer {
        Err(_) => ResizeCost {
            answer,
            capacity: 0,
            drops: 0,
            restores: 0,
        },
        Ok(Maintenance::Resized(capacity)) => ResizeCost {
            answer,
            capacity,
            drops: dropped(t, list),
            restores,
        },
        Ok(Maintenance::Unchanged | Maintenance::Busy) => ResizeCost {
            answer,
            capacity: t.capacity,
            drops: 0,
            restores,
        },
    }
}

// The same of a table by value. It is a read: no table is handed back.
#[inline]
pub fn cost(t: State, asked: usize, pins: &[u8]) -> ResizeCost
    ensures { told result ≡ cost_rule t asked pins.now }
{
    cost_tested(&t, asked, pins)
}
