// SPDX-License-Identifier: Apache-2.0
// Runs calls on a table and its gate, and writes for each the answer, the gate and the table after the call, as `rust_gate` does of the original:
// oracle/README.md has both forms. A case that is cut off, or has an unknown code or a first byte above 1, ends the program, and so does a read or a
// write that fails.
#![tactic(auto)]

ghost use Rattle.std.specs.Prelude.{◌≤◌, length, IfSome};
ghost use Rattle.picture_numbers.specs.Wrote.{SameList};
ghost use Rattle.cases.specs.Places.{Within};

use cases::Call;
use gate::Gate;
use passage::Passed;
use picture_numbers::Page;
use state::{Outcome, State};
use streams::Failed;

// A table and its gate.
#[derive(Clone, Copy)]
struct Guarded {
    state: State,
    gate: Gate,
}

// What a call is made on, and the place behind its bytes.
#[derive(Clone, Copy)]
struct Begun {
    guarded: Guarded,
    end: usize,
}

// The bytes of cases that are there at once.
const BLOCK: usize = 262144;

// The room of a page.
const ROOM: usize = 524288;

// The bytes of a gate.
const GATE: usize = 25;

fn read_gate(bytes: &[u8], at: usize) -> Gate {
    Gate {
        pauses: cases::low_8(bytes, at),
        dirty: cases::low_8(bytes, cases::over(at, 8)),
        pending: cases::byte_at(bytes, cases::over(at, 16)) != 0,
        generation: cases::low_8(bytes, cases::over(at, 17)),
    }
}

// The call begins at place 1. Behind it stand a gate and a table where the first byte is not 0.
fn begin(bytes: &[u8], guarded: Guarded) -> Begun {
    let behind = cases::over(1, cases::CALL);
    if cases::byte_at(bytes, 0) == 0 {
        return Begun {
            guarded,
            end: behind,
        };
    }
    let table = cases::read_table(bytes, cases::over(behind, GATE));
    Begun {
        guarded: Guarded {
            state: table.state,
            gate: read_gate(bytes, behind),
        },
        end: table.end,
    }
}

fn put_gate(page: &mut Page, gate: Gate)
    ensures { Within page.old page.new }
{
    let numbers: [u64; 4] = [
        gate.pauses,
        gate.dirty,
        u64::from(gate.pending),
        gate.generation,
    ];
    page.put_numbers(&numbers);
}

// new: a refused one leaves table and gate as they were.
fn run_new(page: &mut Page, guarded: Guarded, capacity: usize) -> Guarded
    ensures { Within page.old page.new }
{
    let made = State::try_new(capacity);
    match made.answer {
        Ok(()) => {
            cases::put_numbered(page, b"made", capacity, 0);
            Guarded {
                state: made.state,
                gate: Gate::new(),
            }
        }
        Err(why) => {
            cases::put_refused(page, u8::from(why), 0);
            guarded
        }
    }
}

// A pause or a dirty page begins or ends; a refusal leaves the gate as it was.
fn run_turn(page: &mut Page, guarded: Guarded, code: u8) -> Guarded
    ensures { Within page.old page.new }
{
    let Guarded { state, gate } = guarded;
    // No enum: the codes are those of oracle/README.md's forms, a byte may be any, and the last arm takes the rest.
    let turned = match code {
        16 => gate.begin_pause(),
        17 => gate.end_pause(),
        18 => gate.begin_dirty(),
        _ => gate.end_dirty(),
    };
    cases::put_done(page, turned.map(|_| ()));
    Guarded {
        state,
        gate: turned.unwrap_or(gate),
    }
}

fn run_access(page: &mut Page, guarded: Guarded, call: Call, pins: &[u8]) -> Guarded
    ensures { Within page.old page.new }
{
    let Guarded { state, gate } = guarded;
    let Outcome { state, answer } = passage::access(state, gate, call.token.key, call.allow, pins);
    cases::put_access(page, answer);
    Guarded { state, gate }
}

fn run_resize(
    page: &mut Page,
    guarded: Guarded,
    call: Call,
    pins: &[u8],
    list: &mut [u16],
) -> Guarded
    ensures { Within page.old page.new }
{
    let places = call.list.min(list.len());
    let Passed {
        outcome: Outcome { state, answer },
        gate,
    } = passage::resize(
        guarded.state,
        guarded.gate,
        call.number,
        pins,
        &mut list[..places],
    );
    cases::put_resized(page, answer, &list[..], places);
    Guarded { state, gate }
}

fn run(page: &mut Page, guarded: Guarded, call: Call, pins: &[u8]) -> Guarded
    ensures { Within page.old page.new }
{
    // No enum: the codes are those of oracle/README.md's forms, a byte may be any, and the last arm takes the rest.
    match call.code {
        1 => run_new(page, guarded, call.number),
        2 => run_access(page, guarded, call, pins),
        8 => {
            let mut list: [u16; 65535] = [7; 65535];
            run_resize(page, guarded, call, pins, &mut list)
        }
        16..=u8::MAX => run_turn(page, guarded, call.code),
        _ => Guarded {
            state: cases::run(page, guarded.state, call, pins),
            gate: guarded.gate,
        },
    }
}

// The line of a case.
fn put_case(page: &mut Page, number: u64, guarded: Guarded, call: Call, pins: &[u8]) -> Guarded
    ensures { Within page.old page.new }
{
    page.digits(number);
    let left = run(page, guarded, call, pins);
    put_gate(page, left.gate);
    cases::put_state(page, &left.state);
    left
}

// Whether there is such a call.
fn known(code: u8) -> bool {
    matches!(code, 1..=6 | 8..=19)
}

// The case at the front of some bytes, and its line: how many bytes it has. There is none where it is cut off, or of an unknown code or first byte.
fn take_case(page: &mut Page, number: u64, guarded: &mut Guarded, bytes: &[u8]) -> Option<usize>
    ensures used_in_bounds { IfSome result (λ used. used ≤ length bytes.now) }
    ensures within { IfSome result (λ _. Within page.old page.new) }
    ensures same_list { SameList page.old page.new }
{
    let call = cases::read_call(bytes, 1);
    let begun = begin(bytes, *guarded);
    let from = begun.end;
    let end = cases::over(from, call.pins);
    if bytes.len() < end || end < from || 1 < cases::byte_at(bytes, 0) || !known(call.code) {
        return None;
    }
    *guarded = put_case(page, number, begun.guarded, call, &bytes[from..end]);
    Some(end)
}

// Before the first case stand the table of a refused new and the gate as at first.
fn run_all<R: Input + Print + Eprint>(rt: &R) -> Result<(), Failed> {
    let mut bytes: [u8; BLOCK] = [0; BLOCK];
    let mut out: [u8; ROOM] = [0; ROOM];
    let mut page = Page {
        bytes: &mut out,
        at: 0,
    };
    let refused = State::try_new(0);
    let mut guarded = Guarded {
        state: refused.state,
        gate: Gate::new(),
    };
    cases::run_all(rt, &mut bytes, &mut page, |page, number, case| {
        take_case(page, number, &mut guarded, case)
    })
}

fn main(rt: HostRuntime) {
    let _ = run_all(&rt);
}
