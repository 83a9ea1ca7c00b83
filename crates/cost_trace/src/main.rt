// SPDX-License-Identifier: Apache-2.0
// Reads made-up tables, each with a resize, and writes for each what the resize will cost, as `rust_cost` does of the original: oracle/README.md has both
// forms. A case that is cut off, or of another code than resize's, ends the program, and so does a read or a write that fails.
#![tactic(auto)]

ghost use Rattle.std.specs.Prelude.{◌≤◌, length, IfSome};
ghost use Rattle.picture_numbers.specs.Wrote.{SameList};
ghost use Rattle.cases.specs.Places.{Within};

use maintenance_resize::ResizeCost;
use picture_numbers::Page;
use state::State;
use streams::Failed;

// The bytes of cases that are there at once.
const BLOCK: usize = 262144;

// The room of a page.
const ROOM: usize = 524288;

// The code of resize.
const RESIZE: u8 = 8;

// The answer, and three more numbers.
fn put_cost(page: &mut Page, cost: ResizeCost)
    ensures { Within page.old page.new }
{
    cases::put_maintenance(page, cost.answer, 3);
    page.put(cost.capacity);
    page.put(cost.drops);
    page.put(cost.restores);
}

// The line of a case.
fn put_case(page: &mut Page, number: u64, t: State, asked: usize, pins: &[u8])
    ensures { Within page.old page.new }
{
    page.digits(number);
    put_cost(page, maintenance_resize::cost(t, asked, pins));
    page.put_text(b"\n");
}

// The case at the front of some bytes, and its line: how many bytes it has. There is none where it is cut off or of another code.
fn take_case(page: &mut Page, number: u64, bytes: &[u8]) -> Option<usize>
    ensures used_in_bounds { IfSome result (λ used. used ≤ length bytes.now) }
    ensures within { IfSome result (λ _. Within page.old page.new) }
    ensures same_list { SameList page.old page.new }
{
    let call = cases::read_call(bytes, 0);
    let table = cases::read_table(bytes, cases::CALL);
    let from = table.end;
    let end = cases::over(from, call.pins);
    if bytes.len() < end || end < from || call.code != RESIZE {
        return None;
    }
    put_case(page, number, table.state, call.number, &bytes[from..end]);
    Some(end)
}

fn run_all<R: Input + Print + Eprint>(rt: &R) -> Result<(), Failed> {
    let mut bytes: [u8; BLOCK] = [0; BLOCK];
    let mut out: [u8; ROOM] = [0; ROOM];
    let mut page = Page {
        bytes: &mut out,
        at: 0,
    };
    cases::run_all(rt, &mut bytes, &mut page, take_case)
}

fn main(rt: HostRuntime) {
    let _ = run_all(&rt);
}
