// What a run of bytes does after a frame's first 58: in a cell, in cells that lie whole in the piece, or after the
// frame's cells. What the functions ask of the walk stays in their contracts, in no type: a walk is the lent words as
// they lie, and such a type would be made once, in a turn of the walk, and taken apart in each function.
#![tactic(auto)]

ghost use Rattle.std.specs.Prelude.{◌≡◌, ◌+◌, ◌*◌, ◌<◌, ◌≤◌, IfSome, length};
ghost use Rattle.capture_steps.specs.Contract.{Goes, Going, Moves, Runs};

use capture_frames::settle;
use capture_steps::{Collected, Event, Run, Step, Walk, collect};

// How many cells lie whole in the next `left` bytes, if the next byte is a cell's first and there is one.
fn cells_there(s: Walk, left: u64) -> Option<u64>
    requires { (s.fed < 268435456) × (24 ≤ s.fed) × (58 ≤ s.at) × (0 < s.left) }
    ensures { IfSome result (λ m. (0 < m) × Runs s left m) }
{
    if s.got != 0 {
        return None;
    }
    let there = left / 188;
    let room = (268435456 - s.fed) / 188;
    let m = there.min(room).min(s.left);
    if m == 0 {
        return None;
    }
    Some(m)
}

// How many cells lie whole in f, if its first byte is a cell's first and there is one.
pub fn run_size(s: Walk, f: &[u8]) -> Option<u64>
    requires { (s.fed < 268435456) × (24 ≤ s.fed) × (58 ≤ s.at) × (0 < s.left) }
    ensures { IfSome result (λ m. (0 < m) × Runs s (length f.now) m) }
{
    let m = cells_there(s, f.len() as u64)?;
    if read_ahead::fetch(f, 188 * m) {
        return Some(m);
    }
    None
}

// Cells that lie whole in the piece from byte i on: m of them, of a frame whose first bytes are collected. It gets
// the whole piece and i, not a part: its event, `Cells`, names places of the piece.
pub fn on_run(kept: &Collected, s: Walk, piece: &[u8], i: usize, m: u64) -> Step
    requires going { Going s (188 * m) }
    requires front { 58 ≤ s.at }
    requires next { s.got ≡ 0 }
    requires some { 0 < m }
    requires most { m ≤ s.left }
    requires there { i + 188 * m ≤ length piece.now }
    ensures { Goes kept.now s piece.now i (188 * m) kept.now result }
{
    let n = 188 * m;
    let time = capture_cells::time_of(kept);
    let walk = Walk {
        fed: s.fed + n,
        at: s.at.wrapping_add(n),
        left: s.left - m,
        ..s
    };
    let run = Run {
        at: i,
        many: m,
        time,
        place: s.fed,
    };
    Step {
        taken: n as usize,
        walk: settle(kept, walk),
        event: Event::Cells(run),
    }
}

// A part of a cell of which fewer than four bytes are there, and not up to its end.
pub fn on_first(kept: &mut Collected, s: Walk, part: &[u8]) -> Step
    requires going { Going s (length part.now) }
    requires front { 58 ≤ s.at }
    requires cells { 0 < s.left }
    requires early { s.got < 4 }
    requires short { s.got + length part.now < 188 }
    ensures { Moves kept.old s part.now kept.new result }
{
    collect(kept, s.got, part);
    let n = part.len() as u64;
    let walk = Walk {
        fed: s.fed + n,
        at: s.at.wrapping_add(n),
        got: s.got + n,
        ..s
    };
    let event = if 4 <= walk.got {
        let time = capture_cells::time_of(kept);
        Event::Shown(capture_cells::head_at(kept, 58, time, s.fed - s.got))
    } else {
        Event::Nothing
    };
    Step {
        taken: part.len(),
        walk,
        event,
    }
}

// A part of a cell after its first four bytes, up to its end at most.
pub fn on_rest(kept: &mut Collected, s: Walk, part: &[u8]) -> Step
    requires going { Going s (length part.now) }
    requires front { 58 ≤ s.at }
    requires cells { 0 < s.left }
    requires shown { 4 ≤ s.got }
    requires cell { s.got < 188 → s.got + length part.now ≤ 188 }
    ensures { Moves kept.old s part.now kept.new result }
{
    collect(kept, s.got, part);
    let n = part.len() as u64;
    let walk = Walk {
        fed: s.fed + n,
        at: s.at.wrapping_add(n),
        got: s.got.wrapping_add(n),
        ..s
    };
    if walk.got < 188 {
        return Step {
            taken: part.len(),
            walk,
            event: Event::Nothing,
        };
    }
    let time = capture_cells::time_of(kept);
    let cell = capture_cells::cell_at(kept, 58, time, walk.fed.wrapping_sub(188));
    let walk = Walk {
        left: s.left - 1,
        got: 0,
        ..walk
    };
    Step {
        taken: part.len(),
        walk: settle(kept, walk),
        event: Event::Whole(cell),
    }
}

// A part of a frame after its cells.
pub fn on_tail(kept: &Collected, s: Walk, part: &[u8]) -> Step
    requires going { Going s (length part.now) }
    requires front { 58 ≤ s.at }
    requires done { s.left ≡ 0 }
    requires frame { s.size ≤ 65535 → s.at < 16 + s.size → s.at + length part.now ≤ 16 + s.size }
    ensures { Moves kept.now s part.now kept.now result }
{
    let n = part.len() as u64;
    let walk = Walk {
        fed: s.fed + n,
        at: s.at.wrapping_add(n),
        ..s
    };
    Step {
        taken: part.len(),
        walk: settle(kept, walk),
        event: Event::Nothing,
    }
}
