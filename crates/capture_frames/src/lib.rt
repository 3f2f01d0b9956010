// A frame that lies whole in the piece is taken at once, and nothing of it is collected; and where the bytes of a cut
// frame end.
#![tactic(auto)]

ghost use Rattle.std.specs.Prelude.{◌≡◌, ℕ, ◌<◌, ◌≤◌, IfSome, List, length, drop};
ghost use Rattle.capture_steps.specs.Contract.{Goes, Settles, Ahead};

use capture_steps::{Collected, Event, Run, Step, Walk, step};

// How many bytes the frame has that f begins with, if it is next, all there, and shows no refusal.
pub fn whole_size(s: Walk, f: &[u8]) -> Option<u64>
    requires { s.fed < 268435456 }
    ensures { IfSome result (λ n. Ahead s f.now n) }
{
    if s.at != 0 || s.fed < 24 || f.len() < 58 {
        return None;
    }
    let size = capture_cells::stored_of(f);
    let n = 16 + size;
    let fine = capture_cells::micro_of(f) <= 999999 && (42..=65535).contains(&size);
    if fine && n <= f.len() as u64 && n <= 268435456 - s.fed && read_ahead::fetch(f, n) {
        Some(n)
    } else {
        None
    }
}

// A frame of n bytes that lies whole in the piece from byte i on. Nothing is collected. It takes the piece and not a
// part of it, since its event names a place of the piece.
pub fn on_frame(s: Walk, piece: &[u8], i: usize, n: u64) -> Step
    requires clear { s.status ≡ 0 }
    requires place { i ≤ length piece.now }
    requires ahead { Ahead s (drop i piece.now) n }
    ensures { (k : List ℕ) → Goes k s piece.now i n k result }
{
    let f = &piece[i..];
    let many = capture_cells::count_of(f);
    let walk = Walk {
        fed: s.fed + n,
        frames: s.frames.wrapping_add(1),
        ..s
    };
    if many == 0 {
        let walk = Walk {
            skipped: s.skipped.wrapping_add(1),
            ..walk
        };
        return step(n as usize, walk, Event::Nothing);
    }
    let run = Run {
        at: i + 58,
        many,
        time: capture_cells::time_of(f),
        place: s.fed + 58,
    };
    step(n as usize, walk, Event::Cells(run))
}

// After its bytes are in, a frame is whole, or goes on.
pub fn settle(kept: &Collected, s: Walk) -> Walk
    ensures { Settles kept.now s result }
{
    if s.at < 16 || s.at < s.size.wrapping_add(16) {
        return s;
    }
    let whole = Walk {
        at: 0,
        frames: s.frames.wrapping_add(1),
        ..s
    };
    if capture_cells::carries_of(kept) {
        return whole;
    }
    Walk {
        skipped: whole.skipped.wrapping_add(1),
        ..whole
    }
}
