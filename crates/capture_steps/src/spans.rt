// How many bytes go together: up to the next place where something is decided.
ghost use Rattle.std.specs.Prelude.{◌<◌, ◌≤◌};
ghost use Rattle.capture_steps.specs.Contract.{Within, Span};

use crate::types::Walk;

// How many bytes of a frame's first 58 come up to the end of the header, of the first 42 bytes after it or of the
// frame.
fn front_span(at: u64, size: u64) -> u64
    requires { at < 58 }
    ensures { (0 < result) × Within at size result }
{
    if at < 16 {
        16 - at
    } else {
        size.wrapping_add(16).min(58).saturating_sub(at).max(1)
    }
}

// How many bytes the next step takes, of those that are left of the piece.
pub fn span(s: Walk, left: u64) -> u64
    requires { (0 < left) × (s.fed < 268435456) }
    ensures { Span s left result }
{
    let room = 268435456 - s.fed;
    let next = if s.fed < 4 {
        4 - s.fed
    } else if s.fed < 24 {
        24 - s.fed
    } else if s.at < 58 {
        front_span(s.at, s.size)
    } else if s.left == 0 {
        s.size.wrapping_add(16).saturating_sub(s.at)
    } else if s.got < 4 {
        187 - s.got
    } else {
        188u64.saturating_sub(s.got)
    };
    next.min(left).min(room).max(1)
}
