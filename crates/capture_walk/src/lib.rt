// One walk through a capture that comes in pieces, cut anywhere: it finds the frames (document 01: records) and
// their cells, counts the frames, and gives refusals 4 to 8. It knows no PID, no unit and no edition: whoever counts
// cells takes them from the steps. Of a frame the first 58 bytes are collected, of a cell the first six; a frame, or
// a cell, that lies whole in a piece is read where it lies.
#![tactic(auto)]

ghost use Rattle.std.specs.Prelude.{◌≡◌, ◌<◌, length};
ghost use Rattle.capture_walk.specs.Contract.{Opened, Asks, Turned, Stepped};

use capture_frames::{on_frame, whole_size};
use capture_headers::{on_file, on_front, on_header};
use capture_payload::{on_first, on_rest, on_run, on_tail, run_size};
pub use capture_steps::{
    COLLECTED_BYTES, Collected, Event, Run, Step, WALK_WORDS, Walk, WalkWords, load, store,
};
use capture_steps::{refused, span, step};

// A fresh walk.
pub fn open(words: &mut WalkWords, kept: &mut Collected)
    ensures { Opened words.new kept.new }
{
    *words = [0; WALK_WORDS];
    *kept = [0; COLLECTED_BYTES];
}

// Whether the capture ends inside its header or a frame, if there is no refusal.
pub fn inside(s: Walk) -> bool
    ensures { Asks s result }
{
    s.fed < 24 || 0 < s.at // in the file's header, or in a frame
}

// The bytes of a piece from byte i on, up to the next place where something is decided.
fn turn(kept: &mut Collected, s: Walk, piece: &[u8], i: usize) -> Step
    requires { (s.status ≡ 0) × (s.fed < 268435456) × (i < length piece.now) }
    ensures { Turned kept.old s piece.now i kept.new result }
{
    if let Some(whole) = whole_size(s, &piece[i..]) {
        return on_frame(s, piece, i, whole);
    }
    let n = span(s, (piece.len() - i) as u64) as usize;
    let part = &piece[i..i + n];
    if s.fed < 24 {
        return on_file(kept, s, part);
    }
    if s.at < 16 {
        return on_header(kept, s, part);
    }
    if s.at < 58 {
        return on_front(kept, s, part);
    }
    if s.left == 0 {
        return on_tail(kept, s, part);
    }
    if let Some(m) = run_size(s, &piece[i..]) {
        return on_run(kept, s, piece, i, m);
    }
    if s.got < 4 {
        return on_first(kept, s, part);
    }
    on_rest(kept, s, part)
}

// The next bytes of a piece, from byte i on: up to those that bring something, or all of them. Turns that bring
// nothing are taken here, so that the walk's numbers need not be handed over between them.
pub fn next(kept: &mut Collected, s: Walk, piece: &[u8], i: usize) -> Step
    requires { i < length piece.now }
    ensures { Stepped kept.old s piece.now i kept.new result }
{
    let mut w = s;
    let mut at = i;
    // no `for`: each turn says how many bytes it took
    while at < piece.len() {
        if w.status != 0 {
            return step(piece.len() - i, w, Event::Refused);
        }
        if 268435456 <= w.fed {
            if i < at {
                return step(at - i, w, Event::Nothing);
            }
            let t = refused(w, 4, 268435456);
            return step(piece.len() - i, t, Event::Refused);
        }
        let r = turn(kept, w, piece, at);
        w = r.walk;
        at += r.taken;
        if !matches!(r.event, Event::Nothing) {
            return step(at - i, w, r.event);
        }
    }
    step(at - i, w, Event::Nothing)
}
