// Runs a whole list of calls that a script of bytes holds (`replay_script`), all after one opening, and writes what
// they come to (`replay_outcomes`).
#![tactic(auto)]

ghost use Rattle.std.specs.Prelude.{◌≡◌, ◌-◌, ◌≤◌, length, replicate};
ghost use Rattle.rules.specs.Calls.{seal, index, repeats};
ghost use Rattle.sample_questions.specs.State.{words_of};
ghost use Rattle.sample.specs.Owned.{state_of};
ghost use Rattle.replay_script.specs.Script.{next_of};
ghost use Rattle.replay.specs.Run.{FedCapture, FedLuma, Replied, Called, CallPost, All, Replayed};

use replay_outcomes::{put, put_index};
use replay_script::{Head, has_room, head_at, next_at, opening, size};
use sample::Sample;

// ---- one call, whose outcome takes all of out

fn call_capture(sample: &mut Sample, piece: &[u8], out: &mut [u8])
    requires { length out.old ≡ 17 }
    ensures { FedCapture (state_of sample.old) piece.now (state_of sample.new) out.new }
{
    put(out, sample.feed_capture(piece));
}

fn call_luma(sample: &mut Sample, piece: &[u8], out: &mut [u8])
    requires { length out.old ≡ 17 }
    ensures { FedLuma (state_of sample.old) piece.now (state_of sample.new) out.new }
{
    put(out, sample.feed_luma(piece));
}

fn call_seal(sample: &Sample, out: &mut [u8])
    requires { 17 ≤ length out.old }
    ensures { Replied
        (words_of (state_of sample.now))
        (seal (replicate (length out.old - 17) 0xA5)) out.new }
{
    out[17..].fill(0xA5);
    let a = sample.seal(&mut out[17..]);
    put(out, a);
}

fn call_index(sample: &Sample, out: &mut [u8])
    requires { length out.old ≡ 25 }
    ensures { Replied (words_of (state_of sample.now)) index out.new }
{
    put_index(out, sample.index());
}

fn call_repeats(sample: &Sample, a: u32, b: u32, out: &mut [u8])
    requires { length out.old ≡ 17 }
    ensures { Replied (words_of (state_of sample.now)) (repeats a b) out.new }
{
    put(out, sample.repeats(a, b));
}

// The call whose head h is at `at`.
fn call(sample: &mut Sample, script: &[u8], at: usize, h: Head, out: &mut [u8])
    requires { Called script.now at h (length out.old) }
    ensures { CallPost (state_of sample.old) script.now at h (next_of h at) (state_of sample.new) out.new }
{
    let from = at + 5;
    match h {
        Head::Index => call_index(sample, out),
        Head::Repeats(a, b) => call_repeats(sample, a, b, out),
        Head::Seal(_) => call_seal(sample, out),
        Head::Capture(n) => call_capture(sample, &script[from..from + n as usize], out),
        Head::Luma(n) => call_luma(sample, &script[from..from + n as usize], out),
    }
}

// All calls of the script, as far as there is room.
fn all(sample: &mut Sample, script: &[u8], out: &mut [u8])
    ensures { All (state_of sample.old) script.now out.old out.new }
{
    let mut at = 20;
    let mut to = 0;
    // No range counts `at`: each call says by its own length where the next is.
    while at < script.len() {
        let Some(h) = head_at(script, at) else {
            return;
        };
        let n = size(h);
        if out.len() - to < n {
            return;
        }
        call(sample, script, at, h, &mut out[to..to + n]);
        at = next_at(at, h);
        to += n;
    }
}

// Opens as the script says, and makes its calls: out begins with the opening's answer and every call's outcome. Where
// there is no room for all of them the answer is false, and out is as it was.
//
// Not inlined into the C function: there a flag of `out` would be in a register that the back end's probing of this
// large frame's pages takes, and what is written would go elsewhere.
#[inline(never)]
pub fn replay(script: &[u8], out: &mut [u8]) -> bool
    ensures { Replayed script.now out.old result out.new }
{
    if !has_room(script, out.len()) {
        return false;
    }
    let mut sample = Sample::new();
    let a = sample.open(opening(script));
    put(out, a);
    all(&mut sample, script, &mut out[17..]);
    true
}
