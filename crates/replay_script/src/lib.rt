// Reading a script: its opening, the calls that are in it, and the room that their outcomes take. A script: the
// 32-bit little-endian words W, H, d, PID and the rule edition; then calls. A call: byte C or L, a 32-bit length n
// and n bytes, a feed of that side; byte S and a 32-bit length n, a seal into n bytes of 0xA5; byte I, the index; or
// byte R and 32-bit words a and b, the repeats of a passage. Where the script ends inside a call, or where another
// byte is, the list ends.
#![tactic(auto)]

ghost use Rattle.std.specs.Prelude.{◌≡◌, ◌+◌, ◌-◌, ◌<◌, ◌^◌, length, leb};
ghost use Rattle.rules.specs.Bytes.{word32};
ghost use Rattle.replay_script.specs.Script.{word_at, opening_of, head_by, passage_by, head_at};
ghost use Rattle.replay_script.specs.Script.{next_of, size_of, room_for};

use rules::Opening;

// The head of a call: its kind, with its length or its words.
#[derive(Clone, Copy)]
pub enum Head {
    Capture(u32),
    Luma(u32),
    Seal(u32),
    Index,
    Repeats(u32, u32),
}

// The word at a place; 0 where the script ends before the word does.
#[tactic(auto, unfolding(crate::specs::Script::word_at))]
fn word_at(script: &[u8], at: usize) -> u32
    requires { at < 100 }
    ensures { result ≡ word_at script.now at }
{
    if script.len() < at + 4 {
        return 0;
    }
    words::word32(script, at)
}

pub fn opening(script: &[u8]) -> Opening
    ensures { result ≡ opening_of script.now }
{
    Opening {
        width: word_at(script, 0),
        height: word_at(script, 4),
        time: word_at(script, 8),
        pid: word_at(script, 12),
        edition: word_at(script, 16),
    }
}

// The head of a call that has `left` bytes of the script left, itself among them; none where no such call is.
#[tactic(auto, unfolding(crate::specs::Script::head_by))]
fn head_by(left: usize, kind: u8, n: u32) -> Option<Head>
    ensures { result ≡ head_by left kind n }
{
    if left < 5 {
        return None;
    }
    let there = n as usize <= left - 5;
    match kind {
        b'S' => Some(Head::Seal(n)),
        b'C' if there => Some(Head::Capture(n)),
        b'L' if there => Some(Head::Luma(n)),
        _ => None,
    }
}

// The head of a passage, after its R; none where the script ends before it does.
#[tactic(auto, unfolding(crate::specs::Script::passage_by))]
fn passage_at(script: &[u8], at: usize) -> Option<Head>
    requires { at < length script.now }
    ensures { result ≡ passage_by (length script.now - at) (word32 script.now (at + 1))
        (word32 script.now (at + 5)) }
{
    if script.len() - at < 9 {
        return None;
    }
    Some(Head::Repeats(words::word32(script, at + 1), words::word32(script, at + 5)))
}

// The head of the call that begins at a place; none where the list of calls ends there.
#[tactic(auto, unfolding(crate::specs::Script::head_by))]
pub fn head_at(script: &[u8], at: usize) -> Option<Head>
    requires { at < length script.now }
    ensures { result ≡ head_at script.now at }
{
    let left = script.len() - at;
    match script[at] {
        b'I' => Some(Head::Index),
        b'R' => passage_at(script, at),
        _ if left < 5 => None,
        kind => head_by(left, kind, words::word32(script, at + 1)),
    }
}

// How many bytes the call's outcome takes.
pub fn size(h: Head) -> usize
    ensures { result ≡ size_of h }
{
    match h {
        Head::Capture(_) | Head::Luma(_) | Head::Repeats(_, _) => 17,
        Head::Seal(n) => 17 + n as usize,
        Head::Index => 25,
    }
}

// Where the next call is.
pub fn next_at(at: usize, h: Head) -> usize
    requires { at < 2 ^ 63 }
    ensures { result ≡ next_of h at }
{
    match h {
        Head::Index => at + 1,
        Head::Repeats(_, _) => at + 9,
        Head::Seal(_) => at + 5,
        Head::Capture(n) | Head::Luma(n) => at + 5 + n as usize,
    }
}

// Whether the opening's answer and all calls' outcomes take no more than `most` bytes.
pub fn has_room(script: &[u8], most: usize) -> bool
    ensures { result ≡ leb (room_for script.now) most }
{
    if most < 17 {
        return false;
    }
    let mut at = 20;
    let mut to = 17;
    // No range counts `at`: each call says by its own length where the next is.
    while at < script.len() {
        let Some(h) = head_at(script, at) else {
            return true;
        };
        let n = size(h);
        if most - to < n {
            return false;
        }
        to += n;
        at = next_at(at, h);
    }
    true
}
