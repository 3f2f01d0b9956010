// What a run of bytes does in the file header, in a frame's header, or in the first 42 bytes after that.
#![tactic(auto)]

ghost use Rattle.std.specs.Prelude.{◌≡◌, ◌+◌, ◌<◌, ◌≤◌, length};
ghost use Rattle.capture_steps.specs.Contract.{Going, Moves, Within};

use capture_frames::settle;
use capture_steps::{Collected, Event, Step, Walk, carry, refused, step};

// A part of the file header, up to the magic's end or the header's end at most.
pub fn on_file(kept: &mut Collected, s: Walk, part: &[u8]) -> Step
    requires clear { s.status ≡ 0 }
    requires some { 0 < length part.now }
    requires magic { s.fed < 4 → s.fed + length part.now ≤ 4 }
    requires header { s.fed + length part.now ≤ 24 }
    ensures { Moves kept.old s part.now kept.new result }
{
    carry(kept, s.fed, part);
    let taken = part.len();
    let walk = Walk {
        fed: s.fed + taken as u64,
        ..s
    };
    if walk.fed == 4 && !capture_cells::is_magic(kept) {
        return step(taken, refused(s, 5, 3), Event::Refused);
    }
    if walk.fed == 24 && capture_cells::link_of(kept) != 1 {
        return step(taken, refused(s, 6, 23), Event::Refused);
    }
    step(taken, walk, Event::Nothing)
}

// A part of a frame's header, up to its end at most.
pub fn on_header(kept: &mut Collected, s: Walk, part: &[u8]) -> Step
    requires going { Going s (length part.now) }
    requires header { s.at + length part.now ≤ 16 }
    ensures { Moves kept.old s part.now kept.new result }
{
    carry(kept, s.at, part);
    let taken = part.len();
    let walk = Walk {
        fed: s.fed + taken as u64,
        at: s.at + taken as u64,
        ..s
    };
    if walk.at < 8 {
        return step(taken, walk, Event::Nothing);
    }
    if 999999 < capture_cells::micro_of(kept) {
        return step(taken, refused(s, 7, s.fed + 7 - s.at), Event::Refused);
    }
    if walk.at < 12 {
        return step(taken, walk, Event::Nothing);
    }
    let size = capture_cells::stored_of(kept);
    if 65535 < size {
        return step(taken, refused(s, 8, s.fed + 11 - s.at), Event::Refused);
    }
    step(taken, settle(kept, Walk { size, ..walk }), Event::Nothing)
}

// A part of a frame's first 42 bytes after its header, up to their end or the frame's at most.
pub fn on_front(kept: &mut Collected, s: Walk, part: &[u8]) -> Step
    requires going { Going s (length part.now) }
    requires body { 16 ≤ s.at }
    requires front { Within s.at s.size (length part.now) }
    ensures { Moves kept.old s part.now kept.new result }
{
    carry(kept, s.at, part);
    let taken = part.len();
    let mut walk = Walk {
        fed: s.fed + taken as u64,
        at: s.at + taken as u64,
        ..s
    };
    if walk.at == 58 {
        walk.left = capture_cells::count_of(kept);
        walk.got = 0;
    }
    step(taken, settle(kept, walk), Event::Nothing)
}
