// Bytes that are collected from piece to piece: 0 to 57 of a frame, and after them 0 to 5 of a cell.
ghost use Rattle.std.specs.Prelude.{◌+◌, ◌≤◌, length};
ghost use Rattle.capture_steps.specs.Contract.{Carried, Collects};

use crate::types::Collected;

// Copies a part of a piece to the place `at`.
pub fn carry(kept: &mut Collected, at: u64, part: &[u8])
    requires { at + length part.now ≤ 64 }
    ensures { Carried kept.old at part.now kept.new }
{
    let base = at as usize;
    // No `copy_from_slice`: for that the archive for C would need `memmove` from outside.
    for (j, byte) in part.iter().enumerate() {
        kept[base + j] = *byte;
    }
}

// Of a part of a cell, its first byte being the cell's byte `got`: the bytes that are among the cell's first six.
pub fn collect(kept: &mut Collected, got: u64, part: &[u8])
    ensures { Collects kept.old got part.now kept.new }
{
    if got < 6 {
        let room = 6 - got as usize;
        carry(kept, 58 + got, &part[..part.len().min(room)]);
    }
}
