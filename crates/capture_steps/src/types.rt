// The walk's numbers, and what a step of it tells.
use capture_cells::Cell;

// The walk's lent memory: its numbers, and the bytes that it collects, 58 of a frame and six of a cell.
pub const WALK_WORDS: usize = 16;

pub type WalkWords = [u64; WALK_WORDS];

pub const COLLECTED_BYTES: usize = 64;

pub type Collected = [u8; COLLECTED_BYTES];

// status, place: the refusal that there is, or 0: a number and no Option, since a walk is the lent words as they lie
// (`loaded`). fed: bytes fed; at: bytes of the frame that are there; size: its stored length L; got: bytes that are
// there of the cell under way; left: the frame's cells that are not whole yet; frames, skipped: whole frames, and
// those of them that do not carry.
#[derive(Clone, Copy)]
pub struct Walk {
    pub status: u64,
    pub place: u64,
    pub fed: u64,
    pub at: u64,
    pub size: u64,
    pub got: u64,
    pub left: u64,
    pub frames: u64,
    pub skipped: u64,
}

// Cells that lie whole in the piece, one after the other: the first starts at byte `at` of the piece, and at the
// offset `place` of the capture.
#[derive(Clone, Copy)]
pub struct Run {
    pub at: usize,
    pub many: u64,
    pub time: u64,
    pub place: u64,
}

// `Nothing` is a case here, and no None of an Option: a step always tells one of these five.
#[derive(Clone, Copy)]
pub enum Event {
    // no cell is shown or whole by these bytes
    Nothing,
    // byte 3 of a cell is there
    Shown(Cell),
    // a cell that was shown is whole
    Whole(Cell),
    // cells are shown and whole at once
    Cells(Run),
    // there is a refusal: the walk's status and place
    Refused,
}

// How many bytes a step took, the walk after them, and what they brought.
#[derive(Drop)]
pub struct Step {
    pub taken: usize,
    pub walk: Walk,
    pub event: Event,
}
