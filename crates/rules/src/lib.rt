// The types that the rules of document 01 speak of. The rules themselves are specs/, one file a
// chapter, in document 01's order.
#![tactic(auto)]

mod refusals;

pub use refusals::{LAST_NUMBER, Refusal};

// What a sample is opened with: width W, height H, display time d of a picture in microseconds, packet identifier PID,
// and the edition of the rules that it is measured by (document 02, R-2).
#[derive(Clone, Copy)]
pub struct Opening {
    pub width: u32,
    pub height: u32,
    pub time: u32,
    pub pid: u32,
    pub edition: u32,
}

// What reading a cell says of it (document 02, R-6): it starts with 0x47 and is undamaged, it starts with 0x47 and is
// marked as damaged, or it does not start with 0x47.
#[derive(Clone, Copy, Debug, PartialEq, Eq)]
pub enum Condition {
    Good,
    Damaged,
    Bad,
}

// A row of the units, 32 bytes of the record.
#[derive(Clone, Copy)]
pub struct UnitRow {
    pub least: u64, // 0: least time
    pub greatest: u64, // 8: greatest time
    pub size: u32, // 16: 184 for each packet
    pub packets: u32, // 20: cells
    pub lost: u32, // 24
    pub damaged: u32, // 28: damaged cells (document 02, R-6); 0 in editions 1 to 3
}

// A row of the scenes, 32 bytes of the record; word 28 is 0.
#[derive(Clone, Copy)]
pub struct SceneRow {
    pub first: u32, // 0: first picture
    pub pictures: u32, // 4
    pub repeated: u32, // 8
    pub longest: u32, // 12: longest run of repeated ones
    pub score: u32, // 16: sum of s
    pub peak: u32, // 20: greatest s
    pub change: u32, // 24: sum of q
}

// The index travels with its two parts.
#[derive(Clone, Copy)]
pub struct Index {
    pub ic: f64,
    pub ip: f64,
    pub value: f64,
}

// The figures of a record's header. The record's length (4) and the rows' offsets (12, 20) follow from these.
#[derive(Clone, Copy)]
pub struct Header {
    pub edition: u32, // 0
    pub units: u32, // 8
    pub scenes: u32, // 16
    pub width: u32, // 24: W
    pub height: u32, // 28: H
    pub time: u32, // 32: d
    pub pid: u32, // 36: PID
    pub pictures: u32, // 40: N
    pub frames: u32, // 44: capture records
    pub skipped: u32, // 48: records passed over
    pub bad: u32, // 52: bad cells
    pub index: u64, // 56: the index's f64 bits
}

// What a survey finds: the identifier with most good packets and how many it has (document 02, R-4).
#[derive(Clone, Copy)]
pub struct Most {
    pub identifier: u64,
    pub count: u64,
}

// A loss that spreads over units (document 02, R-8) is either a key-frame loss or a plain loss, each with its amount.
#[derive(Clone, Copy)]
pub enum Loss {
    KeyFrame(f64),
    Plain(f64),
}

// What a shelf holds (R-13): how many records, and how many cells they lost.
#[derive(Clone, Copy)]
pub struct ShelfTotals {
    pub records: usize,
    pub lost: u64,
}

// Where a record starts and ends in its shelf.
#[derive(Clone, Copy)]
pub struct Part {
    pub start: usize,
    pub end: usize,
}
