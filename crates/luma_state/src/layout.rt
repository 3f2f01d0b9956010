// What lies where in the words, and how many of each there are.
pub const STATUS: usize = 0; // the number of the refusal that holds, 0: none

pub const PLACE: usize = 1; // and its place

pub const FED: usize = 2; // bytes fed

pub const COUNT: usize = 3; // whole pictures

pub const FRESH: usize = 4; // those of them that are not repeated

pub const LINE: usize = 5; // of the current picture: block rows that are done

pub const ROW: usize = 6; // the row in the current block row

pub const COL: usize = 7; // the column

pub const LEFT: usize = 8; // bytes left of the surplus rows

pub const UPS: usize = 9; // how its pixels moved so far: rises,

pub const DOWNS: usize = 10; // falls,

pub const SQUARES: usize = 11; // and squares

pub const WIDTH: usize = 12; // the opening's values

pub const HEIGHT: usize = 13;

pub const TIME: usize = 14;

pub const PID: usize = 15;

pub const EDITION: usize = 16;

pub const KEPT: usize = 17; // the smaller of two differences that the next cut score needs again

pub const REPEATS: usize = 64; // the map of repeats, a bit a picture

pub const SCORES: usize = 100; // the cut scores, a word a picture

pub const SETTLED: usize = SCORES - 2; // the score that a picture settles, that of the picture two before it

pub const CHANGES: usize = SCORES + PICTURES; // the changes, a word a picture

pub const WORDS: usize = CHANGES + PICTURES;

// The most pictures of a sample, and how many of them a word of the map has.
pub const PICTURES: usize = 750;

pub const MAP_BITS: usize = 64;

// The luma side's words.
pub type Words = [u64; WORDS];
