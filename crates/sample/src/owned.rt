// A sample in memory of its own, for programs: its eight arrays together. C lends each of them, and a C function
// hands them to the call of the crate's root.
ghost use Rattle.std.specs.Prelude.{◌≡◌};
ghost use Rattle.sample_questions.specs.State.{words_of};
ghost use Rattle.sample_questions.specs.WhileFeeding.{IndexPost};
ghost use Rattle.sample_questions.specs.Passage.{RepeatsPost};
ghost use Rattle.sample_seal.specs.Contract.{SealPost};
ghost use Rattle.sample.specs.Contract.{OpenPost};
ghost use Rattle.sample.specs.Owned.{unopened, state_of, CaptureFed, LumaFed};

use capture::Numbers;
use capture_units::Table;
use capture_walk::{Collected, WalkWords};
use rules::{Index, Opening, Refusal};

#[derive(Drop)]
pub struct Sample {
    walk: WalkWords,
    kept: Collected,
    numbers: Numbers,
    table: Table,
    luma: luma::Words,
    sums: luma::Sums,
    bins: luma::Bins,
    picture: luma::Picture,
}

impl Sample {
    // Not opened yet, all zeros: each call is safe on it.
    pub fn new() -> Sample
        ensures { result ≡ unopened }
    {
        Sample {
            walk: [0; capture_walk::WALK_WORDS],
            kept: [0; capture_walk::COLLECTED_BYTES],
            numbers: [0; capture::NUMBERS],
            table: [0; capture_units::TABLE_WORDS],
            luma: [0; luma::WORDS],
            sums: [0; luma::COLUMNS],
            bins: [0; luma::BINS],
            picture: [0; luma::PIXELS],
        }
    }

    pub fn open(&mut self, o: Opening) -> Result<u64, Refusal>
        ensures { OpenPost o result (state_of self.new) }
    {
        crate::open(
            &mut self.walk,
            &mut self.kept,
            &mut self.numbers,
            &mut self.table,
            &mut self.luma,
            &mut self.sums,
            &mut self.bins,
            &mut self.picture,
            o,
        )
    }

    pub fn feed_capture(&mut self, piece: &[u8]) -> Result<u64, Refusal>
        ensures { CaptureFed (state_of self.old) piece.now result (state_of self.new) }
    {
        crate::feed_capture(
            &mut self.walk,
            &mut self.kept,
            &mut self.numbers,
            &mut self.table,
            piece,
        )
    }

    pub fn feed_luma(&mut self, piece: &[u8]) -> Result<u64, Refusal>
        ensures { LumaFed (state_of self.old) piece.now result (state_of self.new) }
    {
        crate::feed_luma(
            &mut self.luma,
            &mut self.sums,
            &mut self.bins,
            &mut self.picture,
            piece,
        )
    }

    pub fn seal(&self, buffer: &mut [u8]) -> Result<u64, Refusal>
        ensures { SealPost (words_of (state_of self.now)) buffer.old result buffer.new }
    {
        crate::seal(
            &self.walk,
            &self.kept,
            &self.numbers,
            &self.table,
            &self.luma,
            buffer,
        )
    }

    pub fn index(&self) -> Result<Index, Refusal>
        ensures { IndexPost self.now.numbers self.now.luma result }
    {
        crate::index(&self.numbers, &self.luma)
    }

    pub fn repeats(&self, a: u32, b: u32) -> Result<u64, Refusal>
        ensures { RepeatsPost self.now.luma a b result }
    {
        crate::repeats(&self.luma, a, b)
    }
}
