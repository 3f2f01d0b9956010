// Questions that are asked of a sample while it is fed, the index and the repeats of a passage, and what they have in
// common with a seal. A question changes no state.
#![tactic(auto)]

ghost use Rattle.std.specs.Prelude.{◌%◌, ◌^◌, ◌≡◌};
ghost use Rattle.rules.specs.Refusals.{answer};
ghost use Rattle.sample_questions.specs.WhileFeeding.{kept_as};
ghost use Rattle.index.specs.Counts.{IndexFrom};

mod passage;
mod while_feeding;

pub use passage::repeats;
use rules::{Index, Refusal};
pub use while_feeding::index;

// The refusal that is kept on a side, with a number of the table; number 0 says that none is.
pub fn standing(number: u64, place: u64) -> Result<(), Refusal>
    ensures { result ≡ answer (kept_as number place) tt }
{
    if number != 0 {
        return Err(Refusal {
            number: figures::listed_number(number),
            place,
        });
    }
    Ok(())
}

// The index of what was fed, from what the two sides count: a seal and an index call take it here. Zeros of counts
// that no sample has.
pub fn index_in(unrepeated: u64, pictures: u64, packets: u64, lost: u64) -> Index
    ensures { IndexFrom (unrepeated % 2 ^ 32) (pictures % 2 ^ 32) (packets % 2 ^ 32) (lost % 2 ^ 32) result }
{
    index::index_from(
        figures::low(unrepeated),
        figures::low(pictures),
        figures::low(packets),
        figures::low(lost),
    )
}
