// Repeats in a passage (document 02, R-12): counted in the map that is kept while feeding.
ghost use Rattle.sample_questions.specs.Passage.{RepeatsPost};

use crate::standing;
use rules::Refusal;

// How many pictures from a up to but without b are repeated, of all whole pictures fed so far; or the opening's
// number, or 26. No refusal of a feed stops it.
pub fn repeats(luma: &luma::Words, a: u32, b: u32) -> Result<u64, Refusal>
    ensures { RepeatsPost luma.now a b result }
{
    let o = luma::opening_in(luma);
    standing(figures::opening_fault(o), 0)?;
    let l = luma::totals_in(luma);
    luma_passage::passage(luma, l.pictures as usize, a as usize, b as usize)
}
