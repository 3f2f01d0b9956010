// The index while feeding (document 02, R-7): it reads the totals and the refusals kept, and no row.
ghost use Rattle.sample_questions.specs.WhileFeeding.{IndexPost};

use crate::{index_in, standing};
use capture::Numbers;
use rules::{Index, Refusal};

// The index of all whole pictures and all whole cells fed so far, those of an unfinished record among them; or its
// refusal.
pub fn index(numbers: &Numbers, luma: &luma::Words) -> Result<Index, Refusal>
    ensures { IndexPost numbers.now luma.now result }
{
    let c = capture::totals_in(numbers);
    let l = luma::totals_in(luma);
    standing(c.number, c.place)?;
    standing(l.number, l.place)?;
    if c.packets == 0 {
        return Err(Refusal::NO_PACKET);
    }
    if l.pictures == 0 {
        return Err(Refusal::NO_PICTURE);
    }
    Ok(index_in(l.fresh, l.pictures, c.packets, c.lost))
}
