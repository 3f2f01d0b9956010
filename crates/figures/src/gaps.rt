// Units: what a packet's counter shows as lost.
ghost use Rattle.figures.specs.Units.{GapLoss};

// g - 1 where g, the step between two counters modulo 16, exceeds 1. Of any number the low 4 bits count.
#[tactic(auto, unfolding(rules::specs::Units::gap_loss))]
pub fn gap_loss(before: u64, now: u64) -> u64
    ensures { GapLoss before now result }
{
    let g = (now % 16 + 16 - before % 16) % 16;
    g.saturating_sub(1)
}
