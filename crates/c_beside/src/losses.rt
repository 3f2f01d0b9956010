// How far a loss spreads, as a C function.
ghost use Rattle.std.specs.Prelude.{◌≡◌};
ghost use Rattle.rules.specs.EffectiveLoss.{both, loss_answer, filled};
ghost use Rattle.c_numbers.specs.Numbers.{number_of};

use c_numbers::number_of;

// Fills the two lent lists with the effective loss at each unit: of key-frame losses, and of plain ones.
// The place of 22 and 23 is 0; a refusal leaves both lists as they were.
#[unsafe(no_mangle)]
pub extern "C" fn carolsedge_effective_loss(
    units: u32,
    losses: &[u32],
    probabilities: &[f64],
    keys: &mut [f64],
    plain: &mut [f64],
) -> u32
    ensures numbered { result ≡ number_of (loss_answer units losses.now probabilities.now
        (both keys.old plain.old)) }
    ensures lists { both keys.new plain.new ≡
        filled units losses.now probabilities.now
        (both keys.old plain.old) }
{
    let a = loss::effective_loss(units, losses, probabilities, keys, plain);
    number_of(a)
}
