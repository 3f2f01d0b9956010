// Refusals' numbers.
ghost use Rattle.std.specs.Prelude.{◌≡◌};
ghost use Rattle.rules.specs.Refusals.{listed};

// A refusal's number, one of the rules' table. Only a state that somebody else wrote on can hold another.
pub fn listed_number(number: u64) -> u64
    ensures { result ≡ listed number }
{
    if (1..=rules::LAST_NUMBER).contains(&number) {
        number
    } else {
        18
    }
}
