// What an answer is as numbers. The crates `c_..` have the calls as C functions, which give these.
#![tactic(auto)]

ghost use Rattle.std.specs.Prelude.{◌≡◌};
ghost use Rattle.rules.specs.Refusals.{listed};
ghost use Rattle.c_numbers.specs.Numbers.{number_of, value_of};

use rules::Refusal;

// A refusal's number.
pub fn listed_number(number: u64) -> u32
    ensures { result ≡ listed number }
{
    figures::listed_number(number) as u32
}

// 0 where the call is done, and otherwise the number of the rules' table.
pub fn number_of<T: Copy>(a: Result<T, Refusal>) -> u32
    ensures { result ≡ number_of a }
{
    match a {
        Ok(_) => 0,
        Err(e) => listed_number(e.number),
    }
}

// What the call answers, or the refusal's place.
pub fn value_of(a: Result<u64, Refusal>) -> u64
    ensures { result ≡ value_of a }
{
    match a {
        Ok(n) => n,
        Err(e) => e.place,
    }
}
