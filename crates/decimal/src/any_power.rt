// The power of ten of any exponent.
ghost use Rattle.std.specs.Prelude.{◌≡◌};
ghost use Rattle.decimal.specs.Digits.{power_of_ten};

use crate::powers;

// Ten to the power of an exponent below 20; 0 for a larger exponent, whose power no u64 holds.
#[tactic(auto, using(crate::proofs::PowerLaws::power_small, crate::proofs::PowerLaws::power_large))]
pub fn power_of_ten(exponent: usize) -> u64
    ensures { result ≡ power_of_ten exponent }
{
    if exponent < 20 {
        powers::power_of_ten(exponent)
    } else {
        0
    }
}
