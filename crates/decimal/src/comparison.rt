// Comparison of numbers by value: sign and magnitude (document 01: Numbers).
ghost use Rattle.std.specs.Prelude.{◌≡◌, true};
ghost use Rattle.decimal.specs.Answer.{meaning};
ghost use Rattle.decimal.specs.Number.{normal, magnitude};
ghost use Rattle.decimal.specs.Comparison.{whole_order, value_order, comparison};

use crate::number::Number;
use crate::refusal::Refusal;
use std::cmp::Ordering;

// The order of two numbers by value; refused with 3 where one is not in normal form, with place 0 for the first, 1 for the second.
#[tactic(auto, using(crate::proofs::ComparisonLaws::compared, crate::proofs::ComparisonLaws::first_refused, crate::proofs::ComparisonLaws::second_refused))]
pub fn compare(first: Number, second: Number) -> Result<Ordering, Refusal>
    ensures { meaning result ≡ comparison first second }
{
    first.checked(0)?;
    second.checked(1)?;
    Ok(value_order(first, second))
}

// The order of two numbers in normal form: the signs decide where they differ, else the magnitudes.
#[tactic(auto, using(crate::proofs::ComparisonLaws::minus_first, crate::proofs::ComparisonLaws::minus_second, crate::proofs::ComparisonLaws::minus_both, crate::proofs::ComparisonLaws::minus_none))]
fn value_order(first: Number, second: Number) -> Ordering
    requires { (normal first ≡ true) × (normal second ≡ true) }
    ensures { result ≡ value_order first second }
{
    match (first.negative, second.negative) {
        (true, false) => Ordering::Less,
        (false, true) => Ordering::Greater,
        (false, false) => magnitude_order(first, second),
        (true, true) => magnitude_order(second, first),
    }
}

// The order of the magnitudes of two numbers in normal form: zero is least; else the exponents decide, then the mantissas.
#[tactic(auto, using(crate::proofs::ComparisonLaws::zero_decides, crate::proofs::ComparisonLaws::exponents_first), unfolding(crate::specs::Comparison::whole_order))]
fn magnitude_order(first: Number, second: Number) -> Ordering
    requires { (normal first ≡ true) × (normal second ≡ true) }
    ensures { result ≡ whole_order (magnitude first) (magnitude second) }
{
    let digits = first.mantissa.cmp(&second.mantissa);
    if first.mantissa == 0 || second.mantissa == 0 {
        return digits;
    }
    first.exponent.cmp(&second.exponent).then(digits)
}
