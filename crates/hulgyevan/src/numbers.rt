// Numbers: the calls of the layer decimal.
ghost use Rattle.std.specs.Prelude.{◌≡◌};
ghost use Rattle.decimal.specs.Answer.{mapped};
ghost use Rattle.decimal.specs.Number.{parts_number, scaled_number};
ghost use Rattle.decimal.specs.Comparison.{comparison};
ghost use Rattle.hulgyevan.specs.Words.{number_in, word_of};
ghost use Rattle.hulgyevan.specs.Outcomes.{outcome, value_or};
ghost use Rattle.hulgyevan.specs.Bodies.{order_word};

use crate::words::{give_number, number_of, refusal_word};
use decimal::{Number, compare};
use std::cmp::Ordering;

// The number of a sign, a mantissa and document 01's exponent e, any value of it; refused with 3 where that is not normal.
#[unsafe(no_mangle)]
pub extern "C" fn hulgyevan_from_parts(
    negative: bool,
    mantissa: u64,
    exponent: i64,
    number: &mut u64,
) -> u64
    ensures word { result ≡ outcome (parts_number 0 negative mantissa exponent) }
    ensures number { number.new ≡ value_or (mapped word_of (parts_number 0 negative mantissa exponent)) number.old }
{
    give_number(Number::from_parts(negative, mantissa, exponent, 0), number)
}

// The number of a whole count of wheel steps, minus where that is asked and the count is not zero; refused with 3 from 10^13 on.
#[unsafe(no_mangle)]
pub extern "C" fn hulgyevan_from_steps(negative: bool, steps: u64, number: &mut u64) -> u64
    ensures word { result ≡ outcome (scaled_number 0 negative steps 0 0) }
    ensures number { number.new ≡ value_or (mapped word_of (scaled_number 0 negative steps 0 0)) number.old }
{
    give_number(Number::from_scaled(negative, steps, 0, 0, 0), number)
}

// An order as a word: 0 below, 1 equal, 2 above.
fn order_word(order: Ordering) -> u64
    ensures { result ≡ order_word order }
{
    match order {
        Ordering::Less => 0,
        Ordering::Equal => 1,
        Ordering::Greater => 2,
    }
}

// The order of two numbers by value; refused with 3 where one is not in normal form, with place 0 for the first, 1 for the second.
#[tactic(auto, unfolding(crate::specs::Outcomes::outcome, crate::specs::Outcomes::value_or, decimal::specs::Answer::mapped))]
#[unsafe(no_mangle)]
pub extern "C" fn hulgyevan_compare(first: u64, second: u64, order: &mut u64) -> u64
    ensures word { result ≡ outcome (comparison (number_in first) (number_in second)) }
    ensures order { order.new ≡ value_or (mapped order_word (comparison (number_in first) (number_in second))) order.old }
{
    match compare(number_of(first), number_of(second)) {
        Ok(found) => {
            *order = order_word(found);
            0
        }
        Err(refusal) => refusal_word(refusal),
    }
}
