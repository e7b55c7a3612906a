// Splitting a mantissa into its decimal digits, without dividing (document 02, (iv)).
ghost use Rattle.std.specs.Prelude.{◌≡◌, ◌+◌, ◌*◌, ◌^◌, ◌<◌, ◌≤◌, take};
ghost use Rattle.decimal.specs.Digits.{precision, digits_of, packed_of, subtraction_limit, digit_in, Subtracts, TakesDigit};

use crate::powers::power_of_ten;

// The digit count of a mantissa. Every bound on mantissas, images and text numbers derives from it.
pub const PRECISION: usize = 13;

// A digit that is being taken off a whole number, and how many subtractions were made for it. The last half byte of the word held is the
// digit, which counts the powers of ten taken off so far; what is left of the whole number stands before it.
#[derive(Clone, Copy)]
struct Taken {
    held: u64,
    subtractions: usize,
}

// Subtracts a multiple of a power of ten from what is left, where that is no less; counts the subtraction in either case.
// In the word held, taking off 16 powers less 1 takes one power off what is left and adds 1 to the digit.
fn subtract(taken: Taken, power: u64, times: u64) -> Taken
    requires bounds { (0 < power) × (16 * power < 2 ^ 64) × (16 * (times * power) < 2 ^ 64) }
    requires digit { digit_in taken.held + times < 16 }
    requires few { taken.subtractions < subtraction_limit }
    ensures { Subtracts power times taken result }
{
    let held = taken.held;
    let multiple = times * ((power << 4) - 1);
    let subtractions = taken.subtractions + 1;
    let is_less = held < multiple;
    if is_less {
        Taken { held, subtractions }
    } else {
        Taken {
            held: held - multiple,
            subtractions,
        }
    }
}

// Takes the first digit off a whole number below ten times a power of ten, by four subtractions, of 8, 4, 2 and 1 times the power.
// Not inlined, since inside a loop each comparison becomes a branch.
#[inline(never)]
#[tactic(auto, using(crate::proofs::SubtractionLaws::four_subtractions))]
fn take_digit(whole: u64, power: u64) -> Taken
    requires { (whole < 10 * power) × (10 * power < 2 ^ 60) }
    ensures { TakesDigit power whole result }
{
    let none = Taken {
        held: whole << 4,
        subtractions: 0,
    };
    let taken = subtract(subtract(subtract(none, power, 8), power, 4), power, 2);
    subtract(taken, power, 1)
}

// The first count digits of a mantissa as half bytes, the first digit highest.
// The digits so far stand behind what is left of the mantissa, so the powers are shifted by as many half bytes.
pub(crate) fn packed_digits(mantissa: u64, count: usize) -> u64
    requires { (mantissa < 10 ^ precision) × (count ≤ precision) }
    ensures { result ≡ packed_of (take count (digits_of precision mantissa)) }
{
    let mut held = mantissa;
    for done in 0..count {
        let left = PRECISION - (done + 1);
        held = take_digit(held, power_of_ten(left) << (4 * done)).held;
    }
    held & ((1 << (4 * count)) - 1)
}
