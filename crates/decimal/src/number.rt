// The number type, its constants, its constructors and its normal-form test (document 01: Numbers).
ghost use Rattle.std.specs.Prelude.{◌≡◌, ◌*◌, ◌^◌, ◌<◌, ◌≤◌, true, OnOk};
ghost use Rattle.decimal.specs.Digits.{precision, leading_zeros};
ghost use Rattle.decimal.specs.Answer.{meaning};
ghost use Rattle.decimal.specs.Number.{zero_number, largest_number, normal, check_number, new_number, parts_number, scaled_number, steps_number};

use crate::digits::PRECISION;
use crate::powers::power_of_ten;
use crate::refusal::{Reason, Refusal};

// The largest decimal exponent; the smallest is its negative.
pub const EXPONENT_LIMIT: usize = 99;

// The largest decimal exponent, signed.
const EXPONENT_HIGH: i64 = EXPONENT_LIMIT as i64;

// The smallest decimal exponent.
const EXPONENT_LOW: i64 = -EXPONENT_HIGH;

// The largest value that the field exponent of a normal number holds.
pub(crate) const EXPONENT_TOP: usize = 2 * EXPONENT_LIMIT;

// Every magnitude is a whole multiple of 10^-SCALE.
pub const SCALE: usize = EXPONENT_LIMIT + (PRECISION - 1);

// The smallest mantissa of a nonzero number is 10^LOW_EXPONENT.
const LOW_EXPONENT: usize = PRECISION - 1;

// That power, as a product over the binary digits of LOW_EXPONENT, which is below 16: a constant's value can't have a call.
const MANTISSA_LOW: u64 = [1, 10][LOW_EXPONENT & 1]
    * [1, 100][LOW_EXPONENT >> 1 & 1]
    * [1, 10_000][LOW_EXPONENT >> 2 & 1]
    * [1, 100_000_000][LOW_EXPONENT >> 3 & 1];

// The first number above all mantissas.
const MANTISSA_END: u64 = 10 * MANTISSA_LOW;

// A number: sign, mantissa and exponent. The field exponent holds e + EXPONENT_LIMIT, where e is document 01's exponent.
// The magnitude is mantissa * 10^(e - (PRECISION - 1)).
#[derive(Clone, Copy, Debug, PartialEq, Eq, Hash)]
pub struct Number {
    pub negative: bool,
    pub mantissa: u64,
    pub exponent: usize,
}

// By hand, since a derived exponent of 0 stands for e = -99, and zero has another.
impl Default for Number {
    ghost is_default = { λ n. n ≡ zero_number };

    // Zero.
    fn default() -> Number {
        Number::ZERO
    }
}

impl Number {
    // Zero in normal form.
    pub const ZERO: Number = Number {
        negative: false,
        mantissa: 0,
        exponent: EXPONENT_LIMIT,
    };

    // The largest magnitude.
    pub const LARGEST: Number = Number {
        negative: false,
        mantissa: MANTISSA_END - 1,
        exponent: EXPONENT_TOP,
    };

    // The constant ZERO, by a function that has its contract: a constant has none, and a proof above can cite this one.
    pub fn zero() -> Number
        ensures { result ≡ zero_number }
    {
        Number::ZERO
    }

    // The constant LARGEST, by a function that has its contract, as zero for ZERO.
    pub fn largest() -> Number
        ensures { result ≡ largest_number }
    {
        Number::LARGEST
    }

    // Whether the number is in normal form.
    #[tactic(auto, unfolding(crate::specs::Number::normal))]
    pub fn is_normal(self) -> bool
        ensures { result ≡ normal self }
    {
        if self.mantissa == 0 {
            !self.negative && self.exponent == EXPONENT_LIMIT
        } else {
            (MANTISSA_LOW..MANTISSA_END).contains(&self.mantissa) && self.exponent <= EXPONENT_TOP
        }
    }

    // The number itself; refused with 3 where it is not in normal form.
    #[tactic(auto, unfolding(crate::specs::Number::check_number))]
    pub fn checked(self, place: usize) -> Result<Number, Refusal>
        ensures answer { meaning result ≡ check_number place self }
        ensures form { OnOk result (normal self ≡ true) }
    {
        let normal = self.is_normal();
        if normal {
            Ok(self)
        } else {
            Err(Refusal {
                reason: Reason::NotNormal,
                place,
            })
        }
    }

    // The number of a sign, a mantissa and e + EXPONENT_LIMIT; refused with 3 where that is not normal.
    pub fn new(
        negative: bool,
        mantissa: u64,
        exponent: usize,
        place: usize,
    ) -> Result<Number, Refusal>
        ensures { meaning result ≡ new_number place negative mantissa exponent }
    {
        let number = Number {
            negative,
            mantissa,
            exponent,
        };
        number.checked(place)
    }

    // The number of a sign, a mantissa and document 01's exponent e, any value of it; refused with 3 where that is not normal.
    #[tactic(auto, using(crate::proofs::PartsLaws::parts_above), unfolding(crate::specs::Number::parts_number))]
    pub fn from_parts(
        negative: bool,
        mantissa: u64,
        exponent: i64,
        place: usize,
    ) -> Result<Number, Refusal>
        ensures { meaning result ≡ parts_number place negative mantissa exponent }
    {
        if exponent < EXPONENT_LOW || EXPONENT_HIGH < exponent {
            return Err(Refusal {
                reason: Reason::NotNormal,
                place,
            });
        }
        Number::new(
            negative,
            mantissa,
            (exponent + EXPONENT_HIGH) as usize,
            place,
        )
    }

    // The number with the magnitude whole * 10^up / 10^down, in normal form; zero is plus whatever the sign.
    // Refused with 3 where whole has more than PRECISION digits, zeros at its end too, with 5 where e is outside its limits.
    #[tactic(auto, using(crate::proofs::DigitLaws::leading_at_most, crate::proofs::NumberLaws::shifted_below, crate::proofs::NumberLaws::shifted_above, crate::proofs::NumberLaws::shifted_done), unfolding(crate::specs::Number::scaled_number))]
    pub fn from_scaled(
        negative: bool,
        whole: u64,
        up: u16,
        down: u16,
        place: usize,
    ) -> Result<Number, Refusal>
        ensures { meaning result ≡ scaled_number place negative whole up down }
    {
        if MANTISSA_END <= whole {
            return Err(Refusal {
                reason: Reason::NotNormal,
                place,
            });
        }
        if whole == 0 {
            return Ok(Number::ZERO);
        }
        let shifted = shift_left(whole);
        let high = SCALE + usize::from(up);
        let low = usize::from(down) + shifted.zeros;
        let outside = high < low || EXPONENT_TOP < high - low;
        if outside {
            return Err(Refusal {
                reason: Reason::ExponentOutside,
                place,
            });
        }
        Ok(Number {
            negative,
            mantissa: shifted.mantissa,
            exponent: high - low,
        })
    }

    // The number of a whole count of wheel steps, exact below 10^PRECISION; any other count is refused with 3.
    pub fn from_steps(steps: u64) -> Result<Number, Refusal>
        ensures { meaning result ≡ steps_number steps }
    {
        Number::from_scaled(false, steps, 0, 0, 0)
    }
}

// A whole number multiplied by a power of ten: the product, and the exponent of that power.
#[derive(Clone, Copy)]
struct Shifted {
    mantissa: u64,
    zeros: usize,
}

// A nonzero whole number below 10^PRECISION without the zeros before it, written with PRECISION digits, and how many they were.
#[tactic(auto, using(crate::proofs::NumberLaws::log_few, crate::proofs::NumberLaws::log_zeros, crate::proofs::NumberLaws::log_fits))]
fn shift_left(whole: u64) -> Shifted
    requires { (0 < whole) × (whole < 10 ^ precision) }
    ensures { (result.zeros ≡ leading_zeros precision whole) × (result.mantissa ≡ whole * 10 ^ leading_zeros precision whole) }
{
    let zeros = PRECISION - 1 - whole.ilog10() as usize;
    Shifted {
        mantissa: whole * power_of_ten(zeros),
        zeros,
    }
}
