// What truncation cuts off a number (document 02, (ii)).
ghost use Rattle.std.specs.Prelude.{◌≡◌, ◌%◌, ◌<◌};
ghost use Rattle.decimal.specs.Answer.{meaning};
ghost use Rattle.decimal.specs.Remainder.{remainder, cut_off, zero_remainder};
ghost use Rattle.decimal.specs.CutMeaning.{truncated_of};

use crate::cut::Fitting;
use crate::image::Image;
use crate::number::{Number, SCALE};
use crate::refusal::Refusal;

// The exact remainder of a number under an image: truncated magnitude plus r * 10^power is the magnitude. The field whole holds document
// 02's r, which is below 10^PRECISION; the field power holds power + SCALE, where power is e - (PRECISION - 1).
#[derive(Clone, Copy, Debug, PartialEq, Eq, Hash)]
pub struct Remainder {
    pub whole: u64,
    pub power: usize,
}

impl Remainder {
    // The remainder of the number zero: r = 0 with the power 0.
    pub const ZERO: Remainder = Remainder {
        whole: 0,
        power: SCALE,
    };
}

// By hand, since a derived power of 0 is not that of zero.
impl Default for Remainder {
    ghost is_default = { λ r. r ≡ zero_remainder };

    // The remainder of zero.
    fn default() -> Remainder {
        Remainder::ZERO
    }
}

// The part of a mantissa below a unit: what is left of it without its whole part in that unit.
fn part_below(mantissa: u64, unit: u64) -> u64
    requires { 0 < unit }
    ensures { result ≡ mantissa % unit }
{
    mantissa % unit
}

impl Fitting {
    // What truncation cuts off the number: r and its power, which is 0 for the number zero alone.
    #[tactic(auto, using(crate::proofs::PowerLaws::pow10_pos, crate::proofs::RemainderLaws::power_zero, crate::proofs::RemainderLaws::power_some, crate::proofs::RemainderLaws::cut_last), unfolding(crate::specs::Remainder::cut_off))]
    pub fn remainder(&self) -> Remainder
        ensures { result ≡ cut_off self.now.image self.now.number (truncated_of self.now) }
    {
        let number = self.number;
        let whole = part_below(number.mantissa, self.unit());
        let is_zero = number.mantissa == 0;
        let power = if is_zero { SCALE } else { number.exponent };
        Remainder { whole, power }
    }
}

// What truncation under an image cuts off a number; refused as cut_number is.
pub fn remainder_of(image: Image, number: Number, place: usize) -> Result<Remainder, Refusal>
    ensures { meaning result ≡ remainder place image number }
{
    Ok(image.fitting(number, place)?.remainder())
}
