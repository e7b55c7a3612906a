// Truncation of a number under an image (document 01: Images, second paragraph).
ghost use Rattle.std.specs.Prelude.{◌≡◌, ◌+◌, ◌-◌, ◌*◌, ◌/◌, ◌^◌, ◌<◌, ◌≤◌, ℕ, true, IfOk};
ghost use Rattle.decimal.specs.Answer.{done, meaning, mapped, checked_only};
ghost use Rattle.decimal.specs.CutMeaning.{said_by_cut, truncated_of};
ghost use Rattle.decimal.specs.Digits.{precision, digits_of, packed_of};
ghost use Rattle.decimal.specs.Number.{exponent_limit, normal};
ghost use Rattle.decimal.specs.Truncation.{
  is_signed,
  exceeds as exceedsImage,
  exponent_outside,
  stored_exponent,
  kept_count,
  kept_number,
  dropped_count,
  whole_of,
  limited,
  truncation,
  packed_truncation,
  truncated_number,
  number_of,
};

use crate::cut::{Cut, Fitting};
use crate::digits::{PRECISION, packed_digits};
use crate::image::{CheckedImage, Image, Sign};
use crate::number::{EXPONENT_LIMIT, EXPONENT_TOP, Number};
use crate::powers::power_of_ten;
use crate::refusal::{Reason, Refusal};

// The count of digits before the point of a nonzero number; a number below 1 has none.
fn integer_digits(exponent: usize) -> usize
    requires { exponent ≤ 2 * exponent_limit }
    ensures { result ≡ exponent + 1 - exponent_limit }
{
    (exponent + 1).saturating_sub(EXPONENT_LIMIT)
}

// Whether a number exceeds a fixed-point image.
#[tactic(auto, using(crate::proofs::NumberLaws::normal_range, crate::proofs::NumberLaws::normal_is_zero, crate::proofs::TruncationLaws::exceeds_zero, crate::proofs::TruncationLaws::exceeds_range))]
fn exceeds(image: Image, number: Number) -> bool
    requires { normal number ≡ true }
    ensures { result ≡ exceedsImage image number }
{
    number.mantissa != 0 && usize::from(image.integer) < integer_digits(number.exponent)
}

// Whether the stored exponent of a number under an exponential image is outside its limits.
#[tactic(auto, using(crate::proofs::NumberLaws::normal_top), unfolding(crate::specs::Truncation::exponent_outside))]
fn exponent_outside(image: Image, number: Number) -> bool
    requires { normal number ≡ true }
    ensures { result ≡ exponent_outside image number }
{
    if number.mantissa == 0 {
        false
    } else {
        let high = number.exponent + 1;
        let integer = usize::from(image.integer);
        high < integer || EXPONENT_TOP < high - integer
    }
}

// Whether a number in normal form is within an image's limits: refused with 5 by an exponential image, with 4 by another.
#[tactic(auto, unfolding(crate::specs::Truncation::limited, crate::specs::Answer::checked_only))]
fn limits(image: Image, number: Number, place: usize) -> Result<(), Refusal>
    requires { normal number ≡ true }
    ensures { meaning result ≡ checked_only (limited place image number) }
{
    if image.exponential && exponent_outside(image, number) {
        Err(Refusal {
            reason: Reason::ExponentOutside,
            place,
        })
    } else if !image.exponential && exceeds(image, number) {
        Err(Refusal {
            reason: Reason::Exceeds,
            place,
        })
    } else {
        Ok(())
    }
}

impl CheckedImage {
    // The number with the image that it fits; refused with 3, then with 5 by an exponential image, with 4 by another.
    pub fn fitting(self, number: Number, place: usize) -> Result<Fitting, Refusal>
        ensures answer { mapped truncated_of (meaning result) ≡ truncation place self.image number }
        ensures parts { IfOk result (λ fitting. (fitting.image ≡ self.image) × (fitting.number ≡ number)) }
    {
        number.checked(place)?;
        limits(self.image, number, place)?;
        Ok(Fitting {
            image: self.image,
            number,
        })
    }

    // The same of a number that is to be packed: an unsigned exponential image also refuses a negative x, with 5.
    pub fn fitting_packed(self, number: Number, place: usize) -> Result<Fitting, Refusal>
        ensures answer { mapped truncated_of (meaning result) ≡ packed_truncation place self.image number }
        ensures parts { IfOk result (λ fitting. (fitting.image ≡ self.image) × (fitting.number ≡ number)) }
    {
        let fitting = self.fitting(number, place)?;
        let below = fitting.stored_exponent() < EXPONENT_LIMIT;
        if below && !is_signed(self.image.sign) {
            return Err(Refusal {
                reason: Reason::ExponentOutside,
                place,
            });
        }
        Ok(fitting)
    }
}

impl Image {
    // The number with the image that it fits; refused with 1 or 2 for the image, 3 for the number, 4 or 5 for the two.
    pub(crate) fn fitting(self, number: Number, place: usize) -> Result<Fitting, Refusal>
        ensures answer { mapped truncated_of (meaning result) ≡ truncation place self number }
        ensures parts { IfOk result (λ fitting. (fitting.image ≡ self) × (fitting.number ≡ number)) }
    {
        self.checked(place)?.fitting(number, place)
    }
}

// Whether an image has a sign.
fn is_signed(sign: Sign) -> bool
    ensures { result ≡ is_signed sign }
{
    sign != Sign::Unsigned
}

impl Fitting {
    // The stored exponent x, plus EXPONENT_LIMIT; x is 0 in fixed point and for zero.
    #[tactic(auto, using(crate::proofs::NumberLaws::normal_top), unfolding(crate::specs::Truncation::stored_exponent))]
    fn stored_exponent(&self) -> usize
        ensures { result ≡ stored_exponent self.now.image self.now.number }
    {
        if self.number.mantissa != 0 && self.image.exponential {
            self.number.exponent + 1 - usize::from(self.image.integer)
        } else {
            EXPONENT_LIMIT
        }
    }

    // The count of the mantissa's first digits that the image keeps.
    #[tactic(auto, using(crate::proofs::NumberLaws::normal_top), unfolding(crate::specs::Truncation::kept_count))]
    fn kept_count(&self) -> usize
        ensures { result ≡ kept_count self.now.image self.now.number }
    {
        if self.number.mantissa == 0 {
            0
        } else if self.image.exponential {
            self.image.hashes()
        } else {
            let end = self.number.exponent + usize::from(self.image.fraction) + 1;
            end.saturating_sub(EXPONENT_LIMIT)
        }
    }

    // Whether the truncation is negative: the image has a sign, the number is below zero, and some digit is kept.
    #[tactic(auto, unfolding(crate::specs::Truncation::kept_number))]
    fn keeps_minus(&self) -> bool
        ensures { result ≡ (kept_number self.now.image self.now.number).negative }
    {
        let keeps_digit = 0 < self.kept_count();
        is_signed(self.image.sign) && keeps_digit && self.number.negative
    }

    // The digits kept as the last half bytes of a number; zeros before them.
    fn kept_halves(&self) -> u64
        ensures { result ≡ packed_of (digits_of precision (whole_of self.now.image self.now.number)) }
    {
        packed_digits(self.number.mantissa, self.kept_count())
    }

    // The worth of the last digit kept, counted in the mantissa's last digit.
    #[tactic(auto, using(crate::proofs::KeptLaws::kept_size))]
    pub(crate) fn unit(&self) -> u64
        ensures { result ≡ 10 ^ dropped_count self.now.image self.now.number }
    {
        power_of_ten(PRECISION - self.kept_count())
    }

    // The mantissa with zeros for the digits that are not kept.
    #[tactic(auto, unfolding(crate::specs::Truncation::kept_number))]
    fn cut_mantissa(&self) -> u64
        ensures { result ≡ (kept_number self.now.image self.now.number).mantissa }
    {
        let unit = self.unit();
        whole_part(self.number.mantissa, unit) * unit
    }

    // The number cut to the image.
    #[inline(always)]
    pub fn cut(&self) -> Cut
        ensures cut { said_by_cut result ≡ truncated_of self.now }
        ensures image { result.image ≡ self.now.image }
    {
        Cut {
            image: self.image,
            negative: self.keeps_minus(),
            halves: self.kept_halves(),
            x: self.stored_exponent(),
        }
    }

    // The number's truncation as a number.
    fn truncated(&self) -> Number
        ensures { (place : ℕ) → number_of place self.now.image (truncated_of self.now) ≡ done result }
    {
        if self.kept_count() == 0 {
            Number::ZERO
        } else {
            Number {
                negative: self.keeps_minus(),
                mantissa: self.cut_mantissa(),
                exponent: self.number.exponent,
            }
        }
    }
}

// A number cut to an image; refused with 1 or 2 for the image, 3 for the number, 4 or 5 for the two.
pub fn cut_number(image: Image, number: Number, place: usize) -> Result<Cut, Refusal>
    ensures cut { mapped said_by_cut (meaning result) ≡ truncation place image number }
    ensures image { IfOk result (λ cut. cut.image ≡ image) }
{
    Ok(image.fitting(number, place)?.cut())
}

// The whole part of a mantissa in units of a power of ten: the digits before the unit's, the rest cut off and not rounded.
fn whole_part(mantissa: u64, unit: u64) -> u64
    requires { (mantissa < 10 ^ precision) × (0 < unit) × (unit ≤ 10 ^ precision) }
    ensures { result ≡ mantissa / unit }
{
    mantissa / unit
}

// A number's truncation under an image as a number; refused as cut_number is.
pub fn truncated(image: Image, number: Number, place: usize) -> Result<Number, Refusal>
    ensures { meaning result ≡ truncated_number place image number }
{
    Ok(image.fitting(number, place)?.truncated())
}
