// A number cut to an image, and the digits of a column.
ghost use Rattle.std.specs.Prelude.{true, ltb, eqb, ◌≡◌, ◌*◌, ◌^◌, ◌<◌, ◌≤◌};
ghost use Rattle.decimal.specs.Answer.{done};
ghost use Rattle.decimal.specs.CutMeaning.{said_by_cut};
ghost use Rattle.decimal.specs.Digits.{precision, value_of, packed_of, halves_in};
ghost use Rattle.decimal.specs.Truncation.{number_of};
ghost use Rattle.decimal.specs.Image.{hashes};
ghost use Rattle.decimal.specs.Number.{exponent_limit};
ghost use Rattle.codec.specs.Columns.{Checked};
ghost use Rattle.codec.specs.Cuts.{DigitsOf, whole_in, outside};
ghost use Rattle.codec.specs.Unpacking.{all_digits, breaks_rules};

use decimal::{Cut, EXPONENT_LIMIT, Image, Number, PRECISION};

// A column's digits, none above 9, and its sign half.
#[derive(Clone, Copy)]
pub(crate) struct ColumnDigits {
    pub(crate) image: Image,
    pub(crate) sign: u8,
    pub(crate) digits: u64,
    ghost checked: { Checked image },
    ghost are: { DigitsOf (hashes image) digits },
}

impl ColumnDigits {
    // Whether all are 0.
    #[tactic(auto, using(crate::proofs::CutLaws::zero_tested))]
    fn is_zero(&self) -> bool
        ensures { result ≡ eqb (whole_in (hashes self.now.image) self.now.digits) 0 }
    {
        self.digits == 0
    }

    // Whether the first is 0.
    #[tactic(auto, using(crate::proofs::CutLaws::first_tested))]
    fn begins_with_zero(&self) -> bool
        ensures { result ≡ ltb (whole_in (hashes self.now.image) self.now.digits * 10) (10 ^ hashes self.now.image) }
    {
        self.digits >> (4 * (self.image.hashes() - 1)) == 0
    }

    // Whether the parts and |x| break a rule.
    #[tactic(auto, unfolding(crate::specs::Unpacking::breaks_rules))]
    pub(crate) fn breaks_rules(&self, size: usize) -> bool
        ensures { result ≡ breaks_rules self.now.image self.now.sign (whole_in (hashes self.now.image) self.now.digits) size }
    {
        let zero = self.is_zero();
        if self.sign == 0 && size == 0 {
            return self.image.exponential && !zero && self.begins_with_zero();
        }
        2 <= self.sign & 7
            || self.sign & 7 == 1 && zero
            || 8 <= self.sign && size == 0
            || zero && 1 <= size
            || self.image.exponential && !zero && self.begins_with_zero()
    }
}

// Whether the exponent of a number cut so is outside its limits.
pub(crate) fn is_outside(image: Image, x: usize) -> bool
    requires { x ≤ 2 * exponent_limit }
    ensures { result ≡ outside image x }
{
    !(1..=2 * EXPONENT_LIMIT + 1).contains(&(x + usize::from(image.integer)))
}

// The whole number of sixteen half bytes, none above 9: each two of them as one, then each four, each eight, and all.
#[inline(always)]
fn whole_of(halves: u64) -> u64
    requires { all_digits (halves_in 16 halves) ≡ true }
    ensures { result ≡ value_of (halves_in 16 halves) }
{
    let twos = (halves & 0x0F0F_0F0F_0F0F_0F0F) + 10 * ((halves >> 4) & 0x0F0F_0F0F_0F0F_0F0F);
    let fours = (twos & 0x00FF_00FF_00FF_00FF) + 100 * ((twos >> 8) & 0x00FF_00FF_00FF_00FF);
    let eights = (fours & 0x0000_FFFF_0000_FFFF) + 10_000 * ((fours >> 16) & 0x0000_FFFF_0000_FFFF);
    (eights & 0xFFFF_FFFF) + 100_000_000 * ((eights >> 32) & 0xFFFF_FFFF)
}

// The number that a cut stands for.
#[inline(always)]
pub(crate) fn number_of_cut(cut: &Cut) -> Number
    ensures { number_of 0 cut.now.image (said_by_cut cut.now) ≡ done result }
{
    if cut.halves == 0 {
        return Number::ZERO;
    }
    let zeros = (cut.halves.leading_zeros() / 4) as usize - (16 - PRECISION);
    Number {
        negative: cut.negative,
        mantissa: whole_of(cut.halves << (4 * zeros)),
        exponent: cut.x + (PRECISION - 1) - (usize::from(cut.image.fraction) + zeros),
    }
}
