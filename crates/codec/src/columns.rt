// The size of a column, and the exponent that its direction and size say (document 01: Packed bodies).
ghost use Rattle.std.specs.Prelude.{◌≡◌, ◌+◌, ◌-◌, ◌≤◌};
ghost use Rattle.decimal.specs.Answer.{pick};
ghost use Rattle.decimal.specs.Number.{exponent_limit};
ghost use Rattle.codec.specs.Columns.{sign_count, exponent_count, half_count, column_size};

use decimal::{EXPONENT_LIMIT, Image, Sign};

// The count of sign halves in a column.
pub fn sign_count(sign: Sign) -> usize
    ensures { result ≡ sign_count sign }
{
    match sign {
        Sign::Unsigned => 0,
        Sign::Plus | Sign::Minus => 1,
    }
}

// The count of exponent halves in a column.
pub(crate) fn exponent_count(exponential: bool) -> usize
    ensures { result ≡ exponent_count exponential }
{
    if exponential { 2 } else { 0 }
}

// An exponent of such a size, below zero or not, plus EXPONENT_LIMIT.
pub(crate) fn signed_exponent(below: bool, size: usize) -> usize
    requires { size ≤ exponent_limit }
    ensures { result ≡ pick below (exponent_limit - size) (exponent_limit + size) }
{
    if below {
        EXPONENT_LIMIT - size
    } else {
        EXPONENT_LIMIT + size
    }
}

// The count of half bytes in a column before the padding.
pub(crate) fn half_count(image: Image) -> usize
    ensures { result ≡ half_count image }
{
    sign_count(image.sign) + (image.hashes() + exponent_count(image.exponential))
}

// The count of bytes in a column.
#[tactic(auto, unfolding(crate::specs::Columns::column_size))]
pub fn column_size(image: Image) -> usize
    ensures { result ≡ column_size image }
{
    let halves = half_count(image);
    (halves + halves % 2) / 2
}
