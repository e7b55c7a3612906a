// Packing a list of numbers into a body (document 01: Packed bodies).
ghost use Rattle.std.specs.Prelude.{◌≡◌, true, ◌++◌, ◌+◌, ◌-◌, ◌*◌, ◌≤◌, ltb, length};
ghost use Rattle.decimal.specs.Answer.{done, meaning, checked_only, pick};
ghost use Rattle.decimal.specs.CutMeaning.{said_by_cut};
ghost use Rattle.decimal.specs.Digits.{digits_of, packed_of};
ghost use Rattle.decimal.specs.Image.{hashes};
ghost use Rattle.decimal.specs.Number.{exponent_limit};
ghost use Rattle.decimal.specs.Truncation.{Fit, truncated_to, packable};
ghost use Rattle.codec.specs.Answers.{stored_in, sized};
ghost use Rattle.codec.specs.Columns.{column_size, body_size};
ghost use Rattle.codec.specs.Alpha.{zero_at};
ghost use Rattle.codec.specs.Packing.{column_bytes, column_halves, exponent_halves, pack_list, storing_column, packing_under, pack_columns, AllPack, sign_halves};

use crate::columns::{column_size, half_count};
use crate::contents::Contents;
use crate::halves::write_run;
use decimal::{CheckedImage, Cut, EXPONENT_LIMIT, Fitting, Image, Number, Reason, Refusal, Sign};

// The size |x| of a stored exponent that is held as x + EXPONENT_LIMIT.
pub(crate) fn exponent_size(x: usize) -> u8
    requires { x ≤ 2 * exponent_limit }
    ensures { result ≡ pick (ltb x exponent_limit) (exponent_limit - x) (x - exponent_limit) }
{
    x.abs_diff(EXPONENT_LIMIT) as u8
}

// The sign half: 1 if the number is negative, and 8 if x is.
fn sign_half(negative: bool, x: usize) -> u8
    ensures { result ≡ pick negative 1 0 + pick (ltb x exponent_limit) 8 0 }
{
    u8::from(negative) + 8 * u8::from(x < EXPONENT_LIMIT)
}

// The two digits of |x| as half bytes.
#[tactic(auto, using(crate::proofs::RunLaws::exponent_made, crate::proofs::HalfLaws::exponent_size_few), unfolding(crate::specs::Packing::exponent_size))]
fn exponent_run(x: usize) -> u64
    requires { x ≤ 2 * exponent_limit }
    ensures { result ≡ packed_of (exponent_halves true (zero_at x)) }
{
    let size = u64::from(exponent_size(x));
    (size / 10) << 4 | (size % 10)
}

// The sign half of a column, if it has one, and its digits, as one run of half bytes.
#[tactic(auto, using(crate::proofs::RunLaws::run_digits), unfolding(crate::specs::Packing::sign_halves))]
fn signed_run(cut: &Cut) -> u64
    ensures { result ≡ packed_of (sign_halves cut.now.image.sign (said_by_cut cut.now) ++ digits_of (hashes cut.now.image) (said_by_cut cut.now).whole) }
{
    if cut.image.sign == Sign::Unsigned {
        cut.halves
    } else {
        let half = u64::from(sign_half(cut.negative, cut.x));
        (half << (4 * cut.image.hashes())) | cut.halves
    }
}

// A column as one run of half bytes: the sign half and the digits, then two digits of |x| if it is exponential, then a zero half if
// their count is odd.
pub(crate) fn column_run(cut: &Cut) -> u128
    ensures { result ≡ packed_of (column_halves cut.now.image (said_by_cut cut.now)) }
{
    let mut run = u128::from(signed_run(cut));
    if cut.image.exponential {
        run = (run << 8) | u128::from(exponent_run(cut.x));
    }
    run << (4 * (half_count(cut.image) % 2))
}

// Writes a column, which is the whole target.
fn write_column(cut: &Cut, target: &mut [u8])
    requires { length target.old ≡ column_size cut.now.image }
    ensures { target.new ≡ column_bytes cut.now.image (said_by_cut cut.now) }
{
    write_run(column_run(cut), target);
}

// Whether a cut number can be a column: refused with 5 where x is negative under an image without a sign.
#[tactic(auto, unfolding(decimal::specs::Answer::checked_only, decimal::specs::Truncation::packable))]
fn check_packable(cut: &Cut) -> Result<(), Refusal>
    ensures { meaning result ≡ checked_only (packable 0 cut.now.image (said_by_cut cut.now)) }
{
    if cut.image.sign == Sign::Unsigned && cut.x < EXPONENT_LIMIT {
        return Err(Refusal {
            reason: Reason::ExponentOutside,
            place: 0,
        });
    }
    Ok(())
}

// Writes a cut number as a column at a buffer's start, and gives its size; the bytes behind it stay.
// Refused with 5 as packing refuses it, last 6; then no byte changes.
pub fn store_column(cut: &Cut, buffer: &mut [u8]) -> Result<usize, Refusal>
    ensures answer { meaning result ≡ sized (storing_column cut.now.image (said_by_cut cut.now) (length buffer.old)) }
    ensures bytes { buffer.new ≡ stored_in (storing_column cut.now.image (said_by_cut cut.now) (length buffer.old)) buffer.old }
{
    check_packable(cut)?;
    let width = column_size(cut.image);
    if buffer.len() < width {
        return Err(Refusal::NO_ROOM);
    }
    write_column(cut, &mut buffer[..width]);
    Ok(width)
}

// Whether a list can be packed under a contents: refused as packing it there is, but for the room; no half byte is made.
#[tactic(auto, using(crate::proofs::BodyLaws::columns_turn, crate::proofs::BodyLaws::columns_refused, crate::proofs::BodyLaws::list_other, crate::proofs::BodyLaws::list_each), unfolding(decimal::specs::Answer::checked_only, crate::specs::Packing::pack_columns))]
pub fn check_list(contents: &Contents, numbers: &[Number]) -> Result<(), Refusal>
    ensures { meaning result ≡ checked_only (pack_list contents.now.images numbers.now) }
{
    let images = contents.images();
    if numbers.len() != images.len() {
        return Err(Refusal::WRONG_COUNT);
    }
    for (column, (image, number)) in images.iter().zip(numbers).enumerate() {
        let checked = CheckedImage { image: *image };
        checked.fitting_packed(*number, column)?;
    }
    Ok(())
}

// Writes the columns of numbers that can be packed, one behind the other.
fn write_columns(images: &[Image], numbers: &[Number], body: &mut [u8])
    requires { (AllPack images.now numbers.now) × (length body.old ≡ body_size images.now) }
    ensures { pack_columns 0 images.now numbers.now ≡ done body.new }
{
    let mut at = 0;
    for (image, number) in images.iter().zip(numbers) {
        let end = at + column_size(*image);
        let fitting = Fitting {
            image: *image,
            number: *number,
        };
        write_column(&fitting.cut(), &mut body[at..end]);
        at = end;
    }
}

// Packs a list under a contents into a buffer: the body stands at its start, and the bytes behind it stay.
// Refused with 10, items from the left with 3, 4, 5 and the column, last 6; then no byte changes.
pub fn pack(contents: &Contents, numbers: &[Number], buffer: &mut [u8]) -> Result<usize, Refusal>
    ensures answer { meaning result ≡ sized (packing_under contents.now.images numbers.now (length buffer.old)) }
    ensures bytes { buffer.new ≡ stored_in (packing_under contents.now.images numbers.now (length buffer.old)) buffer.old }
{
    check_list(contents, numbers)?;
    let size = contents.body_size();
    if buffer.len() < size {
        return Err(Refusal::NO_ROOM);
    }
    write_columns(contents.images(), numbers, &mut buffer[..size]);
    Ok(size)
}
