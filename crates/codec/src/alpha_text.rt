// The alpha text of a number under an image (document 01: Alpha text).
ghost use Rattle.std.specs.Prelude.{◌≡◌, ◌+◌, ◌-◌, ◌*◌, ◌<◌, ◌≤◌, ltb, eqb, length, get_or};
ghost use Rattle.decimal.specs.Answer.{done, meaning, pick, checked_only, ◌then◌};
ghost use Rattle.decimal.specs.CutMeaning.{said_by_cut};
ghost use Rattle.decimal.specs.Digits.{precision, digits_of, value_of, packed_of, halves_in};
ghost use Rattle.decimal.specs.Number.{exponent_limit};
ghost use Rattle.decimal.specs.Image.{plus_byte, minus_byte};
ghost use Rattle.codec.specs.Answers.{within, stored_in, sized};
ghost use Rattle.codec.specs.Columns.{sign_count, column_size, Checked};
ghost use Rattle.codec.specs.Unpacking.{unpack_column};
ghost use Rattle.codec.specs.Alpha.{zero_byte, digit_bytes, sign_shown, sign_text, fraction_text, exponent_text, alpha_text, alpha_under, writing_alpha_under, writing_alpha, fraction_length, exponent_length, text_length, zero_at};

use crate::columns::sign_count;
use crate::packing::exponent_size;
use crate::reading::column_cut;
use decimal::{Cut, EXPONENT_LIMIT, Image, Number, Refusal, Sign, cut_number, read_image};

// The byte of a digit.
fn digit_byte(digit: u8) -> u8
    requires { digit < 10 }
    ensures { result ≡ zero_byte + digit }
{
    b'0' + digit
}

// The byte that stands for a number's sign under the sign of an image: - below zero, else + for + and a blank for any other.
#[tactic(auto, using(crate::proofs::AlphaLaws::minus_shown), unfolding(crate::specs::Alpha::sign_shown))]
pub fn sign_byte(sign: Sign, negative: bool) -> u8
    ensures { result ≡ sign_shown sign negative }
{
    match (negative, sign) {
        (true, _) => b'-',
        (false, Sign::Plus) => b'+',
        (false, Sign::Unsigned | Sign::Minus) => b' ',
    }
}

// The length of the point and the digits behind it.
#[tactic(auto, using(crate::proofs::AlphaLaws::fraction_none, crate::proofs::AlphaLaws::fraction_some))]
fn fraction_length(fraction: u8) -> usize
    ensures { result ≡ fraction_length fraction }
{
    if fraction == 0 {
        0
    } else {
        usize::from(fraction) + 1
    }
}

// The length of the exponent part: E, a sign and two digits. Not exponent_count of columns.rt, which counts half bytes.
#[tactic(auto, unfolding(crate::specs::Alpha::exponent_length))]
fn exponent_length(exponential: bool) -> usize
    ensures { result ≡ exponent_length exponential }
{
    if exponential { 4 } else { 0 }
}

// The length of the text under an image, which is the image's.
#[tactic(auto, using(crate::proofs::AlphaLaws::parts_few), unfolding(crate::specs::Alpha::text_length, crate::specs::Alpha::tail_length))]
pub(crate) fn text_length(image: Image) -> usize
    ensures { result ≡ text_length image }
{
    let tail = fraction_length(image.fraction) + exponent_length(image.exponential);
    sign_count(image.sign) + (usize::from(image.integer) + tail)
}

// Writes the digits that the last half bytes of a run are, as many as the target has. By shifts and masks, as write_run, which writes two
// half bytes in a byte.
fn write_digits(run: u64, target: &mut [u8])
    requires { length target.old ≤ 16 }
    ensures { target.new ≡ digit_bytes (halves_in (length target.old) run) }
{
    if target.is_empty() {
        return;
    }
    let mut left = run << (64 - 4 * target.len());
    for byte in target.iter_mut() {
        *byte = b'0' + (left >> 60) as u8;
        left <<= 4;
    }
}

// Writes the sign byte where the image has a sign.
#[tactic(auto, using(crate::proofs::AlphaLaws::sign_filled, crate::proofs::AlphaLaws::nothing_filled, crate::proofs::AlphaLaws::sign_text_length))]
fn write_sign(sign: Sign, negative: bool, target: &mut [u8])
    requires { length target.old ≡ sign_count sign }
    ensures { target.new ≡ sign_text sign negative }
{
    if let Some(byte) = target.first_mut() {
        *byte = sign_byte(sign, negative);
    }
}

// Writes the point, and as many digits behind it as the target has room for; where the target has no byte, nothing.
#[tactic(auto, using(decimal::proofs::PackedLaws::last_halves, crate::proofs::AlphaLaws::fraction_filled), unfolding(crate::specs::Alpha::fraction_text))]
fn write_fraction(halves: u64, target: &mut [u8])
    requires { (length target.old ≡ fraction_length (length target.old - 1)) × (length target.old ≤ precision + 1) × (halves ≡ packed_of (digits_of precision (value_of (halves_in precision halves)))) }
    ensures { target.new ≡ fraction_text (length target.old - 1) (value_of (halves_in precision halves)) }
{
    if let Some((point, digits)) = target.split_first_mut() {
        *point = b'.';
        write_digits(halves, digits);
    }
}

// Writes the exponent part, E, the sign of x and two digits, where the image has an exponent.
#[tactic(auto, using(crate::proofs::AlphaLaws::exponent_shown), unfolding(crate::specs::Alpha::exponent_length, crate::specs::Alpha::exponent_text, crate::specs::Alpha::sign_shown))]
fn write_exponent(exponential: bool, x: usize, target: &mut [u8])
    requires { (x ≤ 2 * exponent_limit) × (length target.old ≡ exponent_length exponential) }
    ensures { target.new ≡ exponent_text exponential (zero_at x) }
{
    if exponential {
        let size = exponent_size(x);
        target.copy_from_slice(&[
            b'E',
            sign_byte(Sign::Plus, x < EXPONENT_LIMIT),
            digit_byte(size / 10),
            digit_byte(size % 10),
        ]);
    }
}

// Writes the text, which is the whole target.
#[tactic(auto, using(crate::proofs::AlphaLaws::fraction_few, crate::proofs::AlphaLaws::fraction_same, crate::proofs::AlphaLaws::text_filled), unfolding(crate::specs::Alpha::text_length, crate::specs::Alpha::tail_length))]
fn write_text(cut: &Cut, target: &mut [u8])
    requires { length target.old ≡ text_length cut.now.image }
    ensures { target.new ≡ alpha_text cut.now.image (said_by_cut cut.now) }
{
    let image = cut.image;
    let (signs, digits) = target.split_at_mut(sign_count(image.sign));
    let (integer, tail) = digits.split_at_mut(usize::from(image.integer));
    let (point, exponent) = tail.split_at_mut(fraction_length(image.fraction));
    write_sign(image.sign, cut.negative, signs);
    write_digits(cut.halves >> (4 * image.fraction), integer);
    write_fraction(cut.halves, point);
    write_exponent(image.exponential, cut.x, exponent);
}

// Writes the alpha text of the number of a column's bytes, which can be read, as the whole target. No number is made.
pub(crate) fn write_column_text(image: Image, bytes: &[u8], target: &mut [u8])
    requires { Checked image × (length bytes.now ≡ column_size image) × (checked_only (unpack_column 0 image bytes.now) ≡ done tt) × (length target.old ≡ text_length image) }
    ensures { done target.new ≡ (unpack_column 0 image bytes.now then λ n. alpha_under image n) }
{
    write_text(&column_cut(image, bytes), target);
}

// Writes the alpha text of a cut number at the buffer's start, and gives its length; the bytes behind it stay.
// Refused with 6 alone; then no byte changes.
pub fn write_alpha(cut: &Cut, buffer: &mut [u8]) -> Result<usize, Refusal>
    ensures answer { meaning result ≡ sized (within (length buffer.old) (alpha_text cut.now.image (said_by_cut cut.now))) }
    ensures bytes { buffer.new ≡ stored_in (within (length buffer.old) (alpha_text cut.now.image (said_by_cut cut.now))) buffer.old }
{
    let length = text_length(cut.image);
    if buffer.len() < length {
        return Err(Refusal::NO_ROOM);
    }
    write_text(cut, &mut buffer[..length]);
    Ok(length)
}

// The alpha text of a number under an image already read, of the image's length, at the buffer's start; the bytes behind it stay.
// Refused with 1, 2, 3, 4, 5, 6 in this order; then no byte changes.
fn alpha_under(image: Image, number: Number, buffer: &mut [u8]) -> Result<usize, Refusal>
    ensures answer { meaning result ≡ sized (writing_alpha_under image number (length buffer.old)) }
    ensures bytes { buffer.new ≡ stored_in (writing_alpha_under image number (length buffer.old)) buffer.old }
{
    let cut = cut_number(image, number, 0)?;
    write_alpha(&cut, buffer)
}

// The alpha text of a number under the bytes of an image, as alpha_under writes it; refused first as the image is.
#[tactic(auto, using(crate::proofs::AlphaLaws::alpha_image, crate::proofs::AlphaLaws::writing_refused, crate::proofs::AlphaLaws::writing_read), unfolding(crate::specs::Answers::stored_in, crate::specs::Answers::sized, crate::specs::Alpha::writing_alpha))]
pub fn alpha(image: &[u8], number: Number, buffer: &mut [u8]) -> Result<usize, Refusal>
    ensures answer { meaning result ≡ sized (writing_alpha image.now number (length buffer.old)) }
    ensures bytes { buffer.new ≡ stored_in (writing_alpha image.now number (length buffer.old)) buffer.old }
{
    let read = read_image(image, 0)?;
    alpha_under(read, number, buffer)
}
