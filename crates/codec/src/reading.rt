// A column's bytes as half bytes, and a cut read from them.
ghost use Rattle.std.specs.Prelude.{true, false, eqb, ◌&&◌, IfOk, ◌≡◌, ◌*◌, ◌/◌, ◌%◌, ◌^◌, ◌<◌, ◌≤◌, length};
ghost use Rattle.decimal.specs.Image.{hashes};
ghost use Rattle.decimal.specs.Number.{exponent_limit};
ghost use Rattle.decimal.specs.Answer.{done, meaning, mapped, checked_only};
ghost use Rattle.decimal.specs.Truncation.{truncated_to};
ghost use Rattle.decimal.specs.Digits.{packed_of, halves_in};
ghost use Rattle.codec.specs.Columns.{Checked, sign_count, column_size};
ghost use Rattle.codec.specs.Reading.{PartsOf};
ghost use Rattle.decimal.specs.CutMeaning.{said_by_cut};
ghost use Rattle.codec.specs.Halves.{halves_of};
ghost use Rattle.codec.specs.Unpacking.{all_digits, all_zero, pad_part, unpack_column};

use crate::columns::{exponent_count, half_count, sign_count, signed_exponent};
use crate::cut::{ColumnDigits, is_outside};
use crate::worths::worth;
use decimal::{Cut, EXPONENT_LIMIT, Image, Reason, Refusal};

// One in each half byte.
const ONES: u64 = 0x1111_1111_1111_1111;

// Whether each half byte is a digit: none has its highest bit and one of the two behind it.
#[tactic(auto, using(crate::proofs::NibbleLaws::digits_tested))]
pub(crate) fn are_digits(halves: u64) -> bool
    ensures { result ≡ all_digits (halves_in 16 halves) }
{
    (halves >> 3) & ((halves >> 2) | (halves >> 1)) & ONES == 0
}

// Whether no half byte of bytes is above 9, as are_digits tells it: tests without branches, so that many bytes are tested at once.
pub(crate) fn are_all_digits(bytes: &[u8]) -> bool
    ensures { result ≡ all_digits (halves_of bytes.now) }
{
    let mut above: u8 = 0;
    for byte in bytes {
        above |= (*byte >> 3) & ((*byte >> 2) | (*byte >> 1)) & 0x11;
    }
    above == 0
}

// The bytes of a column as one run of half bytes.
fn read_bytes(bytes: &[u8]) -> u128
    requires { length bytes.now ≤ 16 }
    ensures { result ≡ packed_of (halves_of bytes.now) }
{
    let mut run: u128 = 0;
    for byte in bytes {
        run = (run << 8) | u128::from(*byte);
    }
    run
}

// The same of at most eight bytes.
#[inline(always)]
fn read_few(bytes: &[u8]) -> u64
    requires { length bytes.now ≤ 8 }
    ensures { result ≡ packed_of (halves_of bytes.now) }
{
    let mut run: u64 = 0;
    for byte in bytes {
        run = (run << 8) | u64::from(*byte);
    }
    run
}

// The first half bytes of a run, and its last ones, so many.
#[tactic(auto, using(crate::proofs::ReadLaws::masked))]
fn split_halves(run: u128, count: usize) -> (u128, u128)
    requires { count ≤ 31 }
    ensures first { result.0 ≡ run / 2 ^ (4 * count) }
    ensures last { result.1 ≡ run % 2 ^ (4 * count) }
{
    (run >> (4 * count), run & ((1 << (4 * count)) - 1))
}

// The same of at most sixteen half bytes.
#[tactic(auto, using(crate::proofs::ReadLaws::masked_few))]
#[inline(always)]
fn split_few(run: u64, count: usize) -> (u64, u64)
    requires { count ≤ 15 }
    ensures first { result.0 ≡ run / 2 ^ (4 * count) }
    ensures last { result.1 ≡ run % 2 ^ (4 * count) }
{
    (run >> (4 * count), run & ((1 << (4 * count)) - 1))
}

// A column's parts, each as half bytes: its sign half, its digits, its exponent and its padding.
#[derive(Clone, Copy)]
pub(crate) struct ColumnHalves {
    sign: u8,
    digits: u64,
    exponent: u8,
    pad: u8,
}

// The parts of a column's bytes, however many.
#[cold]
fn wide_halves(image: Image, bytes: &[u8]) -> ColumnHalves
    requires { Checked image × (length bytes.now ≡ column_size image) }
    ensures { PartsOf image (halves_of bytes.now) result }
{
    let run = read_bytes(bytes);
    let (unpadded, pad) = split_halves(run, half_count(image) % 2);
    let (front, exponent) = split_halves(unpadded, exponent_count(image.exponential));
    let (sign, digits) = split_halves(front, image.hashes());
    ColumnHalves {
        sign: sign as u8,
        digits: digits as u64,
        exponent: exponent as u8,
        pad: pad as u8,
    }
}

// The same of at most eight bytes.
#[inline(always)]
fn narrow_halves(image: Image, bytes: &[u8]) -> ColumnHalves
    requires { Checked image × (length bytes.now ≡ column_size image) × (length bytes.now ≤ 8) }
    ensures { PartsOf image (halves_of bytes.now) result }
{
    let run = read_few(bytes);
    let (unpadded, pad) = split_few(run, half_count(image) % 2);
    let (front, exponent) = split_few(unpadded, exponent_count(image.exponential));
    let (sign, digits) = split_few(front, image.hashes());
    ColumnHalves {
        sign: sign as u8,
        digits,
        exponent: exponent as u8,
        pad: pad as u8,
    }
}

// Whether a column has neither a sign nor an exponent.
#[inline(always)]
fn is_plain(image: Image) -> bool
    ensures { result ≡ true → (image.exponential ≡ false) × (sign_count image.sign ≡ 0) }
{
    !image.exponential && sign_count(image.sign) == 0
}

// The parts of a column's bytes that has neither.
#[inline(always)]
fn plain_halves(image: Image, bytes: &[u8]) -> ColumnHalves
    requires { Checked image × (length bytes.now ≡ column_size image) × (image.exponential ≡ false) × (sign_count image.sign ≡ 0) }
    ensures { PartsOf image (halves_of bytes.now) result }
{
    let (digits, pad) = split_few(read_few(bytes), half_count(image) % 2);
    ColumnHalves {
        sign: 0,
        digits,
        exponent: 0,
        pad: pad as u8,
    }
}

// The parts of a column's bytes. More than eight, which a u64 holds, a column has only above 13 digits.
#[inline(always)]
fn column_halves(image: Image, bytes: &[u8]) -> ColumnHalves
    requires { Checked image × (length bytes.now ≡ column_size image) }
    ensures { PartsOf image (halves_of bytes.now) result }
{
    if bytes.len() <= 8 {
        narrow_halves(image, bytes)
    } else {
        wide_halves(image, bytes)
    }
}

impl ColumnHalves {
    // Whether the digits are digits and the padding is 0.
    fn is_formed(&self) -> bool
        ensures { result ≡ (all_digits (halves_in 16 self.now.digits) && eqb self.now.pad 0) }
    {
        are_digits(self.digits) && self.pad == 0
    }

    // Whether the digits of a fixed-point column break no rule: the padding is 0, and the sign half 0, or 1 where not all digits are 0.
    fn keeps_rules(&self) -> bool
        ensures { result ≡ true → (self.now.pad ≡ 0) × (self.now.sign ≤ 1) × (self.now.sign ≡ 1 → 0 < self.now.digits) }
    {
        self.pad == 0 && (self.sign == 0 || (self.sign == 1 && self.digits != 0))
    }
}

// The cut that the bytes of a column with neither sign nor exponent say; refused with 7 and the column.
#[inline(always)]
fn read_plain(image: Image, bytes: &[u8], column: usize) -> Result<Cut, Refusal>
    requires { Checked image × (length bytes.now ≡ column_size image) × (image.exponential ≡ false) × (sign_count image.sign ≡ 0) }
    ensures cut { mapped said_by_cut (meaning result) ≡ mapped (truncated_to image) (unpack_column column image bytes.now) }
    ensures image { IfOk result (λ cut. cut.image ≡ image) }
{
    let halves = plain_halves(image, bytes);
    if !halves.is_formed() {
        return Err(Refusal {
            reason: Reason::BadHalf,
            place: column,
        });
    }
    Ok(Cut {
        image,
        negative: false,
        halves: halves.digits,
        x: EXPONENT_LIMIT,
    })
}

// The cut that a column's bytes say; refused with 7 and the column.
#[inline(always)]
pub(crate) fn read_column(image: Image, bytes: &[u8], column: usize) -> Result<Cut, Refusal>
    requires { Checked image × (length bytes.now ≡ column_size image) }
    ensures cut { mapped said_by_cut (meaning result) ≡ mapped (truncated_to image) (unpack_column column image bytes.now) }
    ensures image { IfOk result (λ cut. cut.image ≡ image) }
{
    if is_plain(image) {
        return read_plain(image, bytes, column);
    }
    let bad = Refusal {
        reason: Reason::BadHalf,
        place: column,
    };
    let halves = column_halves(image, bytes);
    if !halves.is_formed() {
        return Err(bad);
    }
    let Some(size) = worth(halves.exponent) else {
        return Err(bad);
    };
    let size = usize::from(size);
    let digits = ColumnDigits {
        image,
        sign: halves.sign,
        digits: halves.digits,
    };
    if digits.breaks_rules(size) {
        return Err(bad);
    }
    let x = signed_exponent(8 <= halves.sign, size);
    if is_outside(image, x) {
        return Err(bad);
    }
    Ok(Cut {
        image,
        negative: halves.sign & 7 == 1,
        halves: halves.digits,
        x,
    })
}

// The cut that the bytes of a column say, which can be read.
#[inline(always)]
pub(crate) fn column_cut(image: Image, bytes: &[u8]) -> Cut
    requires { Checked image × (length bytes.now ≡ column_size image) × (checked_only (unpack_column 0 image bytes.now) ≡ done tt) }
    ensures cut { done (said_by_cut result) ≡ mapped (truncated_to image) (unpack_column 0 image bytes.now) }
    ensures image { result.image ≡ image }
{
    let halves = column_halves(image, bytes);
    let size = usize::from((halves.exponent >> 4) * 10 + (halves.exponent & 15));
    Cut {
        image,
        negative: halves.sign & 7 == 1,
        halves: halves.digits,
        x: signed_exponent(8 <= halves.sign, size),
    }
}

// Whether the padding of a column's bytes is 0, where it has one.
#[inline(always)]
fn is_padded(image: Image, bytes: &[u8]) -> bool
    requires { Checked image × (length bytes.now ≡ column_size image) }
    ensures { result ≡ all_zero (pad_part image (halves_of bytes.now)) }
{
    if half_count(image) % 2 == 0 {
        return true;
    }
    bytes[bytes.len() - 1] & 15 == 0
}

// Whether the bytes of a column, none of whose half bytes is above 9, can be read: without an exponent, its sign half and padding tell.
#[inline(always)]
pub(crate) fn is_readable(image: Image, bytes: &[u8]) -> bool
    requires { Checked image × (length bytes.now ≡ column_size image) × (all_digits (halves_of bytes.now) ≡ true) }
    ensures { result ≡ true → checked_only (unpack_column 0 image bytes.now) ≡ done tt }
{
    if is_plain(image) {
        return is_padded(image, bytes);
    }
    if !image.exponential {
        return narrow_halves(image, bytes).keeps_rules();
    }
    read_column(image, bytes, 0).is_ok()
}
