// Text numbers: the legal length of a text, reading the number that a text begins with, and converting a whole text (document 01: Alpha
// text, second paragraph; document 02, (i) and (v)).
ghost use Rattle.std.specs.Prelude.{◌≡◌, length, ltb};
ghost use Rattle.decimal.specs.Answer.{meaning};
ghost use Rattle.decimal.specs.Digits.{precision};
ghost use Rattle.decimal.specs.Image.{leading_sign};
ghost use Rattle.codec.specs.Text.{
  is_minus,
  digits_in,
  all_digits_of,
  numeral_in,
  legal_length,
  convert_text,
  DigitsFit,
  SignFound,
  RunFound,
  FractionFound,
  PowerFound,
  NumeralFound,
  reading_meaning,
  reading_in,
  read_text,
};

use crate::columns::{sign_count, signed_exponent};
use decimal::{EXPONENT_LIMIT, Number, PRECISION, Reason, Refusal, Sign, leading_run};

// The most digits of an exponent.
const EXPONENT_DIGITS: usize = 2;

// The longest beginning of a text that is a text number: its length, and its number or 5; where there is none, length 0 and 8.
// The length stands beside the answer and not in it, since a number that is refused with 5 uses bytes too.
#[derive(Clone, Copy, Debug, PartialEq, Eq, Hash)]
pub(crate) struct Reading {
    pub(crate) used: usize,
    pub(crate) number: Result<Number, Refusal>,
}

// The number that a text begins with, and the bytes used.
#[derive(Clone, Copy, Debug, PartialEq, Eq, Hash)]
pub struct TextNumber {
    pub number: Number,
    pub used: usize,
}

// The refusal of what is no text number.
pub const NO_NUMBER: Refusal = Refusal {
    reason: Reason::NotText,
    place: 0,
};

// No text number: no byte is used.
pub(crate) const NO_READING: Reading = Reading {
    used: 0,
    number: Err(NO_NUMBER),
};

// In SpacedSign, Fraction and Power no byte used says that there is nothing: what stands behind it is then at the same place, with no case
// of its own.

// A sign and the blanks behind it, or nothing: whether it is a minus, and the bytes used.
#[derive(Clone, Copy)]
struct SpacedSign {
    minus: bool,
    used: usize,
}

// Digits that were read, as a whole number, and how many they are.
#[derive(Clone, Copy)]
struct DigitRun {
    value: u64,
    count: usize,
}

// A point and digits behind it, or nothing: the whole number that all digits now make, the digits behind the point, the bytes used.
#[derive(Clone, Copy)]
struct Fraction {
    value: u64,
    count: usize,
    used: usize,
}

// An exponent plus EXPONENT_LIMIT, and the bytes used; 0 bytes are no exponent.
#[derive(Clone, Copy)]
struct Power {
    up: usize,
    used: usize,
}

// Digits with at most one point and an optional exponent: how many digits, their whole number, how many stand behind the point, the
// exponent plus EXPONENT_LIMIT, the bytes used.
#[derive(Clone, Copy)]
struct Numeral {
    count: usize,
    value: u64,
    places: usize,
    up: usize,
    used: usize,
}

// The sign that a text begins with.
#[tactic(auto, using(crate::proofs::TextLaws::sign_none, decimal::proofs::ImageLaws::first_sign))]
fn leading_sign(text: &[u8]) -> Sign
    ensures { result ≡ leading_sign text.now }
{
    match text {
        [first, ..] => Sign::of_byte(*first),
        [] => Sign::Unsigned,
    }
}

// Whether a sign is a minus.
#[tactic(auto, unfolding(crate::specs::Text::is_minus))]
fn is_minus(sign: Sign) -> bool
    ensures { result ≡ is_minus sign }
{
    sign == Sign::Minus
}

// The sign that a text begins with and the blanks behind it; nothing where there is no sign.
#[tactic(auto, using(decimal::proofs::StepLaws::run_inside))]
fn leading_spaced_sign(text: &[u8]) -> SpacedSign
    ensures { SignFound text.now result.minus result.used }
{
    let sign = leading_sign(text);
    let signs = sign_count(sign);
    let blanks = if signs == 0 {
        0
    } else {
        leading_run(&text[signs..], b' ')
    };
    SpacedSign {
        minus: is_minus(sign),
        used: signs + blanks,
    }
}

// At most so many digits that a text begins with: their count, and the value of start with these digits behind it.
#[tactic(auto, using(crate::proofs::TextLaws::running_fits, crate::proofs::TextLaws::running_other, crate::proofs::TextLaws::running_full))]
fn digit_run(text: &[u8], most: usize, start: u64) -> DigitRun
    requires { DigitsFit start most }
    ensures { RunFound text.now most start result.value result.count }
{
    let mut value = start;
    let run = &text[..most.min(text.len())];
    for (count, byte) in run.iter().enumerate() {
        if !byte.is_ascii_digit() {
            return DigitRun { value, count };
        }
        value = value * 10 + u64::from(*byte - b'0');
    }
    DigitRun {
        value,
        count: run.len(),
    }
}

// A point that a text begins with and at most so many digits behind it, appended to the value start; nothing if there is no point.
fn leading_fraction(text: &[u8], most: usize, start: u64) -> Fraction
    requires { DigitsFit start most }
    ensures { FractionFound text.now most start result.value result.count result.used }
{
    let [b'.', digits @ ..] = text else {
        return Fraction {
            value: start,
            count: 0,
            used: 0,
        };
    };
    let run = digit_run(digits, most, start);
    Fraction {
        value: run.value,
        count: run.count,
        used: run.count + 1,
    }
}

// The exponent that a text begins with: E, an optional sign, and one or two digits; nothing where no digit follows.
fn leading_power(text: &[u8]) -> Power
    ensures { PowerFound text.now result.up result.used }
{
    let none = Power {
        up: EXPONENT_LIMIT,
        used: 0,
    };
    let [b'E', signed @ ..] = text else {
        return none;
    };
    let sign = leading_sign(signed);
    let signs = sign_count(sign);
    let run = digit_run(&signed[signs..], EXPONENT_DIGITS, 0);
    if run.count == 0 {
        return none;
    }
    let up = signed_exponent(is_minus(sign), run.value as usize);
    let used = 1 + signs + run.count;
    Power { up, used }
}

// Whether a text begins with a digit.
fn begins_digit(text: &[u8]) -> bool
    ensures { result ≡ ltb 0 (length (digits_in precision text.now)) }
{
    match text {
        [first, ..] => first.is_ascii_digit(),
        [] => false,
    }
}

// Whether the numeral that a text begins with has a digit: one stands first, or behind a point that stands first.
fn has_digit(text: &[u8]) -> bool
    ensures { result ≡ ltb 0 (length (all_digits_of (numeral_in text.now))) }
{
    match text {
        [first, behind @ ..] => {
            if *first == b'.' {
                begins_digit(behind)
            } else {
                first.is_ascii_digit()
            }
        }
        [] => false,
    }
}

// The numeral that a text begins with; there may be no digit.
#[tactic(auto, using(crate::proofs::TextLaws::run_few, crate::proofs::TextLaws::run_held, crate::proofs::TextLaws::fraction_most, crate::proofs::TextLaws::fraction_inside, crate::proofs::TextLaws::power_inside))]
fn leading_numeral(text: &[u8]) -> Numeral
    ensures { NumeralFound text.now result }
{
    let integer = digit_run(text, PRECISION, 0);
    let pointed = &text[integer.count..];
    let fraction = leading_fraction(pointed, PRECISION - integer.count, integer.value);
    let power = leading_power(&pointed[fraction.used..]);
    Numeral {
        count: integer.count + fraction.count,
        value: fraction.value,
        places: fraction.count,
        up: power.up,
        used: integer.count + fraction.used + power.used,
    }
}

// The longest beginning of a text that is a text number, and its number.
#[tactic(auto, using(decimal::proofs::StepLaws::run_inside, crate::proofs::TextLaws::sign_inside, crate::proofs::TextLaws::read_some))]
pub(crate) fn read_text(text: &[u8]) -> Reading
    ensures { reading_meaning result ≡ reading_in text.now }
{
    let before = leading_run(text, b' ');
    let signed = &text[before..];
    let sign = leading_spaced_sign(signed);
    let unsigned = &signed[sign.used..];
    if !has_digit(unsigned) {
        return NO_READING;
    }
    let numeral = leading_numeral(unsigned);
    let end = before + sign.used + numeral.used;
    let used = end + leading_run(&unsigned[numeral.used..], b' ');
    let up = numeral.up as u16;
    let down = (EXPONENT_LIMIT + numeral.places) as u16;
    Reading {
        used,
        number: Number::from_scaled(sign.minus, numeral.value, up, down, 0),
    }
}

// The length of the longest beginning of a text that has the form of a text number, 0 if none.
#[tactic(auto, using(crate::proofs::TextLaws::read_used_lem))]
pub fn legal_length(text: &[u8]) -> usize
    ensures { result ≡ legal_length text.now }
{
    read_text(text).used
}

// The number of the longest beginning that has the form, and the bytes used; refused with 8 where there is none, with 5 where its exponent
// is outside its limits.
#[tactic(auto, using(crate::proofs::TextLaws::reads_number, crate::proofs::TextLaws::reads_refused))]
pub fn read_text_number(text: &[u8]) -> Result<TextNumber, Refusal>
    ensures { meaning result ≡ read_text text.now }
{
    let reading = read_text(text);
    let number = reading.number?;
    Ok(TextNumber {
        number,
        used: reading.used,
    })
}

// The number of a whole text, where reading it uses all bytes; where bytes are left over, 8, ahead of 5.
#[tactic(auto, unfolding(crate::specs::Text::convert_text))]
pub fn convert(text: &[u8]) -> Result<Number, Refusal>
    ensures { meaning result ≡ convert_text text.now }
{
    let reading = read_text(text);
    let is_left_over = reading.used != text.len();
    if is_left_over {
        Err(NO_NUMBER)
    } else {
        reading.number
    }
}
