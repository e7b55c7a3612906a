// The fields of a line image, each found once (document 01: Print lines).
ghost use Rattle.std.specs.Prelude.{◌≡◌, ◌+◌, ◌<◌, ◌≤◌, length, IfOk};
ghost use Rattle.decimal.specs.Answer.{meaning, checked_only};
ghost use Rattle.decimal.specs.Digits.{precision};
ghost use Rattle.records.specs.Lines.Scanning.{scanned_field};
ghost use Rattle.records.specs.Lines.Printing.{max_line, check_fields};
ghost use Rattle.records.specs.Lines.LineFields.{begins_field, field_of, Listed};

use crate::lines::printing::MAX_ELEMENTS;
use crate::lines::scanning::{Scanned, scan_field};
use arrayvec::ArrayVec;
use decimal::machine::check_digits;
use decimal::{Image, Refusal, Sign};

// The most fields of a line that a print call uses: those of its elements, and one that it ends before.
pub(crate) const FIELDS: usize = MAX_ELEMENTS + 1;

// A field of a line: its start, its length and its image.
#[derive(Clone, Copy, Default)]
pub(crate) struct Field {
    pub start: u16,
    pub length: u16,
    pub image: Image,
}

// Whether a field can begin with this byte. Most bytes of a line are blanks and letters, which two comparisons tell apart.
fn begins(byte: u8) -> bool
    ensures { result ≡ begins_field byte }
{
    (b'#'..=b'.').contains(&byte) && matches!(byte, b'+' | b'-' | b'#' | b'.')
}

// The field that was scanned of the bytes from a place on. Its image is made as read_image makes one, of other counts: both are checked by
// check_digits.
#[tactic(auto, using(crate::proofs::LineProofs::LineFieldLaws::scanned_few))]
fn field_at(bytes: &[u8], at: usize, scanned: Scanned) -> Field
    requires { (at + length bytes.now ≤ max_line) × (scanned ≡ scanned_field bytes.now) × (0 < scanned.length) × (scanned.integer + scanned.fraction ≤ precision) }
    ensures { result ≡ field_of at bytes.now }
{
    let image = Image {
        sign: Sign::of_byte(bytes[0]),
        integer: scanned.integer as u8,
        fraction: scanned.fraction as u8,
        exponential: scanned.exponential,
    };
    Field {
        start: at as u16,
        length: scanned.length as u16,
        image,
    }
}

// The first FIELDS fields of a line; refused with 2 and the field where one of all has more than PRECISION # signs.
// It goes on past a field, or past a byte that begins none.
pub(crate) fn find_fields(line: &[u8]) -> Result<ArrayVec<Field, FIELDS>, Refusal>
    requires { length line.now ≤ max_line }
    ensures listed { IfOk result (λ fields. Listed line.now fields.items) }
    ensures answer { checked_only (meaning result) ≡ check_fields 0 0 line.now }
{
    let mut fields = ArrayVec::new();
    let mut count = 0;
    let mut rest = line;
    while let [first, behind @ ..] = rest {
        if !begins(*first) {
            rest = behind;
            continue;
        }
        let scanned = scan_field(rest);
        if scanned.length == 0 {
            rest = behind;
            continue;
        }
        let at = line.len() - rest.len();
        check_digits(scanned.integer + scanned.fraction, count)?;
        if !fields.is_full() {
            fields.push(field_at(rest, at, scanned));
        }
        count += 1;
        rest = &rest[scanned.length..];
    }
    Ok(fields)
}
