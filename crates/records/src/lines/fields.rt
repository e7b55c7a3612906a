// A number or a text in a field, and reading a field back (document 01: Print lines).
ghost use Rattle.std.specs.Prelude.{◌≡◌, true, not, ◌&&◌, ◌+◌, ◌<◌, ◌≤◌, ltb, eqb, length};
ghost use Rattle.decimal.specs.Answer.{Answer, done, meaning};
ghost use Rattle.decimal.specs.Digits.{precision};
ghost use Rattle.decimal.specs.Number.{zero_number};
ghost use Rattle.records.specs.declared.lines.fields.Element.TheVariants.{Number};
ghost use Rattle.decimal.specs.Image.{hash_byte, hashes};
ghost use Rattle.codec.specs.Lists.{filled};
ghost use Rattle.codec.specs.Alpha.{blank_byte, text_length};
ghost use Rattle.decimal.specs.CutMeaning.{said_by_cut};
ghost use Rattle.records.specs.Lines.Fields.{next_digit, fill_byte, fill_next, fill_bytes, nothing_filled};
ghost use Rattle.records.specs.Lines.Fields.{number_marked, shown_marked, or_field, spilled_by, element_bytes, element_spills, FieldImage, read_marked, read_field};
ghost use Rattle.records.specs.Lines.Fields.{hash_count, point_place, point_marked};
ghost use Rattle.records.specs.Lines.Printing.{check_element};

use crate::lines::marks::{DOCUMENT_MARKS, Marks};
use arrayvec::ArrayVec;
use codec::{NO_NUMBER, convert, sign_byte, sign_count, write_alpha};
use decimal::{Cut, Image, Number, PRECISION, Refusal, Sign, cut_number};

// An element of a line: a number, or a text by a start and a length into lent bytes, document 01's form.
#[derive(Clone, Copy, Debug, PartialEq, Eq, Hash)]
pub enum Element {
    Number(Number),
    Text(usize, usize),
}

// By hand, since no derive gives a variant with a value.
impl Default for Element {
    ghost is_default = { λ e. e ≡ Number zero_number };

    // The number zero.
    fn default() -> Element {
        Element::Number(Number::ZERO)
    }
}

// What was filled of a field: whether a digit or the point was shown, and how many digits were used.
#[derive(Clone, Copy)]
pub(crate) struct Fill {
    pub shown: bool,
    pub used: usize,
}

// A number as it fills a fixed-point field: the number cut to the field's image, and the marks.
#[derive(Clone, Copy)]
struct FieldNumber {
    cut: Cut,
    marks: Marks,
}

impl FieldNumber {
    // The next digit that fills the field.
    fn next_digit(&self, fill: Fill) -> u8
        requires { fill.used < hashes self.now.cut.image }
        ensures { result ≡ next_digit self.now.cut.image (said_by_cut self.now.cut) fill }
    {
        let behind = self.cut.image.hashes() - 1 - fill.used;
        ((self.cut.halves >> (4 * behind)) & 15) as u8
    }

    // Whether the next digit is a leading zero that becomes the filling byte.
    fn is_suppressed(&self, digit: u8, fill: Fill) -> bool
        requires { fill.used < hashes self.now.cut.image }
        ensures { result ≡ (not fill.shown && (eqb digit 0 && ltb (fill.used + 1) self.now.cut.image.integer)) }
    {
        !fill.shown && digit == 0 && fill.used + 1 < usize::from(self.cut.image.integer)
    }

    // The byte printed for a byte of the field, which then counts as filled.
    #[tactic(auto, using(crate::proofs::LineProofs::FieldLaws::sign_shown_of), unfolding(crate::specs::Lines::Fields::fill_byte, crate::specs::Lines::Fields::fill_next))]
    fn fill_byte(&self, fill: &mut Fill, byte: u8) -> u8
        requires { byte ≡ hash_byte → fill.old.used < hashes self.now.cut.image }
        ensures printed { result ≡ fill_byte self.now.marks self.now.cut.image (said_by_cut self.now.cut) fill.old byte }
        ensures counted { fill.new ≡ fill_next self.now.cut.image (said_by_cut self.now.cut) fill.old byte }
    {
        match byte {
            b'#' => {
                let digit = self.next_digit(*fill);
                let suppressed = self.is_suppressed(digit, *fill);
                fill.shown = !suppressed;
                fill.used += 1;
                if suppressed {
                    self.marks.filling
                } else {
                    b'0' + digit
                }
            }
            b',' => self.marks.comma_byte(fill.shown),
            b'.' => {
                fill.shown = true;
                self.marks.decimal
            }
            _ => sign_byte(Sign::of_byte(byte), self.cut.negative),
        }
    }

    // Fills the field with the number, in the place of the field's own bytes.
    fn fill(&self, field: &mut [u8])
        requires { hash_count field.old ≤ hashes self.now.cut.image }
        ensures { field.new ≡ fill_bytes self.now.marks self.now.cut.image (said_by_cut self.now.cut) nothing_filled field.old }
    {
        let mut fill = Fill {
            shown: false,
            used: 0,
        };
        for byte in field.iter_mut() {
            *byte = self.fill_byte(&mut fill, *byte);
        }
    }

    // Writes the number into the field, in the place of the field's own bytes: as alpha text where the field is exponential, which has its length.
    fn write(&self, field: &mut [u8]) -> Result<(), Refusal>
        requires { FieldImage field.old self.now.cut.image }
        ensures answer { meaning result ≡ done tt }
        ensures bytes { field.new ≡ shown_marked self.now.marks field.old self.now.cut.image (said_by_cut self.now.cut) }
    {
        if self.cut.image.exponential {
            write_alpha(&self.cut, &mut *field)?;
            mark_point(self.cut.image, self.marks, field);
            Ok(())
        } else {
            self.fill(field);
            Ok(())
        }
    }
}

// The place of the point in the alpha text under an image.
#[tactic(auto, unfolding(crate::specs::Lines::Fields::point_place))]
fn point_place(image: Image) -> usize
    ensures { result ≡ point_place image }
{
    sign_count(image.sign) + usize::from(image.integer)
}

// Puts the decimal mark for the point of an alpha text.
#[tactic(auto, using(crate::proofs::LineProofs::MarkLaws::point_inside), unfolding(crate::specs::Lines::Fields::point_marked))]
fn mark_point(image: Image, marks: Marks, text: &mut [u8])
    requires { (hashes image ≤ precision) × (length text.old ≡ text_length image) }
    ensures { text.new ≡ point_marked marks image text.old }
{
    if image.fraction != 0 {
        let place = point_place(image);
        text[place] = marks.decimal;
    }
}

// Writes a number into a field, in the place of the field's own bytes; they stay where it is spilled, and that is told.
fn write_number(field: &mut [u8], image: Image, number: Number, marks: Marks) -> bool
    requires { FieldImage field.old image }
    ensures bytes { field.new ≡ or_field field.old (number_marked marks field.old number) }
    ensures spilled { result ≡ eqb (spilled_by (number_marked marks field.old number)) 1 }
{
    match cut_number(image, number, 0) {
        Ok(cut) => {
            let shown = FieldNumber { cut, marks };
            shown.write(field).is_err()
        }
        Err(_) => true,
    }
}

// Writes a text into a field, cut or filled with blanks.
#[tactic(auto, using(crate::proofs::LineProofs::FieldLaws::filled_parts))]
fn write_text(text: &[u8], target: &mut [u8])
    ensures { target.new ≡ filled (length target.old) blank_byte text.now }
{
    let kept = text.len().min(target.len());
    let (front, rest) = target.split_at_mut(kept);
    front.copy_from_slice(&text[..kept]);
    rest.fill(b' ');
}

// Writes what an element prints in a field, as many bytes as the field has, and tells whether it is spilled.
#[tactic(auto, using(crate::proofs::LineProofs::FieldLaws::text_inside), unfolding(crate::specs::Lines::Fields::element_bytes, crate::specs::Lines::Fields::element_spills, crate::specs::Lines::Fields::text_in))]
pub(crate) fn write_element(
    texts: &[u8],
    field: &[u8],
    image: Image,
    element: Element,
    target: &mut [u8],
) -> bool
    requires { (FieldImage field.now image) × (check_element (length texts.now) 0 element ≡ Answer.done tt) × (length target.old ≡ length field.now) }
    ensures bytes { target.new ≡ element_bytes texts.now field.now element }
    ensures spilled { result ≡ eqb (element_spills field.now element) 1 }
{
    match element {
        Element::Number(number) => {
            target.copy_from_slice(field);
            write_number(target, image, number, DOCUMENT_MARKS)
        }
        Element::Text(start, length) => {
            write_text(&texts[start..start + length], target);
            false
        }
    }
}

// The most bytes that a text number with no blank has: PRECISION digits, a sign, a point, and E with a sign and two digits.
const TEXT_ROOM: usize = PRECISION + 6;

// A field read back under marks: blanks, filling bytes and thousands marks dropped, the decimal mark taken for the point, and all that is
// left converted; refused with 8 or 5.
fn read_marked(field: &[u8], marks: Marks) -> Result<Number, Refusal>
    ensures { meaning result ≡ read_marked marks field.now }
{
    let mut kept: ArrayVec<u8, TEXT_ROOM> = ArrayVec::new();
    for byte in field {
        if !marks.is_dropped(*byte) {
            if kept.is_full() {
                return Err(NO_NUMBER);
            }
            kept.push(marks.read_byte(*byte));
        }
    }
    convert(kept.as_slice())
}

// A field read back: blanks and commas dropped, the whole of what is left converted; refused with 8 or 5.
pub fn read_field(field: &[u8]) -> Result<Number, Refusal>
    ensures { meaning result ≡ read_field field.now }
{
    read_marked(field, DOCUMENT_MARKS)
}
