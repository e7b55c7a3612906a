// Printing a line image with its elements (document 01: Print lines).
ghost use Rattle.std.specs.Prelude.{◌≡◌, ◌≤◌, List, ℕ, length, IfOk};
ghost use Rattle.std.specs.Result.{OnOk};
ghost use Rattle.decimal.specs.Answer.{meaning, mapped, checked_only};
ghost use Rattle.codec.specs.Answers.{stored_in, written};
ghost use Rattle.records.specs.Lines.Printing.{
  max_elements,
  max_line,
  check_counts,
  check_element,
  check_elements,
  line_checks,
  print_from,
  LineReady,
  PrintReady,
  printing,
  forecasting,
  printed_of,
  bytes_of,
};
ghost use Rattle.records.specs.Lines.LineFields.{Listed};

use crate::lines::fields::{Element, write_element};
use crate::lines::line_fields::{FIELDS, Field, find_fields};
use arrayvec::ArrayVec;
use decimal::{Reason, Refusal};

// The most elements of a line.
pub const MAX_ELEMENTS: usize = 64;

// The most bytes of a line image.
const MAX_LINE: usize = 4096;

// What was printed: the count of bytes written, and how many elements are spilled.
#[derive(Clone, Copy, Debug, PartialEq, Eq, Hash)]
pub struct Printed {
    pub bytes: usize,
    pub spilled: usize,
}

// Whether an element can be printed: refused with 13 or 3.
#[tactic(auto, unfolding(crate::specs::Lines::Printing::check_element))]
fn check_element(element: Element, room: usize, index: usize) -> Result<(), Refusal>
    ensures { meaning result ≡ check_element room index element }
{
    match element {
        Element::Number(number) => number.checked(index).map(|_| ()),
        Element::Text(start, length) if room < start || room - start < length => Err(Refusal {
            reason: Reason::TextOutside,
            place: index,
        }),
        Element::Text(_, _) => Ok(()),
    }
}

// Whether a line can have so many elements and bytes: refused with 10.
#[tactic(auto, using(crate::proofs::LineProofs::CheckLaws::counts_many, crate::proofs::LineProofs::CheckLaws::counts_long, crate::proofs::LineProofs::CheckLaws::counts_done))]
fn check_counts(count: usize, length: usize) -> Result<(), Refusal>
    ensures answer { meaning result ≡ check_counts count length }
    ensures within { OnOk result ((count ≤ max_elements) × (length ≤ max_line)) }
{
    if MAX_ELEMENTS < count || MAX_LINE < length {
        return Err(Refusal::WRONG_COUNT);
    }
    Ok(())
}

// Checks the elements from the left: refused with 13 or 3.
#[tactic(auto, using(crate::proofs::LineProofs::CheckLaws::elements_refused, crate::proofs::LineProofs::CheckLaws::elements_next), unfolding(crate::specs::Lines::Printing::check_elements))]
fn check_elements(elements: &[Element], room: usize) -> Result<(), Refusal>
    ensures { meaning result ≡ check_elements room 0 elements.now }
{
    for (index, element) in elements.iter().enumerate() {
        check_element(*element, room, index)?;
    }
    Ok(())
}

// The first fields of a line that can be printed with the elements.
// Refused with 10, with 2 and the field, with 9, elements from the left with 13 or 3.
#[tactic(auto, using(crate::proofs::LineProofs::CheckLaws::line_counts, crate::proofs::LineProofs::CheckLaws::line_fields_lem, crate::proofs::LineProofs::PrintCallLaws::line_listed), unfolding(decimal::specs::Answer::checked_only))]
fn check_line(
    line: &[u8],
    elements: &[Element],
    room: usize,
) -> Result<ArrayVec<Field, FIELDS>, Refusal>
    ensures listed { IfOk result (λ fields. Listed line.now fields.items) }
    ensures answer { checked_only (meaning result) ≡ line_checks line.now elements.now room }
{
    check_counts(elements.len(), line.len())?;
    let fields = find_fields(line)?;
    let has_elements = !elements.is_empty();
    if fields.is_empty() && has_elements {
        return Err(Refusal {
            reason: Reason::NoField,
            place: 0,
        });
    }
    check_elements(elements, room)?;
    Ok(fields)
}

// The count of bytes that a line prints, for a line that has a field or no elements.
// The outer loop goes over lines and is left from inside when the elements run out, as in write_lines.
fn measure(line: &[u8], fields: &[Field], elements: &[Element]) -> usize
    requires { (LineReady line.now elements.now) × (Listed line.now fields.now) }
    ensures { (texts : List ℕ) → result ≡ length (print_from texts line.now line.now elements.now).bytes }
{
    let mut bytes = 0;
    let mut left = elements;
    'lines: loop {
        let mut at = 0;
        for field in fields {
            let start = usize::from(field.start);
            let length = usize::from(field.length);
            bytes += start - at;
            let [_, rest @ ..] = left else {
                break 'lines;
            };
            bytes += length;
            left = rest;
            at = start + length;
        }
        bytes += line.len() - at;
        if left.is_empty() {
            break 'lines;
        }
        bytes += 1;
    }
    bytes
}

// Writes what a line prints, from the buffer's start on, by document 01's labelled loop, for a line that has a field or no elements; gives
// the count of spilled elements.
fn write_lines(
    line: &[u8],
    fields: &[Field],
    elements: &[Element],
    texts: &[u8],
    buffer: &mut [u8],
) -> usize
    requires { (PrintReady line.now elements.now texts.now (length buffer.old)) × (Listed line.now fields.now) }
    ensures bytes { buffer.new ≡ written buffer.old 0 (print_from texts.now line.now line.now elements.now).bytes }
    ensures spilled { result ≡ (print_from texts.now line.now line.now elements.now).spilled }
{
    let mut out = 0;
    let mut spilled = 0;
    let mut left = elements;
    'lines: loop {
        let mut at = 0;
        for field in fields {
            let start = usize::from(field.start);
            let length = usize::from(field.length);
            let front = out + (start - at);
            buffer[out..front].copy_from_slice(&line[at..start]);
            out = front;
            let [element, rest @ ..] = left else {
                break 'lines;
            };
            let end = start + length;
            let behind = out + length;
            let is_spilled = write_element(
                texts,
                &line[start..end],
                field.image,
                *element,
                &mut buffer[out..behind],
            );
            spilled += usize::from(is_spilled);
            out = behind;
            left = rest;
            at = end;
        }
        let behind = out + (line.len() - at);
        buffer[out..behind].copy_from_slice(&line[at..]);
        out = behind;
        if left.is_empty() {
            break 'lines;
        }
        buffer[out] = b'\n';
        out += 1;
    }
    spilled
}

// Prints a line image with elements into a buffer; the bytes behind what is printed stay.
// Refused with 10, with 2 and the field, with 9, elements from the left with 13 or 3, last with 6; then no byte changes.
pub fn print(
    line: &[u8],
    elements: &[Element],
    texts: &[u8],
    buffer: &mut [u8],
) -> Result<Printed, Refusal>
    ensures answer { meaning result ≡ mapped printed_of (printing line.now elements.now texts.now (length buffer.old)) }
    ensures bytes { buffer.new ≡ stored_in (mapped bytes_of (printing line.now elements.now texts.now (length buffer.old))) buffer.old }
{
    let fields = check_line(line, elements, texts.len())?;
    let bytes = measure(line, &fields, elements);
    if buffer.len() < bytes {
        return Err(Refusal::NO_ROOM);
    }
    let spilled = write_lines(line, &fields, elements, texts, &mut *buffer);
    Ok(Printed { bytes, spilled })
}

// The forecast of a line of some length with so many elements: (elements + 1) * (length + 1); refused with 10.
#[tactic(auto, using(crate::proofs::LineProofs::CheckLaws::forecast_done, crate::proofs::LineProofs::CheckLaws::forecast_refused))]
pub fn forecast(length: usize, count: usize) -> Result<usize, Refusal>
    ensures { meaning result ≡ forecasting count length }
{
    check_counts(count, length)?;
    Ok((count + 1) * (length + 1))
}
