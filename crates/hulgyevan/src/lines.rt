// Print lines: calls of the layer records.
ghost use Rattle.std.specs.Prelude.{◌≡◌, ◌+◌, ◌≤◌, length, take, drop};
ghost use Rattle.decimal.specs.Answer.{meaning, mapped};
ghost use Rattle.codec.specs.Answers.{stored_in};
ghost use Rattle.records.specs.Lines.Fields.{read_field};
ghost use Rattle.records.specs.Lines.Scanning.{field_length};
ghost use Rattle.records.specs.Lines.Printing.{max_elements, printing, forecasting, printed_of, bytes_of};
ghost use Rattle.hulgyevan.specs.Words.{word_of};
ghost use Rattle.hulgyevan.specs.Outcomes.{outcome, value_or};
ghost use Rattle.hulgyevan.specs.Lines.{element_in, elements_in, printed_size, spilled_of};

use crate::words::{FEW, give_number, give_size, number_of, refusal_word};
use arrayvec::ArrayVec;
use decimal::Refusal;
use records::{MAX_ELEMENTS, Printed, forecast, print, read_field, scan};

// An element of a line: of kind 0 the number of a word, of any other kind a text by a start and a length into lent bytes.
#[derive(Clone, Copy)]
#[repr(C)]
pub struct Element {
    pub kind: u64,
    pub number: u64,
    pub start: usize,
    pub length: usize,
}

// The element of the layer records.
#[tactic(auto, unfolding(crate::specs::Lines::element_in))]
fn element_of(element: Element) -> records::Element
    ensures { result ≡ element_in element }
{
    if element.kind == 0 {
        records::Element::Number(number_of(element.number))
    } else {
        records::Element::Text(element.start, element.length)
    }
}

// One element more than a line takes: a longer list is refused as its first so many elements are.
const ELEMENTS: usize = MAX_ELEMENTS + 1;

// The elements of the layer records, of the first N.
fn elements_of<const N: usize>(elements: &[Element]) -> ArrayVec<records::Element, N>
    ensures { result.items ≡ elements_in (take N elements.now) }
{
    let mut list = ArrayVec::new();
    for element in elements {
        if list.is_full() {
            break;
        }
        list.push(element_of(*element));
    }
    list
}

// The length of the field that starts at a place of a line; 0 if the byte there is literal or the place is past the end.
#[unsafe(no_mangle)]
pub extern "C" fn hulgyevan_scan(line: &[u8], at: usize) -> usize
    ensures { result ≡ field_length (drop at line.now) }
{
    scan(line, at)
}

// Prints a line image with the first N elements.
fn print_first<const N: usize>(
    line: &[u8],
    elements: &[Element],
    texts: &[u8],
    buffer: &mut [u8],
) -> Result<Printed, Refusal>
    requires { N ≤ max_elements + 1 }
    ensures answer { meaning result ≡ mapped printed_of (printing line.now (elements_in (take N elements.now)) texts.now (length buffer.old)) }
    ensures bytes { buffer.new ≡ stored_in (mapped bytes_of (printing line.now (elements_in (take N elements.now)) texts.now (length buffer.old))) buffer.old }
{
    let list = elements_of::<N>(elements);
    print(line, &list, texts, buffer)
}

// Prints a line image with elements into a buffer, and gives the count of bytes and that of spilled elements: the bytes behind stay.
// Refused with 10, with 2 and the field, with 9, elements from the left with 13 or 3, last with 6; then nothing changes.
#[tactic(auto, using(crate::proofs::CutLaws::cut_printing, crate::proofs::CallLaws::value_refused, crate::proofs::LineLaws::printed_refused, crate::proofs::LineLaws::printed_word, crate::proofs::LineLaws::printed_bytes, crate::proofs::LineLaws::printed_spilled))]
#[unsafe(no_mangle)]
pub extern "C" fn hulgyevan_print(
    line: &[u8],
    elements: &[Element],
    texts: &[u8],
    buffer: &mut [u8],
    size: &mut usize,
    spilled: &mut usize,
) -> u64
    ensures word { result ≡ outcome (printing line.now (elements_in elements.now) texts.now (length buffer.old)) }
    ensures size { size.new ≡ value_or (mapped printed_size (printing line.now (elements_in elements.now) texts.now (length buffer.old))) size.old }
    ensures spilled { spilled.new ≡ value_or (mapped spilled_of (printing line.now (elements_in elements.now) texts.now (length buffer.old))) spilled.old }
    ensures bytes { buffer.new ≡ stored_in (mapped bytes_of (printing line.now (elements_in elements.now) texts.now (length buffer.old))) buffer.old }
{
    let printed = if elements.len() <= FEW {
        print_first::<FEW>(line, elements, texts, buffer)
    } else {
        print_first::<ELEMENTS>(line, elements, texts, buffer)
    };
    match printed {
        Ok(printed) => {
            *size = printed.bytes;
            *spilled = printed.spilled;
            0
        }
        Err(refusal) => refusal_word(refusal),
    }
}

// The forecast of a line of some length with so many elements; refused with 10.
#[unsafe(no_mangle)]
pub extern "C" fn hulgyevan_forecast(length: usize, count: usize, size: &mut usize) -> u64
    ensures word { result ≡ outcome (forecasting count length) }
    ensures size { size.new ≡ value_or (forecasting count length) size.old }
{
    give_size(forecast(length, count), size)
}

// A field read back: blanks and commas dropped, the whole of what is left converted; refused with 8 or 5.
#[unsafe(no_mangle)]
pub extern "C" fn hulgyevan_read_field(field: &[u8], number: &mut u64) -> u64
    ensures word { result ≡ outcome (read_field field.now) }
    ensures number { number.new ≡ value_or (mapped word_of (read_field field.now)) number.old }
{
    give_number(read_field(field), number)
}
