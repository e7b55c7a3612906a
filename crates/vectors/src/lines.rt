// Rows of line images: what a line prints, and its fields.
use crate::shown::{ROOM, print_answer, print_quoted, print_text};
use arrayvec::ArrayVec;
use codec::written_part;
use records::{Element, MAX_ELEMENTS};
use std::io;
use std::io::Write;

// The element that bytes of a list from a place on are: a number where they are a text number, else a text.
fn element_of(bytes: &[u8], start: usize) -> Element {
    match codec::convert(bytes) {
        Ok(number) => Element::Number(number),
        Err(_) => Element::Text(start, bytes.len()),
    }
}

// The elements of a list, which are parted by semicolons; past MAX_ELEMENTS the list is not read. The start of a part is counted, since a text
// names its place in the list, which a part does not tell.
fn elements_of(list: &[u8]) -> ArrayVec<Element, MAX_ELEMENTS> {
    let mut elements = ArrayVec::new();
    let mut start = 0;
    for part in list.split_inclusive(|&byte| byte == b';') {
        if elements.is_full() {
            break;
        }
        elements.push(element_of(part.strip_suffix(b";").unwrap_or(part), start));
        start += part.len();
    }
    elements
}

// Prints a line with the elements of a list, and writes the printed lines, each between quotes, and the spilled count; or the refusal.
fn print_list<W: Write>(out: &mut W, line: &[u8], list: &[u8]) -> io::Result<()> {
    let mut buffer = [0u8; ROOM];
    let answer = records::print(line, &elements_of(list), list, &mut buffer);
    print_answer(out, answer, |out, printed| {
        print_text(out, written_part(Ok(printed.bytes), &buffer))?;
        write!(out, ", spilled {}", printed.spilled)
    })
}

// Writes a row: a line image, a list of elements, and what the line prints with them.
pub(crate) fn line_row(out: &mut impl Write, line: &[u8], list: &[u8]) -> io::Result<()> {
    print_quoted(out, line)?;
    out.write_all(b" with ")?;
    print_quoted(out, list)?;
    out.write_all(b": ")?;
    print_list(out, line, list)?;
    out.write_all(b"\n")
}

// Writes a blank and a field between quotes.
fn print_field(out: &mut impl Write, field: &[u8]) -> io::Result<()> {
    out.write_all(b" ")?;
    print_quoted(out, field)
}

// Writes the fields of a line. No `for`, since how much a turn takes off the front is known only by scan, which gives 0 where no field
// begins: that is its public form.
fn print_fields(out: &mut impl Write, line: &[u8]) -> io::Result<()> {
    let mut rest = line;
    while let [_, behind @ ..] = rest {
        let length = records::scan(rest, 0);
        if length == 0 {
            rest = behind;
        } else {
            let (field, after) = rest.split_at(length);
            print_field(out, field)?;
            rest = after;
        }
    }
    Ok(())
}

// Writes a row: a line image and its fields.
pub(crate) fn fields_row(out: &mut impl Write, line: &[u8]) -> io::Result<()> {
    print_quoted(out, line)?;
    out.write_all(b": fields")?;
    print_fields(out, line)?;
    out.write_all(b"\n")
}
