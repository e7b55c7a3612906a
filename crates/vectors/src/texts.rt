// Rows of texts.
use crate::shown::{print_answer, print_number, print_quoted};
use std::io;
use std::io::Write;

// The blanks of a long text, before which a byte stands and behind which a digit.
const BLANKS: usize = 4094;

// Writes a row: a text between quotes, its legal length, and its number or the refusal.
pub(crate) fn text_row(out: &mut impl Write, text: &[u8]) -> io::Result<()> {
    print_quoted(out, text)?;
    write!(out, ": length {}, ", codec::legal_length(text))?;
    print_converted(out, text)
}

// Ends a row with the number of a whole text, or the refusal.
fn print_converted(out: &mut impl Write, text: &[u8]) -> io::Result<()> {
    print_answer(out, codec::convert(text), print_number)?;
    out.write_all(b"\n")
}

// Ends a row with what is read of a text, the number and the bytes used, and with what the whole text is converted to.
fn print_read<W: Write>(out: &mut W, text: &[u8]) -> io::Result<()> {
    out.write_all(b": reads ")?;
    print_answer(out, codec::read_text_number(text), |out, read| {
        print_number(out, read.number)?;
        write!(out, ", used {}", read.used)
    })?;
    out.write_all(b"; whole ")?;
    print_converted(out, text)
}

// Writes a row: a text between quotes, and what is read of it and converted.
pub(crate) fn read_row(out: &mut impl Write, text: &[u8]) -> io::Result<()> {
    print_quoted(out, text)?;
    print_read(out, text)
}

// Writes the row of a long text: a byte, BLANKS blanks and a digit.
pub(crate) fn long_row(out: &mut impl Write, first: u8) -> io::Result<()> {
    let mut text = [b' '; BLANKS + 2];
    text[0] = first;
    text[BLANKS + 1] = b'7';
    print_quoted(out, &[first])?;
    write!(out, ", {BLANKS} blanks and 7")?;
    print_read(out, &text)
}
