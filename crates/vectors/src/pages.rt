// Rows of a page's positions found in a file.
use crate::shown::{print_answer, print_hexadecimal, print_quoted};
use rolls::Found;
use std::io;
use std::io::Write;

// Writes the records found, and the count of comparisons.
fn print_found(out: &mut impl Write, found: Found) -> io::Result<()> {
    out.write_all(b"records")?;
    for record in found.records.as_slice() {
        write!(out, " {record}")?;
    }
    write!(out, ", comparisons {}", found.comparisons)
}

// Writes a row: a file, the numbers of a text as positions, and the records found with the count of comparisons, or the refusal.
pub(crate) fn page_row(out: &mut impl Write, file: &[u8], text: &[u8]) -> io::Result<()> {
    out.write_all(b"file")?;
    print_hexadecimal(out, file)?;
    out.write_all(b" at ")?;
    print_quoted(out, text)?;
    out.write_all(b": ")?;
    let walked = codec::read_text_numbers(text, 0);
    print_answer(out, rolls::find(file, &walked.numbers), print_found)?;
    out.write_all(b"\n")
}
