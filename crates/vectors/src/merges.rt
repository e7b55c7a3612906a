// Rows of two files that are merged.
use crate::shown::{ROOM, print_hexadecimal, print_written};
use std::io;
use std::io::Write;

// Merges two files, and writes the merged file, or the refusal.
fn print_merged(out: &mut impl Write, first: &[u8], second: &[u8]) -> io::Result<()> {
    let mut buffer = [0u8; ROOM];
    let answer = rolls::merge(first, second, &mut buffer);
    print_written(out, answer, &buffer)
}

// Writes a row: two files, and the merged file, or the refusal.
pub(crate) fn merge_row(out: &mut impl Write, first: &[u8], second: &[u8]) -> io::Result<()> {
    out.write_all(b"merge")?;
    print_hexadecimal(out, first)?;
    out.write_all(b" and")?;
    print_hexadecimal(out, second)?;
    out.write_all(b":")?;
    print_merged(out, first, second)?;
    out.write_all(b"\n")
}
