// Rows of texts that are entered as records, and of files that were cut short.
use crate::shown::{ROOM, print_answer, print_hexadecimal, print_text, print_written};
use records::WholeLength;
use std::io;
use std::io::Write;

// Enters a text under a contents into a buffer with so much room, at most ROOM, and writes the file, or the refusal.
fn print_entered(
    out: &mut impl Write,
    contents: &[u8],
    text: &[u8],
    room: usize,
) -> io::Result<()> {
    let mut bytes = [0u8; ROOM];
    let buffer = &mut bytes[..room.min(ROOM)];
    match records::enter(contents, text, &mut *buffer) {
        Err(refusal) => write!(out, " {refusal}"),
        Ok(size) => print_written(out, Ok(size), buffer),
    }
}

// Writes a row: a text, a contents, the room for the file, and the file, or the refusal.
pub(crate) fn enter_row(
    out: &mut impl Write,
    contents: &[u8],
    text: &[u8],
    room: usize,
) -> io::Result<()> {
    out.write_all(b"enter ")?;
    print_text(out, text)?;
    out.write_all(b" under")?;
    print_hexadecimal(out, contents)?;
    write!(out, " into {room}:")?;
    print_entered(out, contents, text, room)?;
    out.write_all(b"\n")
}

// Writes the length of what is whole of a file, and the count of bytes behind it.
fn print_whole(out: &mut impl Write, whole: WholeLength) -> io::Result<()> {
    write!(out, "{} and {} behind", whole.length, whole.behind)
}

// Writes a row: a file, and what is whole of it, or the refusal.
pub(crate) fn whole_row(out: &mut impl Write, file: &[u8]) -> io::Result<()> {
    out.write_all(b"whole")?;
    print_hexadecimal(out, file)?;
    out.write_all(b": ")?;
    print_answer(out, records::whole_length(file), print_whole)?;
    out.write_all(b"\n")
}
