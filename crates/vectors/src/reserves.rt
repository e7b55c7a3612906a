// Rows of records that are added in two calls: a place is reserved, and a record is written there.
use crate::shown::{ROOM, print_answer, print_hexadecimal, print_number};
use decimal::{EXPONENT_LIMIT, Number};
use records::Reservation;
use std::io;
use std::io::Write;

// A number that is not in normal form: its mantissa 12 is not shifted to the left.
pub(crate) const NOT_NORMAL: Number = Number {
    negative: false,
    mantissa: 12,
    exponent: EXPONENT_LIMIT,
};

// A place that is reserved for a body: where it goes, and its size.
pub(crate) fn place(start: usize, size: usize) -> Reservation {
    Reservation { start, size }
}

// Writes a place that is reserved.
fn print_place(out: &mut impl Write, reservation: Reservation) -> io::Result<()> {
    write!(out, "{} {}", reservation.start, reservation.size)
}

// Writes a buffer in hexadecimal and the used length of the file in it.
fn print_used(out: &mut impl Write, buffer: &[u8], used: usize) -> io::Result<()> {
    print_hexadecimal(out, buffer)?;
    write!(out, " at {used}")
}

// Writes a row: a buffer, the used length of the file in it, and the place that is reserved behind that file, or the refusal.
pub(crate) fn reserve_row(out: &mut impl Write, buffer: &[u8], used: usize) -> io::Result<()> {
    out.write_all(b"reserve")?;
    print_used(out, buffer, used)?;
    out.write_all(b": ")?;
    print_answer(out, records::reserve(buffer, used), print_place)?;
    out.write_all(b"\n")
}

// Writes a record in a copy of a buffer, and writes the new used length and the whole copy, or the refusal.
fn print_filled<W: Write>(
    out: &mut W,
    buffer: &[u8],
    used: usize,
    reservation: Reservation,
    numbers: &[Number],
) -> io::Result<()> {
    let mut room = [0u8; ROOM];
    let length = buffer.len().min(ROOM);
    let copy = &mut room[..length];
    copy.copy_from_slice(&buffer[..length]);
    let answer = records::write_reserved(used, reservation, numbers, &mut *copy);
    print_answer(out, answer, |out, filled| {
        write!(out, "{filled}")?;
        print_hexadecimal(out, &*copy)
    })
}

// Writes numbers, a blank before each.
fn print_numbers(out: &mut impl Write, numbers: &[Number]) -> io::Result<()> {
    for number in numbers {
        out.write_all(b" ")?;
        print_number(out, *number)?;
    }
    Ok(())
}

// Writes a row: a buffer, its used length, a reserved place, numbers, and the new used length and whole buffer, or the refusal.
pub(crate) fn list_row(
    out: &mut impl Write,
    buffer: &[u8],
    used: usize,
    reservation: Reservation,
    numbers: &[Number],
) -> io::Result<()> {
    out.write_all(b"write")?;
    print_used(out, buffer, used)?;
    out.write_all(b" for ")?;
    print_place(out, reservation)?;
    out.write_all(b" of")?;
    print_numbers(out, numbers)?;
    out.write_all(b": ")?;
    print_filled(out, buffer, used, reservation, numbers)?;
    out.write_all(b"\n")
}

// Writes such a row with the numbers of a text.
pub(crate) fn write_row(
    out: &mut impl Write,
    buffer: &[u8],
    used: usize,
    reservation: Reservation,
    text: &[u8],
) -> io::Result<()> {
    let walked = codec::read_text_numbers(text, 0);
    list_row(out, buffer, used, reservation, &walked.numbers)
}
