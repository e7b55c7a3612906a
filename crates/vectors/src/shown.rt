// Small writers to an output.
use codec::written_part;
use decimal::{EXPONENT_LIMIT, Number, Refusal, Remainder, SCALE};
use std::io;
use std::io::Write;

// The room for a text, a body, a print or a merged file: no row needs more.
pub(crate) const ROOM: usize = 256;

// The sign that stands before a number.
pub(crate) fn sign(negative: bool) -> char {
    if negative { '-' } else { '+' }
}

// Writes an answer: a refusal, or what is printed of the value. The program calls has its own, which writes ok before the value: one for
// both would be an open function of a library, which may not ask that what it is given can be called.
pub(crate) fn print_answer<W: Write, T: Drop, F: Fn(&mut W, T) -> io::Result<()>>(
    out: &mut W,
    answer: Result<T, Refusal>,
    print: F,
) -> io::Result<()>
    requires { F.IsAlwaysCallable print }
{
    match answer {
        Err(refusal) => write!(out, "{refusal}"),
        Ok(value) => print(out, value),
    }
}

// Writes bytes between quotes.
pub(crate) fn print_quoted(out: &mut impl Write, bytes: &[u8]) -> io::Result<()> {
    out.write_all(b"'")?;
    out.write_all(bytes)?;
    out.write_all(b"'")
}

// Writes e and a power that is held with some excess added.
fn print_power(out: &mut impl Write, held: usize, excess: usize) -> io::Result<()> {
    write!(out, " e {}{}", sign(held < excess), held.abs_diff(excess))
}

// Writes a number in normal form: sign and mantissa, then e and the exponent.
pub(crate) fn print_number(out: &mut impl Write, number: Number) -> io::Result<()> {
    write!(out, "{}{}", sign(number.negative), number.mantissa)?;
    print_power(out, number.exponent, EXPONENT_LIMIT)
}

// Writes a remainder: r, then e and the power.
pub(crate) fn print_remainder(out: &mut impl Write, remainder: Remainder) -> io::Result<()> {
    write!(out, "{}", remainder.whole)?;
    print_power(out, remainder.power, SCALE)
}

// Writes bytes in hexadecimal, a blank before each.
pub(crate) fn print_hexadecimal(out: &mut impl Write, bytes: &[u8]) -> io::Result<()> {
    for byte in bytes {
        write!(out, " {byte:02x}")?;
    }
    Ok(())
}

// Writes the written part of a buffer in hexadecimal, or the refusal, a blank before each byte and before the refusal.
pub(crate) fn print_written(
    out: &mut impl Write,
    answer: Result<usize, Refusal>,
    buffer: &[u8],
) -> io::Result<()> {
    match answer {
        Err(refusal) => write!(out, " {refusal}"),
        Ok(_) => print_hexadecimal(out, written_part(answer, buffer)),
    }
}

// Writes a printed text between quotes; a line end closes the quotes, and opens them again for the next line.
pub(crate) fn print_text(out: &mut impl Write, text: &[u8]) -> io::Result<()> {
    out.write_all(b"'")?;
    for byte in text {
        match byte {
            b'\n' => out.write_all(b"' '")?,
            _ => out.write_all(&[*byte])?,
        }
    }
    out.write_all(b"'")
}
