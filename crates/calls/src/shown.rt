// Small writers to an output.
use codec::MAX_COLUMNS;
use decimal::{EXPONENT_LIMIT, Number, Refusal, Remainder, SCALE};
use std::io::Write;
use std::{io, iter};

// Writes an answer: a refusal, or ok and what is printed of the value.
pub(crate) fn print_answer<W: Write, T: Drop, F: Fn(&mut W, T) -> io::Result<()>>(
    out: &mut W,
    answer: Result<T, Refusal>,
    print: F,
) -> io::Result<()>
    requires { F.IsAlwaysCallable print }
{
    match answer {
        Err(refusal) => write!(out, "{refusal}"),
        Ok(value) => {
            out.write_all(b"ok")?;
            print(out, value)
        }
    }
}

// Writes a blank and a count.
pub(crate) fn print_count(out: &mut impl Write, count: usize) -> io::Result<()> {
    write!(out, " {count}")
}

// Writes a blank and bytes in hexadecimal, a dot for none.
pub(crate) fn print_bytes(out: &mut impl Write, bytes: &[u8]) -> io::Result<()> {
    out.write_all(b" ")?;
    if bytes.is_empty() {
        out.write_all(b".")?;
    }
    for byte in bytes {
        write!(out, "{byte:02x}")?;
    }
    Ok(())
}

// Writes a whole number, e and a power, which is held with some excess added.
fn print_power(out: &mut impl Write, whole: u64, held: usize, excess: usize) -> io::Result<()> {
    let minus = if held < excess { "-" } else { "" };
    let power = held.abs_diff(excess);
    write!(out, "{whole}e{minus}{power}")
}

// Writes a blank, a sign, a whole number, e and the exponent, which is held with EXPONENT_LIMIT added.
pub(crate) fn print_parts(
    out: &mut impl Write,
    negative: bool,
    whole: u64,
    held: usize,
) -> io::Result<()> {
    out.write_all(if negative { b" -" } else { b" +" })?;
    print_power(out, whole, held, EXPONENT_LIMIT)
}

// Writes a blank and a number's parts.
pub(crate) fn print_number(out: &mut impl Write, number: Number) -> io::Result<()> {
    print_parts(out, number.negative, number.mantissa, number.exponent)
}

// Writes a blank and a remainder.
pub(crate) fn print_remainder(out: &mut impl Write, remainder: Remainder) -> io::Result<()> {
    out.write_all(b" ")?;
    print_power(out, remainder.whole, remainder.power, SCALE)
}

// Writes what stands in so many places of a list, behind its last item the item that stands for none.
pub(crate) fn print_places<W: Write, T: Copy + Default, F: Fn(&mut W, T) -> io::Result<()>>(
    out: &mut W,
    items: &[T],
    places: usize,
    print: F,
) -> io::Result<()>
    requires { F.IsAlwaysCallable print }
{
    let none = iter::repeat_with(|| T::default());
    for item in items.iter().copied().chain(none).take(places) {
        print(out, item)?;
    }
    Ok(())
}

// Writes a list of numbers: its count, and as many values as a list can have, zeros behind the last one.
pub(crate) fn print_numbers(out: &mut impl Write, numbers: &[Number]) -> io::Result<()> {
    print_count(out, numbers.len())?;
    print_places(out, numbers, MAX_COLUMNS, print_number)
}

// Writes a list of remainders: its count, and as many values as a list can have, zeros behind the last one.
pub(crate) fn print_remainders(out: &mut impl Write, remainders: &[Remainder]) -> io::Result<()> {
    print_count(out, remainders.len())?;
    print_places(out, remainders, MAX_COLUMNS, print_remainder)
}

// Writes the answer of a call that writes, what it wrote, and the whole buffer.
pub(crate) fn print_written<W: Write>(
    out: &mut W,
    answer: Result<usize, Refusal>,
    buffer: &[u8],
) -> io::Result<()> {
    print_answer(out, answer, |out, _| {
        print_bytes(out, codec::written_part(answer, buffer))
    })?;
    print_buffer(out, buffer)
}

// Writes the answer of a call that adds a record, the used length, and the whole buffer.
pub(crate) fn print_added(
    out: &mut impl Write,
    answer: Result<usize, Refusal>,
    buffer: &[u8],
) -> io::Result<()> {
    print_answer(out, answer, print_count)?;
    print_buffer(out, buffer)
}

// Writes a buffer as a call left it.
pub(crate) fn print_buffer(out: &mut impl Write, buffer: &[u8]) -> io::Result<()> {
    out.write_all(b" buffer")?;
    print_bytes(out, buffer)
}
