// Rows of images, packed sizes and bodies. Each takes a contents with one column, its count and length too, as the bytes that the codec
// takes, so that this program makes none.
use crate::scaled::Scaled;
use crate::shown::{
    ROOM, print_answer, print_hexadecimal, print_number, print_remainder, print_text, print_written,
};
use codec::{Contents, Numbers, Packed, written_part};
use decimal::{Number, Refusal, Remainder};
use std::io;
use std::io::Write;

// The image of a contents with one column: what stands behind the count of columns and the length of the image.
fn image_of(contents: &[u8]) -> &[u8] {
    match contents {
        [_, _, image @ ..] => image,
        _ => &[],
    }
}

// Writes the alpha text of a number under an image.
fn print_alpha<W: Write>(out: &mut W, image: &[u8], number: Number) -> io::Result<()> {
    let mut buffer = [0u8; ROOM];
    let answer = codec::alpha(image, number, &mut buffer);
    print_answer(out, answer, |out, _| {
        print_text(out, written_part(answer, &buffer))
    })
}

// Packs a number under the bytes of a contents.
fn pack_alone(contents: &[u8], number: Number, buffer: &mut [u8]) -> Result<usize, Refusal> {
    codec::pack(&Contents::read(contents)?, &[number], buffer)
}

// Packs a number under the bytes of a contents, and gives the remainder.
fn cut_alone(contents: &[u8], number: Number, buffer: &mut [u8]) -> Result<Packed, Refusal> {
    codec::pack_with_remainders(&Contents::read(contents)?, &[number], buffer)
}

// The numbers of a body under the bytes of a contents.
fn unpack_alone(contents: &[u8], body: &[u8]) -> Result<Numbers, Refusal> {
    Contents::read(contents)?.unpack(body)
}

// Packs a number under a contents, and writes the body, or the refusal.
fn print_packed(out: &mut impl Write, contents: &[u8], number: Number) -> io::Result<()> {
    let mut buffer = [0u8; ROOM];
    let answer = pack_alone(contents, number, &mut buffer);
    print_written(out, answer, &buffer)
}

// Writes a row: an image, a number, and what is printed of that number, or the refusal.
fn scaled_row<W: Write, F: Fn(&mut W, Number) -> io::Result<()>>(
    out: &mut W,
    contents: &[u8],
    scaled: Scaled,
    print: F,
) -> io::Result<()>
    requires { F.IsAlwaysCallable print }
{
    out.write_all(image_of(contents))?;
    write!(out, " {scaled}: ")?;
    print_answer(out, scaled.number(), print)?;
    out.write_all(b"\n")
}

// Writes the alpha text of a number under the image of a contents, and its body, or the refusals.
fn print_both(out: &mut impl Write, contents: &[u8], number: Number) -> io::Result<()> {
    print_alpha(out, image_of(contents), number)?;
    out.write_all(b"; body")?;
    print_packed(out, contents, number)
}

// Writes a row: an image, a number, its alpha text and its body, or the refusals.
pub(crate) fn image_row<W: Write>(out: &mut W, contents: &[u8], scaled: Scaled) -> io::Result<()> {
    scaled_row(out, contents, scaled, |out, number| {
        print_both(out, contents, number)
    })
}

// Writes what is cut off the only number of a list.
fn print_remainders(out: &mut impl Write, remainders: &[Remainder]) -> io::Result<()> {
    match remainders {
        [remainder, ..] => print_remainder(out, *remainder),
        [] => out.write_all(b"none"),
    }
}

// Packs a number under a contents, and writes the body and what is cut off, or the refusal. No print_answer, since text stands behind a
// refusal too.
fn print_cut(out: &mut impl Write, contents: &[u8], number: Number) -> io::Result<()> {
    let mut buffer = [0u8; ROOM];
    match cut_alone(contents, number, &mut buffer) {
        Err(refusal) => write!(out, "{refusal}; cut off none"),
        Ok(packed) => {
            out.write_all(b"body")?;
            print_hexadecimal(out, written_part(Ok(packed.size), &buffer))?;
            out.write_all(b"; cut off ")?;
            print_remainders(out, &packed.remainders)
        }
    }
}

// Writes a row: an image, a number, its body and what is cut off, or the refusal.
pub(crate) fn cut_row<W: Write>(out: &mut W, contents: &[u8], scaled: Scaled) -> io::Result<()> {
    scaled_row(out, contents, scaled, |out, number| {
        print_cut(out, contents, number)
    })
}

// Writes a row: an image and the size of its column, or the refusal.
pub(crate) fn size_row<W: Write>(out: &mut W, contents: &[u8]) -> io::Result<()> {
    out.write_all(image_of(contents))?;
    out.write_all(b": ")?;
    print_answer(out, Contents::read(contents), |out, table| {
        write!(out, "{} bytes", table.body_size())
    })?;
    out.write_all(b"\n")
}

// Writes the numbers of a body.
fn print_numbers(out: &mut impl Write, numbers: Numbers) -> io::Result<()> {
    for number in numbers.as_slice() {
        print_number(out, *number)?;
    }
    Ok(())
}

// Writes a row: an image, a body, and the number that it reads as, or the refusal.
pub(crate) fn body_row(out: &mut impl Write, contents: &[u8], body: &[u8]) -> io::Result<()> {
    out.write_all(image_of(contents))?;
    out.write_all(b" body")?;
    print_hexadecimal(out, body)?;
    out.write_all(b": ")?;
    print_answer(out, unpack_alone(contents, body), print_numbers)?;
    out.write_all(b"\n")
}
