// The calls, a function for each: its arguments are a line's words as bytes, and it writes the answer and every byte of a lent buffer.
ghost use Rattle.std.specs.Prelude.{◌≡◌};
ghost use Rattle.decimal.specs.Answer.{meaning};
ghost use Rattle.records.specs.Files.RecordFile.{added, new_length, written_behind};

use crate::items::{elements_in, number_in, numbers_in, reservation_in};
use crate::shown::{
    print_added, print_answer, print_buffer, print_bytes, print_count, print_number, print_numbers,
    print_parts, print_places, print_remainder, print_remainders, print_written,
};
use crate::words::whole;
use codec::{Contents, Numbers, Packed, Stop};
use decimal::{EXPONENT_LIMIT, Image, Number, Refusal, Sign};
use records::{EntryRefusal, RecordFile};
use rolls::MAX_POSITIONS;
use std::cmp::Ordering;
use std::io;
use std::io::Write;
use std::ops::Range;

// Packs under the bytes of a contents.
fn pack_alone(contents: &[u8], numbers: &[Number], buffer: &mut [u8]) -> Result<usize, Refusal> {
    codec::pack(&Contents::read(contents)?, numbers, buffer)
}

// Packs under the bytes of a contents, and gives the remainders.
fn cut_alone(contents: &[u8], numbers: &[Number], buffer: &mut [u8]) -> Result<Packed, Refusal> {
    codec::pack_with_remainders(&Contents::read(contents)?, numbers, buffer)
}

// The numbers of a body under the bytes of a contents.
fn unpack_alone(contents: &[u8], body: &[u8]) -> Result<Numbers, Refusal> {
    Contents::read(contents)?.unpack(body)
}

// Where the body of a record stands in a file.
fn place_in(file: &[u8], record: usize) -> Result<Range<usize>, Refusal> {
    RecordFile::read(file)?.place(record)
}

// pack BUFFER CONTENTS NUMBERS
pub(crate) fn pack(
    out: &mut impl Write,
    buffer: &mut [u8],
    contents: &[u8],
    numbers: &[u8],
) -> io::Result<()> {
    let answer = pack_alone(contents, &numbers_in(numbers), &mut *buffer);
    print_written(out, answer, &*buffer)
}

// cutoff BUFFER CONTENTS NUMBERS: as pack, and what truncation cut off each number.
// A list stands behind a refusal too: of no items, as in unpack and find.
pub(crate) fn cutoff(
    out: &mut impl Write,
    buffer: &mut [u8],
    contents: &[u8],
    numbers: &[u8],
) -> io::Result<()> {
    match cut_alone(contents, &numbers_in(numbers), &mut *buffer) {
        Err(refusal) => {
            print_written(out, Err(refusal), &*buffer)?;
            print_remainders(out, &[])
        }
        Ok(packed) => {
            print_written(out, Ok(packed.size), &*buffer)?;
            print_remainders(out, &packed.remainders)
        }
    }
}

// unpack CONTENTS BODY
pub(crate) fn unpack(out: &mut impl Write, contents: &[u8], body: &[u8]) -> io::Result<()> {
    match unpack_alone(contents, body) {
        Err(refusal) => {
            write!(out, "{refusal}")?;
            print_numbers(out, &[])
        }
        Ok(numbers) => {
            out.write_all(b"ok")?;
            print_numbers(out, &numbers)
        }
    }
}

// alpha BUFFER IMAGE NUMBER
pub(crate) fn alpha(
    out: &mut impl Write,
    buffer: &mut [u8],
    image: &[u8],
    number: &[u8],
) -> io::Result<()> {
    let answer = codec::alpha(image, number_in(number), &mut *buffer);
    print_written(out, answer, &*buffer)
}

// legal TEXT
pub(crate) fn legal(out: &mut impl Write, text: &[u8]) -> io::Result<()> {
    write!(out, "ok {}", codec::legal_length(text))
}

// convert TEXT
pub(crate) fn convert(out: &mut impl Write, text: &[u8]) -> io::Result<()> {
    print_answer(out, codec::convert(text), print_number)
}

// read TEXT: the number, and the bytes used.
pub(crate) fn read<W: Write>(out: &mut W, text: &[u8]) -> io::Result<()> {
    print_answer(out, codec::read_text_number(text), |out, read| {
        print_number(out, read.number)?;
        print_count(out, read.used)
    })
}

// place TEXT FROM
pub(crate) fn place(out: &mut impl Write, text: &[u8], from: &[u8]) -> io::Result<()> {
    write!(out, "ok {}", codec::next_number_place(text, whole(from)))
}

// numbers TEXT FROM
pub(crate) fn numbers(out: &mut impl Write, text: &[u8], from: &[u8]) -> io::Result<()> {
    let walked = codec::read_text_numbers(text, whole(from));
    match walked.answer {
        Ok(Stop::End) => out.write_all(b"end")?,
        Ok(Stop::NoNumber) => out.write_all(b"none")?,
        Ok(Stop::TooMany) => out.write_all(b"many")?,
        Err(refusal) => write!(out, "{refusal}")?,
    }
    print_count(out, walked.place)?;
    print_numbers(out, &walked.numbers)
}

// scan LINE AT
pub(crate) fn scan(out: &mut impl Write, line: &[u8], at: &[u8]) -> io::Result<()> {
    write!(out, "ok {}", records::scan(line, whole(at)))
}

// print BUFFER LINE ELEMENTS TEXTS
pub(crate) fn print<W: Write>(
    out: &mut W,
    buffer: &mut [u8],
    line: &[u8],
    elements: &[u8],
    texts: &[u8],
) -> io::Result<()> {
    let answer = records::print(line, &elements_in(elements), texts, &mut *buffer);
    print_answer(out, answer, |out, printed| {
        print_bytes(out, codec::written_part(Ok(printed.bytes), &*buffer))?;
        print_count(out, printed.spilled)
    })?;
    print_buffer(out, &*buffer)
}

// forecast LENGTH COUNT
pub(crate) fn forecast(out: &mut impl Write, length: &[u8], count: &[u8]) -> io::Result<()> {
    print_answer(
        out,
        records::forecast(whole(length), whole(count)),
        print_count,
    )
}

// field BYTES
pub(crate) fn field(out: &mut impl Write, bytes: &[u8]) -> io::Result<()> {
    print_answer(out, records::read_field(bytes), print_number)
}

// contents BUFFER CONTENTS
pub(crate) fn contents(out: &mut impl Write, buffer: &mut [u8], contents: &[u8]) -> io::Result<()> {
    let answer = records::write_contents(contents, &mut *buffer);
    print_written(out, answer, &*buffer)
}

// add BUFFER USED NUMBERS
pub(crate) fn add(
    out: &mut impl Write,
    buffer: &mut [u8],
    used: &[u8],
    numbers: &[u8],
) -> io::Result<()> {
    let answer = records::add(whole(used), &numbers_in(numbers), &mut *buffer);
    print_added(out, answer, &*buffer)
}

// reserve BUFFER USED: the place of the body, and its length.
pub(crate) fn reserve<W: Write>(out: &mut W, buffer: &[u8], used: &[u8]) -> io::Result<()> {
    let answer = records::reserve(buffer, whole(used));
    print_answer(out, answer, |out, place| {
        print_count(out, place.start)?;
        print_count(out, place.size)
    })
}

// write BUFFER USED PLACE NUMBERS: as add, at a place that is reserved.
pub(crate) fn write(
    out: &mut impl Write,
    buffer: &mut [u8],
    used: &[u8],
    place: &[u8],
    numbers: &[u8],
) -> io::Result<()> {
    let answer = records::write_reserved(
        whole(used),
        reservation_in(place),
        &numbers_in(numbers),
        &mut *buffer,
    );
    print_added(out, answer, &*buffer)
}

// Adds a record by the two calls with nothing between them: it promises what add promises, word for word.
#[tactic(auto, using(records::proofs::FileProofs::ReserveTheorem::first_refused, records::proofs::FileProofs::ReserveTheorem::first_nothing, records::proofs::FileProofs::ReserveTheorem::filled_next))]
fn add_in_two(used: usize, numbers: &[Number], buffer: &mut [u8]) -> Result<usize, Refusal>
    ensures answer { meaning result ≡ new_length used (added buffer.old used numbers.now) }
    ensures bytes { buffer.new ≡ written_behind used (added buffer.old used numbers.now) buffer.old }
{
    let place = records::reserve(&*buffer, used)?;
    records::write_reserved(used, place, numbers, buffer)
}

// both BUFFER USED NUMBERS: as add, by the two calls.
pub(crate) fn both(
    out: &mut impl Write,
    buffer: &mut [u8],
    used: &[u8],
    numbers: &[u8],
) -> io::Result<()> {
    let answer = add_in_two(whole(used), &numbers_in(numbers), &mut *buffer);
    print_added(out, answer, &*buffer)
}

// show FILE R: the place of the body, and the body; no bytes behind a refusal.
pub(crate) fn show<W: Write>(out: &mut W, file: &[u8], index: &[u8]) -> io::Result<()> {
    let record = whole(index);
    print_answer(out, place_in(file, record), |out, body| {
        write!(out, " {} {}", body.start, body.len())
    })?;
    print_bytes(out, records::show(file, record).unwrap_or(&[]))
}

// whole FILE: the whole length, and the count of bytes behind it.
pub(crate) fn whole_length<W: Write>(out: &mut W, file: &[u8]) -> io::Result<()> {
    print_answer(out, records::whole_length(file), |out, whole| {
        print_count(out, whole.length)?;
        print_count(out, whole.behind)
    })
}

// list BUFFER FILE
pub(crate) fn list(out: &mut impl Write, buffer: &mut [u8], file: &[u8]) -> io::Result<()> {
    let answer = records::list(file, &mut *buffer);
    print_written(out, answer, &*buffer)
}

// report BUFFER FILE
pub(crate) fn report(out: &mut impl Write, buffer: &mut [u8], file: &[u8]) -> io::Result<()> {
    let answer = records::report(file, &mut *buffer);
    print_written(out, answer, &*buffer)
}

// Writes record numbers: as many as a page can have, zeros behind the last one.
fn print_records(out: &mut impl Write, records: &[usize]) -> io::Result<()> {
    print_places(out, records, MAX_POSITIONS, print_count)
}

// find FILE POSITIONS: the count of comparisons, and the record numbers.
pub(crate) fn find(out: &mut impl Write, file: &[u8], positions: &[u8]) -> io::Result<()> {
    match rolls::find(file, &numbers_in(positions)) {
        Err(refusal) => {
            write!(out, "{refusal}")?;
            print_records(out, &[])
        }
        Ok(found) => {
            write!(out, "ok {}", found.comparisons)?;
            print_records(out, &found.records)
        }
    }
}

// Writes a blank and an order.
fn print_order(out: &mut impl Write, order: Ordering) -> io::Result<()> {
    match order {
        Ordering::Less => out.write_all(b" less"),
        Ordering::Equal => out.write_all(b" equal"),
        Ordering::Greater => out.write_all(b" greater"),
    }
}

// compare NUMBER NUMBER
pub(crate) fn compare(out: &mut impl Write, first: &[u8], second: &[u8]) -> io::Result<()> {
    let answer = decimal::compare(number_in(first), number_in(second));
    print_answer(out, answer, print_order)
}

// Writes a blank and an image.
fn print_image(out: &mut impl Write, image: Image) -> io::Result<()> {
    match image.sign {
        Sign::Unsigned => out.write_all(b" unsigned")?,
        Sign::Plus => out.write_all(b" plus")?,
        Sign::Minus => out.write_all(b" minus")?,
    }
    write!(out, " {} {}", image.integer, image.fraction)?;
    if image.exponential {
        out.write_all(b" exponential")?;
    }
    Ok(())
}

// image IMAGE PLACE
pub(crate) fn image(out: &mut impl Write, bytes: &[u8], place: &[u8]) -> io::Result<()> {
    print_answer(out, decimal::read_image(bytes, whole(place)), print_image)
}

// Whether a number packs under an image.
fn packs(image: Image, number: Number, place: usize) -> Result<(), Refusal> {
    image.checked(place)?.fitting_packed(number, place)?;
    Ok(())
}

// Writes a number's truncation and its parts, those of zero behind a refusal, whether the number packs, and what is cut off.
fn print_truncation<W: Write>(
    out: &mut W,
    image: Image,
    number: Number,
    place: usize,
) -> io::Result<()> {
    print_answer(out, decimal::truncated(image, number, place), print_number)?;
    match decimal::cut_number(image, number, place) {
        Ok(cut) => print_parts(out, cut.negative, cut.halves, cut.x)?,
        Err(_) => print_parts(out, false, 0, EXPONENT_LIMIT)?,
    }
    out.write_all(b" packing ")?;
    print_answer(out, packs(image, number, place), |_, ()| Ok(()))?;
    out.write_all(b" cut off ")?;
    print_answer(
        out,
        decimal::remainder_of(image, number, place),
        print_remainder,
    )
}

// truncate IMAGE NUMBER PLACE: what print_truncation writes.
pub(crate) fn truncate(
    out: &mut impl Write,
    bytes: &[u8],
    number: &[u8],
    place: &[u8],
) -> io::Result<()> {
    let place = whole(place);
    match decimal::read_image(bytes, place) {
        Err(refusal) => write!(out, "{refusal}"),
        Ok(image) => print_truncation(out, image, number_in(number), place),
    }
}

// merge BUFFER FIRST SECOND
pub(crate) fn merge(
    out: &mut impl Write,
    buffer: &mut [u8],
    first: &[u8],
    second: &[u8],
) -> io::Result<()> {
    let answer = rolls::merge(first, second, &mut *buffer);
    print_written(out, answer, &*buffer)
}

// enter BUFFER CONTENTS TEXT: as a call that writes; a refused line's refusal has line and its number before it.
pub(crate) fn enter(
    out: &mut impl Write,
    buffer: &mut [u8],
    contents: &[u8],
    text: &[u8],
) -> io::Result<()> {
    match records::enter(contents, text, &mut *buffer) {
        Err(EntryRefusal::Line(line, refusal)) => {
            write!(out, "line {line} ")?;
            print_written(out, Err(refusal), &*buffer)
        }
        Err(EntryRefusal::Call(refusal)) => print_written(out, Err(refusal), &*buffer),
        Ok(size) => print_written(out, Ok(size), &*buffer),
    }
}
