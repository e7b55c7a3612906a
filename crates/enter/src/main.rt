// Enters the records of the text on standard input under the images that its arguments are: the record file to standard output. Else a
// line on standard error tells why, and the exit status is 1: the refusal, with its line's number where it is a line's, an input or
// arguments that can't be read, output that can't be written. Only in the last case may a part of the file have been written.
#![tactic(auto)]

use codec::MAX_COLUMNS;
use decimal::{Reason, Refusal, read_image};
use records::{EntryRefusal, MAX_FILE, MAX_REPORT};
use std::process::ExitCode;
use std::{env, io};

// One byte more than the longest text has, which is the longest listing, so that a longer one is seen.
const INPUT_LENGTH: usize = MAX_REPORT + 1;

// The most bytes of an image that a contents can have.
const IMAGE_LENGTH: usize = 255;

// The most bytes of a contents.
const CONTENTS_LENGTH: usize = 1 + MAX_COLUMNS * (1 + IMAGE_LENGTH);

// Writes the column of an image behind those before it, and gives the contents' length with it; refused with 1 or 2 and the column.
fn write_column(
    contents: &mut [u8],
    size: usize,
    image: &[u8],
    column: usize,
) -> Result<usize, Refusal> {
    read_image(image, column)?;
    let more = image.len();
    if IMAGE_LENGTH < more || contents.len() <= size || contents.len() - size - 1 < more {
        return Err(Refusal {
            reason: Reason::TooManyDigits,
            place: column,
        });
    }
    let start = size + 1;
    contents[size] = more as u8;
    contents[start..start + more].copy_from_slice(image);
    Ok(start + more)
}

// Writes the contents of the images that the arguments are, and gives its length; refused with 10, then with 1 or 2 and the column.
fn write_images(
    rt: &HostRuntime,
    contents: &mut [u8; CONTENTS_LENGTH],
) -> io::Result<Result<usize, Refusal>> {
    let count = env::args(rt)?.skip(1).count();
    if !(1..=MAX_COLUMNS).contains(&count) {
        return Ok(Err(Refusal::WRONG_COUNT));
    }
    let mut size = 1;
    contents[0] = count as u8;
    for (column, image) in env::args(rt)?.skip(1).enumerate() {
        match write_column(&mut contents[..], size, image.as_str().as_bytes(), column) {
            Ok(end) => size = end,
            Err(refusal) => return Ok(Err(refusal)),
        }
    }
    Ok(Ok(size))
}

// Enters a text under a contents that was made, or its refusal: refused first with 11 where the text is longer than the longest listing.
fn enter_short(
    made: Result<usize, Refusal>,
    contents: &[u8],
    text: &[u8],
    output: &mut [u8],
) -> Result<usize, EntryRefusal> {
    if MAX_REPORT < text.len() {
        return Err(EntryRefusal::Call(Refusal::WRONG_LENGTH));
    }
    match made {
        Ok(_) => records::enter(codec::written_part(made, contents), text, output),
        Err(refusal) => Err(EntryRefusal::Call(refusal)),
    }
}

// Enters a text to standard output, and tells whether that was done; a refusal is told on standard error.
fn write_entered(
    rt: &(impl Print + Eprint),
    made: Result<usize, Refusal>,
    contents: &[u8],
    text: &[u8],
) -> bool {
    let mut output = [0u8; MAX_FILE];
    match enter_short(made, contents, text, &mut output) {
        Ok(size) => console::write_output(rt, codec::written_part(Ok(size), &output)).is_ok(),
        Err(refusal) => {
            let _ = eprintln!(rt; "{refusal}");
            false
        }
    }
}

// Enters the text on standard input under the images that the arguments are, and tells whether that was done.
fn enter_input(rt: &HostRuntime) -> io::Result<bool> {
    let mut contents = [0u8; CONTENTS_LENGTH];
    let made = write_images(rt, &mut contents)?;
    let mut input = [0u8; INPUT_LENGTH];
    match console::read_input(rt, &mut input) {
        Ok(size) => Ok(write_entered(rt, made, &contents, &input[..size])),
        Err(_) => Ok(false),
    }
}

// Enters, and ends with the exit status that tells whether that was done; arguments that can't be read, as one not in UTF-8, are told.
fn main(rt: HostRuntime) -> ExitCode {
    match enter_input(&rt) {
        Ok(true) => ExitCode::SUCCESS,
        Ok(false) => ExitCode::FAILURE,
        Err(_) => {
            let _ = eprintln!(rt; "reading the arguments failed");
            ExitCode::FAILURE
        }
    }
}
