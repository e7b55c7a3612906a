// Merges the two record files that its arguments name, the first camera's first: the merged file to standard output (document 02, (vi)).
// Else a line on standard error tells why, and the exit status is 1: the refusal, the usage where the arguments are not two, arguments or a
// file that can't be read, output that can't be written. Only in the last case may a part of the merged file have been written.
#![tactic(auto)]

use decimal::Refusal;
use records::MAX_FILE;
use std::process::ExitCode;
use std::{env, io};

// One byte more than a file may have, as the listing takes them, so that a longer one is seen.
const INPUT_LENGTH: usize = MAX_FILE + 1;

// Two files are no longer together.
const OUTPUT_LENGTH: usize = 2 * MAX_FILE;

// Merges two files into a buffer: refused first with 11 where one is longer than a file may be.
fn merge_short(first: &[u8], second: &[u8], output: &mut [u8]) -> Result<usize, Refusal> {
    if MAX_FILE < first.len() || MAX_FILE < second.len() {
        return Err(Refusal::WRONG_LENGTH);
    }
    rolls::merge(first, second, output)
}

// Merges two files to standard output, and tells whether that was done; a refusal is told on standard error.
fn write_merged(rt: &(impl Print + Eprint), first: &[u8], second: &[u8]) -> bool {
    let mut output = [0u8; OUTPUT_LENGTH];
    match merge_short(first, second, &mut output) {
        Ok(size) => console::write_output(rt, codec::written_part(Ok(size), &output)).is_ok(),
        Err(refusal) => {
            let _ = eprintln!(rt; "{refusal}");
            false
        }
    }
}

// Merges two files by their names, and tells whether that was done.
fn merge_named(rt: &HostRuntime, first: &str, second: &str) -> bool {
    let mut one = [0u8; INPUT_LENGTH];
    let mut two = [0u8; INPUT_LENGTH];
    let Ok(length) = console::read_named(rt, first, &mut one) else {
        return false;
    };
    let Ok(other) = console::read_named(rt, second, &mut two) else {
        return false;
    };
    write_merged(rt, &one[..length], &two[..other])
}

// Merges the files that the arguments name, and tells whether that was done; a count of arguments other than two is told.
fn merge_arguments(rt: &HostRuntime) -> io::Result<bool> {
    let mut names = env::args(rt)?.skip(1);
    let (Some(first), Some(second), None) = (names.next(), names.next(), names.next()) else {
        let _ = eprintln!(rt; "usage: merge FIRST SECOND");
        return Ok(false);
    };
    Ok(merge_named(rt, first.as_str(), second.as_str()))
}

// Merges, and ends with the exit status that tells whether that was done; arguments that can't be read, as one not in UTF-8, are told.
fn main(rt: HostRuntime) -> ExitCode {
    match merge_arguments(&rt) {
        Ok(true) => ExitCode::SUCCESS,
        Ok(false) => ExitCode::FAILURE,
        Err(_) => {
            let _ = eprintln!(rt; "reading the arguments failed");
            ExitCode::FAILURE
        }
    }
}
