// Prints the whole length of the record file on standard input and how many bytes stand behind it, or its refusal: how far a
// file has to be cut whose last record was written in part. Where reading fails nothing is printed, and standard error tells it; a failed
// write is told too.
#![tactic(auto)]

use decimal::Refusal;
use records::{MAX_FILE, WholeLength};
use std::io;

// One byte more than a file may have, as the listing takes them, so that a longer one is seen.
const INPUT_LENGTH: usize = MAX_FILE + 1;

// The whole length of a file: refused first with 11 where it is longer than a file may be.
fn whole_short(file: &[u8]) -> Result<WholeLength, Refusal> {
    if MAX_FILE < file.len() {
        return Err(Refusal::WRONG_LENGTH);
    }
    records::whole_length(file)
}

// Writes two lines, the whole length and the count of bytes behind it, or the line of a refusal.
fn write_whole(rt: &impl Print, file: &[u8]) -> io::Result<()> {
    match whole_short(file) {
        Ok(whole) => println!(rt; "whole {}\nbehind {}", whole.length, whole.behind),
        Err(refusal) => println!(rt; "{refusal}"),
    }
}

// Reads the input, and writes its answer.
fn main(rt: HostRuntime) {
    let mut input = [0u8; INPUT_LENGTH];
    if let Ok(size) = console::read_input(&rt, &mut input) {
        let _ = console::told(&rt, write_whole(&rt, &input[..size]));
    }
}
