// Makes the calls that stand on standard input, one to a line, and writes an answer line for each: what the call gave, and the whole of a
// lent buffer. A line that is no call has the answer ?. What a line has, the files words.rt, items.rt and layers.rt say.
#![tactic(auto)]

mod items;
mod layers;
mod shown;
mod words;

use crate::words::{decode, is_bytes};
use std::io;
use std::io::Write;

// An input of so many bytes is too long, since more may follow what is read of it: it has one answer, ?.
const INPUT: usize = 1 << 18;

// The most bytes of a word in hexadecimal.
const SPACE: usize = 8192;

// The name of a call in a word: bytes 00 before it are passed over; no name where the word has more than eight bytes.
fn name_in(word: &[u8]) -> &[u8] {
    if 8 < word.len() {
        return &[];
    }
    match word.iter().position(|&byte| byte != 0) {
        Some(first) => word.get(first..).unwrap_or(&[]),
        None => &[],
    }
}

// Makes the call of a name; a name that no call has is answered as no call is.
fn make(
    out: &mut impl Write,
    name: &[u8],
    first: &mut [u8],
    second: &[u8],
    third: &[u8],
    fourth: &[u8],
) -> io::Result<()> {
    match name {
        b"compare" => layers::compare(out, &*first, second),
        b"image" => layers::image(out, &*first, second),
        b"truncate" => layers::truncate(out, &*first, second, third),
        b"pack" => layers::pack(out, first, second, third),
        b"cutoff" => layers::cutoff(out, first, second, third),
        b"unpack" => layers::unpack(out, &*first, second),
        b"alpha" => layers::alpha(out, first, second, third),
        b"legal" => layers::legal(out, &*first),
        b"read" => layers::read(out, &*first),
        b"convert" => layers::convert(out, &*first),
        b"place" => layers::place(out, &*first, second),
        b"numbers" => layers::numbers(out, &*first, second),
        b"scan" => layers::scan(out, &*first, second),
        b"print" => layers::print(out, first, second, third, fourth),
        b"forecast" => layers::forecast(out, &*first, second),
        b"field" => layers::field(out, &*first),
        b"contents" => layers::contents(out, first, second),
        b"add" => layers::add(out, first, second, third),
        b"both" => layers::both(out, first, second, third),
        b"reserve" => layers::reserve(out, &*first, second),
        b"write" => layers::write(out, first, second, third, fourth),
        b"show" => layers::show(out, &*first, second),
        b"whole" => layers::whole_length(out, &*first),
        b"list" => layers::list(out, first, second),
        b"enter" => layers::enter(out, first, second, third),
        b"report" => layers::report(out, first, second),
        b"find" => layers::find(out, &*first, second),
        b"merge" => layers::merge(out, first, second, third),
        _ => out.write_all(b"?"),
    }
}

// Whether a line is short enough, and the words behind its name are bytes in hexadecimal.
fn is_call(line: &[u8]) -> bool {
    let mut words = line.split(|&byte| byte == b' ').skip(1).take(4);
    line.len() <= 2 * SPACE && words.all(is_bytes)
}

// Answers a line; a word that it does not have is no bytes.
fn answer_line(out: &mut impl Write, line: &[u8]) -> io::Result<()> {
    if !is_call(line) {
        return out.write_all(b"?");
    }
    let mut words = line.split(|&byte| byte == b' ');
    let mut first = [0u8; SPACE];
    let mut second = [0u8; SPACE];
    let mut third = [0u8; SPACE];
    let mut fourth = [0u8; SPACE];
    make(
        out,
        name_in(words.next().unwrap_or(&[])),
        decode(words.next().unwrap_or(&[]), &mut first),
        &*decode(words.next().unwrap_or(&[]), &mut second),
        &*decode(words.next().unwrap_or(&[]), &mut third),
        &*decode(words.next().unwrap_or(&[]), &mut fourth),
    )
}

// Answers all lines; the last one may have no line end.
fn answer_lines(out: &mut impl Write, input: &[u8]) -> io::Result<()> {
    for line in input.split_inclusive(|&byte| byte == b'\n') {
        answer_line(out, line.strip_suffix(b"\n").unwrap_or(line))?;
        out.write_all(b"\n")?;
    }
    Ok(())
}

// Answers the input to standard output.
fn answer_input(rt: &impl Print, input: &[u8]) -> io::Result<()> {
    let mut out = io::writer(rt);
    if input.len() == INPUT {
        out.write_all(b"?\n")
    } else {
        answer_lines(&mut out, input)
    }
}

// Reads the input, and answers it.
fn main(rt: HostRuntime) {
    let mut input = [0u8; INPUT];
    if let Ok(size) = console::read_input(&rt, &mut input) {
        let _ = console::told(&rt, answer_input(&rt, &input[..size]));
    }
}
