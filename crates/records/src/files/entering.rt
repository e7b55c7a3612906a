// Entering records: a record file is made of a text of lines, such as a listing.
ghost use Rattle.std.specs.Prelude.{◌≡◌, ◌<◌, ◌≤◌, drop, length, is_some, IfOk, IfSome};
ghost use Rattle.std.specs.List.{concat};
ghost use Rattle.decimal.specs.Answer.{done, meaning, checked_only, given};
ghost use Rattle.codec.specs.Contents.{read_alone};
ghost use Rattle.records.specs.Files.Listing.{records_word};
ghost use Rattle.records.specs.Files.Entering.{
  is_foot,
  is_parted,
  read_parted,
  read_line,
  line_body,
  check_count,
  line_size,
  text_bodies,
  lines_in,
  first_line,
  behind_line,
  bodies_of,
  behind_head,
  counted_bodies,
  given_bodies,
  body_in,
  HasBody,
  Fills,
  entering,
  sized_entry,
  stored_entry,
  entry_meaning,
};

use crate::files::listing::is_longer;
use crate::files::writing::{decimal_length, write_decimal};
use codec::{Contents, Numbers, TextNumber, check_list, read_text_number, store_column};
use decimal::{Fitting, Image, Reason, Refusal};
use std::error::Error;
use std::fmt;

// Why entering was refused: a refusal of the call itself, or the number of the first bad line, from 1, and its refusal.
#[derive(Clone, Copy, Debug, PartialEq, Eq, Hash)]
pub enum EntryRefusal {
    Call(Refusal),
    Line(usize, Refusal),
}

impl fmt::Display for EntryRefusal {
    // The refusal; before it line and its number, where it is a line's.
    fn fmt<W: fmt::Write>(&self, f: &mut fmt::Formatter<W>) -> fmt::Result {
        match self {
            EntryRefusal::Call(refusal) => write!(f, "{refusal}"),
            EntryRefusal::Line(line, refusal) => write!(f, "line {line} {refusal}"),
        }
    }
}

impl Error for EntryRefusal {}

// The lines of records in a text, and the number of the first of them.
#[derive(Clone, Copy)]
struct Lines<'a> {
    text: &'a [u8],
    first: usize,
}

// How many bytes stand before a text's first 0A.
fn line_size(text: &[u8]) -> usize
    ensures { result ≡ line_size text.now }
{
    text.iter().take_while(|byte| **byte != b'\n').count()
}

// The first line of a text, without its 0A, and the bytes behind it.
#[tactic(auto, using(crate::proofs::FileProofs::EntryLaws::line_inside))]
fn split_line(text: &[u8]) -> (&[u8], &[u8])
    ensures line { result.0.now ≡ first_line text.now }
    ensures behind { result.1.now ≡ behind_line text.now }
{
    let (line, rest) = text.split_at(line_size(text));
    match rest {
        [_, behind @ ..] => (line, behind),
        [] => (line, &[]),
    }
}

// Whether a number that uses so many bytes of a text is parted from what stands behind them: nothing does, or the last of them is a blank.
#[tactic(auto, unfolding(crate::specs::Files::Entering::is_parted))]
fn is_parted(text: &[u8], used: usize) -> bool
    requires { (0 < used) × (used ≤ length text.now) }
    ensures { result ≡ is_parted text.now used }
{
    used == text.len() || text[used - 1] == b' '
}

// The number of an index that a text begins with: refused with 8 or 5 as it is read, then with 8 where it is not parted.
#[tactic(auto, using(crate::proofs::FileProofs::EntryLaws::read_some, crate::proofs::FileProofs::EntryLaws::read_within, crate::proofs::FileProofs::EntryLaws::parted_refused, crate::proofs::FileProofs::EntryLaws::parted_done, crate::proofs::FileProofs::EntryLaws::parted_none))]
fn read_parted(text: &[u8], index: usize) -> Result<TextNumber, Refusal>
    ensures { meaning result ≡ read_parted index text.now }
{
    let read = match read_text_number(text) {
        Ok(read) => read,
        Err(refusal) => {
            return Err(Refusal {
                reason: refusal.reason,
                place: index,
            });
        }
    };
    if is_parted(text, read.used) {
        Ok(read)
    } else {
        Err(Refusal {
            reason: Reason::NotText,
            place: index,
        })
    }
}

// Reads the numbers of a line into a list, in place of what it held; the list is empty where the line is refused: from the left with 8 and 5,
// and with 10 where there are too many.
#[tactic(auto, using(crate::proofs::FileProofs::EntryLaws::parted_within, crate::proofs::FileProofs::EntryLaws::parted_fewer, crate::proofs::FileProofs::EntryLaws::line_starts, crate::proofs::FileProofs::EntryLaws::line_ends, crate::proofs::FileProofs::EntryLaws::line_full, crate::proofs::FileProofs::EntryLaws::line_refused, crate::proofs::FileProofs::EntryLaws::line_turns), unfolding(decimal::specs::Answer::checked_only, decimal::specs::Answer::given))]
fn read_line(line: &[u8], numbers: &mut Numbers) -> Result<(), Refusal>
    ensures answer { meaning result ≡ checked_only (read_line line.now) }
    ensures list { numbers.new.items ≡ given (read_line line.now) }
{
    numbers.clear();
    let mut rest = line;
    while !rest.is_empty() {
        if numbers.is_full() {
            numbers.clear();
            return Err(Refusal::WRONG_COUNT);
        }
        match read_parted(rest, numbers.len()) {
            Ok(read) => {
                numbers.push(read.number);
                rest = &rest[read.used..];
            }
            Err(refusal) => {
                numbers.clear();
                return Err(refusal);
            }
        }
    }
    Ok(())
}

// Whether the numbers of a line can be packed under images: refused as the numbers are read, then as packing is, but for the room.
#[tactic(auto, using(crate::proofs::FileProofs::EntryLaws::body_refused, crate::proofs::FileProofs::EntryLaws::body_read))]
fn check_line(contents: &Contents, line: &[u8], numbers: &mut Numbers) -> Result<(), Refusal>
    ensures { meaning result ≡ checked_only (line_body contents.now.images line.now) }
{
    read_line(line, numbers)?;
    check_list(contents, numbers)
}

// The most digits of a whole number of 64 bits.
const WHOLE_DIGITS: usize = 20;

// Whether bytes are a count in decimal, as a listing has it: refused with 10.
#[tactic(auto, using(crate::proofs::WritingLaws::counted_few), unfolding(crate::specs::Files::Entering::check_count))]
fn check_count(digits: &[u8], count: usize) -> Result<(), Refusal>
    ensures { meaning result ≡ check_count count digits.now }
{
    let mut wanted = [0u8; WHOLE_DIGITS];
    let size = decimal_length(count);
    write_decimal(count, &mut wanted[..size]);
    if digits == &wanted[..size] {
        Ok(())
    } else {
        Err(Refusal::WRONG_COUNT)
    }
}

// The lines of records in a text, behind a first line that begins with columns: refused with 10 where that has another count.
#[tactic(auto, using(crate::proofs::FileProofs::EntryLaws::head_none, crate::proofs::FileProofs::EntryLaws::head_good, crate::proofs::FileProofs::EntryLaws::head_bad))]
fn skip_head<'a>(images: &[Image], text: &'a [u8]) -> Result<Lines<'a>, EntryRefusal>
    ensures lines { text_bodies images.now (lines_in text.now) ≡ behind_head images.now result }
    ensures first { IfOk result (λ lines. lines.first ≤ 2) }
{
    let (line, behind) = split_line(text);
    let Some(digits) = line.strip_prefix(b"columns ") else {
        return Ok(Lines { text, first: 1 });
    };
    match check_count(digits, images.len()) {
        Ok(()) => Ok(Lines {
            text: behind,
            first: 2,
        }),
        Err(refusal) => Err(EntryRefusal::Line(1, refusal)),
    }
}

// The bytes behind the word that a listing's last line begins with; none where a line is another, or where bytes stand behind it.
#[tactic(auto, using(crate::proofs::FileProofs::EntryLaws::foot_behind))]
fn foot_digits<'a>(line: &'a [u8], behind: &[u8]) -> Option<&'a [u8]>
    ensures foot { is_some result ≡ is_foot line.now (lines_in behind.now) }
    ensures digits { IfSome result (λ digits. digits.now ≡ drop (length records_word) line.now) }
{
    if behind.is_empty() {
        line.strip_prefix(b"records ")
    } else {
        None
    }
}

// The count of records in lines that can all be packed under images; a last line that begins with records has that count.
// Refused with the first bad line.
#[tactic(auto, using(crate::proofs::FileProofs::EntryLaws::count_starts, crate::proofs::FileProofs::EntryLaws::count_turns, crate::proofs::FileProofs::EntryLaws::count_fewer, crate::proofs::FileProofs::EntryLaws::count_ends, crate::proofs::FileProofs::EntryLaws::count_foot, crate::proofs::FileProofs::EntryLaws::count_other, crate::proofs::FileProofs::EntryLaws::count_bad))]
fn count_records(contents: &Contents, lines: Lines) -> Result<usize, EntryRefusal>
    requires { lines.first ≤ 2 }
    ensures { entry_meaning result ≡ counted_bodies 0 (bodies_of contents.now.images lines.entry) }
{
    let mut numbers = Numbers::new();
    let mut records = 0;
    let mut rest = lines.text;
    while !rest.is_empty() {
        let number = lines.first + records;
        let (line, behind) = split_line(rest);
        if let Some(digits) = foot_digits(line, behind) {
            return match check_count(digits, records) {
                Ok(()) => Ok(records),
                Err(refusal) => Err(EntryRefusal::Line(number, refusal)),
            };
        }
        if let Err(refusal) = check_line(contents, line, &mut numbers) {
            return Err(EntryRefusal::Line(number, refusal));
        }
        records += 1;
        rest = behind;
    }
    Ok(records)
}

// Writes the body of a line's numbers, each as it is read: all fit their images, and nothing is refused.
#[tactic(auto, using(crate::proofs::FileProofs::EntryLaws::parted_within))]
fn write_body(images: &[Image], line: &[u8], target: &mut [u8]) -> Result<(), Refusal>
    requires { HasBody images.now line.now target.old }
    ensures answer { meaning result ≡ done tt }
    ensures bytes { target.new ≡ body_in images.now line.now }
{
    let mut rest = line;
    let mut at = 0;
    for (column, image) in images.iter().enumerate() {
        let read = read_parted(rest, column)?;
        let fitting = Fitting {
            image: *image,
            number: read.number,
        };
        at += store_column(&fitting.cut(), &mut target[at..])?;
        rest = &rest[read.used..];
    }
    Ok(())
}

// Writes the bodies of the first lines of a text, as many as there are records.
fn write_bodies(
    images: &[Image],
    lines: Lines,
    body: usize,
    target: &mut [u8],
) -> Result<(), Refusal>
    requires { Fills images.now lines body target.old }
    ensures answer { meaning result ≡ done tt }
    ensures bytes { target.new ≡ concat (given_bodies (bodies_of images.now lines.entry)) }
{
    let mut rest = lines.text;
    let mut out = 0;
    while out < target.len() {
        let (line, behind) = split_line(rest);
        let end = out + body;
        write_body(images, line, &mut target[out..end])?;
        rest = behind;
        out = end;
    }
    Ok(())
}

// Enters the records of a text of lines under a contents that was read already: as the call does behind that.
fn enter_under(
    table: &Contents,
    contents: &[u8],
    text: &[u8],
    buffer: &mut [u8],
) -> Result<usize, EntryRefusal>
    requires { done table.now ≡ read_alone contents.now }
    ensures answer { entry_meaning result ≡ sized_entry (entering contents.now text.now (length buffer.old)) }
    ensures bytes { buffer.new ≡ stored_entry (entering contents.now text.now (length buffer.old)) buffer.old }
{
    let images = table.images();
    let lines = skip_head(images, text)?;
    let records = count_records(table, lines)?;
    let front = contents.len();
    let body = table.body_size();
    if is_longer(records, body, front, buffer.len()) {
        return Err(EntryRefusal::Call(Refusal::NO_ROOM));
    }
    let size = records * body;
    let (head, rest) = buffer.split_at_mut(front);
    head.copy_from_slice(contents);
    match write_bodies(images, lines, body, &mut rest[..size]) {
        Ok(()) => Ok(front + size),
        Err(refusal) => Err(EntryRefusal::Call(refusal)),
    }
}

// Enters the records of a text of lines under a contents lent alone: writes the record file into a buffer, and gives its length; the bytes
// behind it stay. Refused as the contents is, as the first bad line is, with its number from 1, last with 6; then no byte changes.
#[tactic(auto, using(crate::proofs::FileProofs::EnterLaws::enter_contents), unfolding(crate::specs::Files::Entering::sized_entry, crate::specs::Files::Entering::stored_entry, crate::specs::Files::Entering::next_of))]
pub fn enter(contents: &[u8], text: &[u8], buffer: &mut [u8]) -> Result<usize, EntryRefusal>
    ensures answer { entry_meaning result ≡ sized_entry (entering contents.now text.now (length buffer.old)) }
    ensures bytes { buffer.new ≡ stored_entry (entering contents.now text.now (length buffer.old)) buffer.old }
{
    match Contents::read(contents) {
        Ok(table) => enter_under(&table, contents, text, buffer),
        Err(refusal) => Err(EntryRefusal::Call(refusal)),
    }
}
