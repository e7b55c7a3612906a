// The listing of a record file, and every byte that the listing program prints (document 01: Record file).
ghost use Rattle.std.specs.Prelude.{◌≡◌, IfOk, ◌+◌, ◌*◌, ◌<◌, ◌≤◌, ltb, length};
ghost use Rattle.decimal.specs.Answer.{done, meaning, mapped, reason_number};
ghost use Rattle.codec.specs.Columns.{Sound};
ghost use Rattle.codec.specs.Alpha.{line_length};
ghost use Rattle.codec.specs.Answers.{stored_in, within, sized};
ghost use Rattle.records.specs.Files.CheckedFile.{checked_bytes};
ghost use Rattle.records.specs.Files.Listing.{max_report, count_line, listed, refusal_line, report_of, lines_of, body_line};

use crate::files::checked_file::CheckedFile;
use crate::files::writing::{decimal_length, write_decimal};
use codec::ReadBody;
use decimal::Refusal;

// The most bytes of a file that the listing program takes.
pub const MAX_FILE: usize = 65536;

// A report has at most so many bytes.
pub const MAX_REPORT: usize = 4 * MAX_FILE + 64;

// The length of a buffer that every report fits: MAX_REPORT, of which the listing program makes its own.
pub fn report_length() -> usize
    ensures { result ≡ max_report }
{
    MAX_REPORT
}

// The bytes of a line with a word of 7 bytes, a blank, a count and 0A, without the count's digits.
const COUNT_LINE: usize = 9;

// Writes the line of a record: the alpha texts of its body's columns, parted by one blank, and 0A. Nothing is refused.
fn write_record(body: &ReadBody, target: &mut [u8]) -> Result<(), Refusal>
    requires { (Sound body.now.contents.now.images) × (length target.old ≡ line_length body.now.contents.now.images) }
    ensures answer { meaning result ≡ done tt }
    ensures bytes { target.new ≡ body_line body.now.contents.now.images body.now.bytes.now }
{
    let size = body.write_texts(target)?;
    target[size] = b'\n';
    Ok(())
}

// Writes the lines of a file's records, one behind the other. A record's line is as long as the contents without its first byte: per column
// the image and a byte more. Nothing is refused.
fn write_records(checked: &CheckedFile, target: &mut [u8]) -> Result<(), Refusal>
    requires { length target.old ≡ length (lines_of (checked_bytes checked.now)) }
    ensures answer { meaning result ≡ done tt }
    ensures bytes { target.new ≡ lines_of (checked_bytes checked.now) }
{
    let contents = checked.contents();
    let line = contents.size() - 1;
    let mut out = 0;
    for bytes in checked.bodies() {
        let end = out + line;
        let body = ReadBody { contents, bytes };
        write_record(&body, &mut target[out..end])?;
        out = end;
    }
    Ok(())
}

// Writes a word, a count and 0A.
#[tactic(auto, using(crate::proofs::FileProofs::ReportLaws::count_line_length), unfolding(crate::specs::Files::Listing::count_line))]
fn write_count(word: &[u8], value: usize, target: &mut [u8])
    requires { length target.old ≡ length (count_line word.now value) }
    ensures { target.new ≡ count_line word.now value }
{
    let (front, rest) = target.split_at_mut(word.len());
    let (digits, end) = rest.split_at_mut(rest.len() - 1);
    front.copy_from_slice(word);
    write_decimal(value, digits);
    end.copy_from_slice(b"\n");
}

// Whether so many lines of a length, and other bytes, are more bytes than a buffer has.
pub(crate) fn is_longer(lines: usize, length: usize, others: usize, room: usize) -> bool
    requires { 0 < length }
    ensures { result ≡ ltb room (others + lines * length) }
{
    room < others || (room - others) / length < lines
}

// Writes the listing of a file whose bodies can all be read; refused with 6.
#[tactic(auto, using(crate::proofs::WritingLaws::counted_few, crate::proofs::WritingLaws::parts_stored, crate::proofs::FileProofs::ReportLaws::count_line_length, crate::proofs::FileProofs::RecordLinesLaws::listed_length, crate::proofs::FileProofs::CheckedLaws::listed_file, crate::proofs::FileProofs::ListingLaws::measured, crate::proofs::FileProofs::ListingLaws::measured_lines, crate::proofs::FileProofs::ListingLaws::measured_long, crate::proofs::FileProofs::ListingLaws::measured_done), unfolding(codec::specs::Answers::stored_in, codec::specs::Answers::sized))]
fn list_checked(checked: &CheckedFile, buffer: &mut [u8]) -> Result<usize, Refusal>
    ensures answer { meaning result ≡ sized (listed (checked_bytes checked.now) (length buffer.old)) }
    ensures bytes { buffer.new ≡ stored_in (listed (checked_bytes checked.now) (length buffer.old)) buffer.old }
{
    let contents = checked.contents();
    let columns = contents.images().len();
    let records = checked.count();
    let line = contents.size() - 1;
    let first = COUNT_LINE + decimal_length(columns);
    let last = COUNT_LINE + decimal_length(records);
    if is_longer(records, line, first + last, buffer.len()) {
        return Err(Refusal::NO_ROOM);
    }
    let middle = records * line;
    let (head, rest) = buffer.split_at_mut(first);
    let (lines, foot) = rest.split_at_mut(middle);
    write_count(b"columns ", columns, head);
    write_records(checked, lines)?;
    write_count(b"records ", records, &mut foot[..last]);
    Ok(first + middle + last)
}

// Writes the listing of a file into a buffer; the bytes behind it stay.
// Refused as the file is, with 7 and the column within the first bad record, last with 6; then no byte changes.
#[tactic(auto, using(crate::proofs::FileProofs::ListingLaws::listed_refused), unfolding(decimal::specs::Answer::mapped, codec::specs::Answers::stored_in, codec::specs::Answers::sized))]
pub fn list(file: &[u8], buffer: &mut [u8]) -> Result<usize, Refusal>
    ensures answer { meaning result ≡ sized (listed file.now (length buffer.old)) }
    ensures bytes { buffer.new ≡ stored_in (listed file.now (length buffer.old)) buffer.old }
{
    list_checked(&CheckedFile::read(file)?, buffer)
}

// Writes a refusal's line, refused, its number and place parted by one blank each; refused with 6.
#[tactic(auto, using(crate::proofs::WritingLaws::counted_few), unfolding(crate::specs::Files::Listing::refusal_line, crate::specs::Files::Listing::count_line, codec::specs::Answers::stored_in, codec::specs::Answers::within, codec::specs::Answers::sized))]
fn write_refusal(refusal: Refusal, buffer: &mut [u8]) -> Result<usize, Refusal>
    ensures answer { meaning result ≡ sized (within (length buffer.old) (refusal_line (reason_number refusal.reason) refusal.place)) }
    ensures bytes { buffer.new ≡ stored_in (within (length buffer.old) (refusal_line (reason_number refusal.reason) refusal.place)) buffer.old }
{
    let word = b"refused ";
    let number = usize::from(refusal.reason.number());
    let place = refusal.place;
    let first = word.len();
    let middle = decimal_length(number);
    let last = decimal_length(place) + 2;
    let size = first + middle + last;
    if buffer.len() < size {
        return Err(Refusal::NO_ROOM);
    }
    let (head, rest) = buffer.split_at_mut(first);
    let (digits, foot) = rest.split_at_mut(middle);
    head.copy_from_slice(word);
    write_decimal(number, digits);
    write_count(b" ", place, &mut foot[..last]);
    Ok(size)
}

// Writes what the listing program prints for its input, the file's listing or the line of its refusal; the bytes behind it stay.
// Refused with 6 alone; then no byte changes.
#[tactic(auto, using(crate::proofs::FileProofs::ListingLaws::report_long, crate::proofs::FileProofs::ListingLaws::report_refused), unfolding(decimal::specs::Answer::mapped))]
pub fn report(input: &[u8], buffer: &mut [u8]) -> Result<usize, Refusal>
    ensures answer { meaning result ≡ sized (within (length buffer.old) (report_of input.now)) }
    ensures bytes { buffer.new ≡ stored_in (within (length buffer.old) (report_of input.now)) buffer.old }
{
    let is_long = MAX_FILE < input.len();
    if is_long {
        return write_refusal(Refusal::WRONG_LENGTH, buffer);
    }
    match CheckedFile::read(input) {
        Ok(checked) => list_checked(&checked, buffer),
        Err(refusal) => write_refusal(refusal, buffer),
    }
}
