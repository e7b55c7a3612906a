// Record files: calls of the layer records.
ghost use Rattle.std.specs.Prelude.{◌≡◌, ◌+◌, ◌≤◌, length, take};
ghost use Rattle.decimal.specs.Answer.{meaning, mapped};
ghost use Rattle.codec.specs.Lists.{max_columns};
ghost use Rattle.codec.specs.Answers.{stored_in, sized};
ghost use Rattle.records.specs.Files.RecordFile.{starting_file, read_file, record_count, added, new_length, written_behind, shown, range_of};
ghost use Rattle.records.specs.Files.Reserving.{reserved, filled};
ghost use Rattle.records.specs.Files.Listing.{listed};
ghost use Rattle.records.specs.Files.Entering.{entering, sized_entry, stored_entry};
ghost use Rattle.records.specs.Files.WholeLength.{whole_length_of};
ghost use Rattle.hulgyevan.specs.Words.{numbers_in};
ghost use Rattle.hulgyevan.specs.Outcomes.{outcome, value_or};
ghost use Rattle.hulgyevan.specs.Bodies.{columns_of, body_of};
ghost use Rattle.hulgyevan.specs.Files.{size_of_contents, reserved_start, reserved_size, part_start, part_size, answer_in, line_or, whole_size, whole_behind};

use crate::words::{FEW, NUMBERS, give_size, numbers_of, refusal_word};
use decimal::Refusal;
use records::{
    EntryRefusal, RecordFile, Reservation, add, enter, list, reserve, whole_length, write_contents,
    write_reserved,
};
use std::ops::Range;

// The count of columns of a record file, the length of its contents, that of a body, and the count of records; refused as the contents is,
// then with 11 where a last body is incomplete.
#[tactic(auto, using(crate::proofs::CallLaws::table_word, crate::proofs::CallLaws::table_refused, crate::proofs::CallLaws::table_columns, crate::proofs::CallLaws::table_size, crate::proofs::CallLaws::table_body, crate::proofs::CallLaws::table_count, crate::proofs::CallLaws::table_kept), unfolding(decimal::specs::Answer::mapped))]
#[unsafe(no_mangle)]
pub extern "C" fn hulgyevan_read_file(
    file: &[u8],
    columns: &mut usize,
    contents_size: &mut usize,
    body: &mut usize,
    records: &mut usize,
) -> u64
    ensures word { result ≡ outcome (read_file file.now) }
    ensures columns { columns.new ≡ value_or (mapped columns_of (read_file file.now)) columns.old }
    ensures size { contents_size.new ≡ value_or (mapped size_of_contents (read_file file.now)) contents_size.old }
    ensures body { body.new ≡ value_or (mapped body_of (read_file file.now)) body.old }
    ensures records { records.new ≡ value_or (mapped (λ table. record_count table file.now) (read_file file.now)) records.old }
{
    match RecordFile::read(file) {
        Ok(read) => {
            *columns = read.contents().images().len();
            *contents_size = read.contents().size();
            *body = read.contents().body_size();
            *records = read.count();
            0
        }
        Err(refusal) => refusal_word(refusal),
    }
}

// Writes a contents lent alone into a buffer: a file without records, of which the length is given. The bytes behind it stay.
// Refused as the contents is, last with 6; then nothing changes.
#[tactic(auto, using(crate::proofs::OutcomeLaws::outcome_sized))]
#[unsafe(no_mangle)]
pub extern "C" fn hulgyevan_write_contents(
    contents: &[u8],
    buffer: &mut [u8],
    used: &mut usize,
) -> u64
    ensures word { result ≡ outcome (starting_file contents.now (length buffer.old)) }
    ensures used { used.new ≡ value_or (sized (starting_file contents.now (length buffer.old))) used.old }
    ensures bytes { buffer.new ≡ stored_in (starting_file contents.now (length buffer.old)) buffer.old }
{
    give_size(write_contents(contents, buffer), used)
}

// Adds a record of the numbers of the first N words.
fn add_first<const N: usize>(
    used: usize,
    words: &[u64],
    buffer: &mut [u8],
) -> Result<usize, Refusal>
    requires { N ≤ max_columns + 1 }
    ensures answer { meaning result ≡ new_length used (added buffer.old used (numbers_in (take N words.now))) }
    ensures bytes { buffer.new ≡ written_behind used (added buffer.old used (numbers_in (take N words.now))) buffer.old }
{
    let list = numbers_of::<N>(words);
    add(used, &list, buffer)
}

// Adds a record to the file in the first bytes of a buffer, and gives the used length with it: all other bytes stay. Refused with 11 for
// the used length, as the file is, with 10, items from the left with 3, 4, 5 and the column, last with 6; then nothing changes.
#[tactic(auto, using(crate::proofs::OutcomeLaws::outcome_length, crate::proofs::CutLaws::cut_added))]
#[unsafe(no_mangle)]
pub extern "C" fn hulgyevan_add(
    used: usize,
    numbers: &[u64],
    buffer: &mut [u8],
    new_used: &mut usize,
) -> u64
    ensures word { result ≡ outcome (added buffer.old used (numbers_in numbers.now)) }
    ensures used { new_used.new ≡ value_or (new_length used (added buffer.old used (numbers_in numbers.now))) new_used.old }
    ensures bytes { buffer.new ≡ written_behind used (added buffer.old used (numbers_in numbers.now)) buffer.old }
{
    let written = if numbers.len() <= FEW {
        add_first::<FEW>(used, numbers, buffer)
    } else {
        add_first::<NUMBERS>(used, numbers, buffer)
    };
    give_size(written, new_used)
}

// Reserves the place of a record behind the file in the first bytes of a buffer: gives where it goes, and how many bytes it fills.
// Refused with 11 for the used length, then as the file is; that a body finds no room there is no refusal.
#[tactic(auto, unfolding(crate::specs::Outcomes::outcome, crate::specs::Outcomes::value_or, decimal::specs::Answer::mapped))]
#[unsafe(no_mangle)]
pub extern "C" fn hulgyevan_reserve(
    buffer: &[u8],
    used: usize,
    start: &mut usize,
    size: &mut usize,
) -> u64
    ensures word { result ≡ outcome (reserved buffer.now used) }
    ensures start { start.new ≡ value_or (mapped reserved_start (reserved buffer.now used)) start.old }
    ensures size { size.new ≡ value_or (mapped reserved_size (reserved buffer.now used)) size.old }
{
    match reserve(buffer, used) {
        Ok(reservation) => {
            *start = reservation.start;
            *size = reservation.size;
            0
        }
        Err(refusal) => refusal_word(refusal),
    }
}

// Writes a record of the numbers of the first N words where its place was reserved.
fn write_first<const N: usize>(
    used: usize,
    reservation: Reservation,
    words: &[u64],
    buffer: &mut [u8],
) -> Result<usize, Refusal>
    requires { N ≤ max_columns + 1 }
    ensures answer { meaning result ≡ new_length used (filled buffer.old used reservation (numbers_in (take N words.now))) }
    ensures bytes { buffer.new ≡ written_behind used (filled buffer.old used reservation (numbers_in (take N words.now))) buffer.old }
{
    let list = numbers_of::<N>(words);
    write_reserved(used, reservation, &list, buffer)
}

// Writes a record where its place was reserved, and gives the used length with it: all other bytes stay. Refused with 11 for the used
// length, as the contents is, with 18 where the place is another now, then as hulgyevan_add is; then nothing changes.
#[tactic(auto, using(crate::proofs::OutcomeLaws::outcome_length, crate::proofs::CutLaws::cut_filled))]
#[unsafe(no_mangle)]
pub extern "C" fn hulgyevan_write_reserved(
    used: usize,
    start: usize,
    size: usize,
    numbers: &[u64],
    buffer: &mut [u8],
    new_used: &mut usize,
) -> u64
    ensures word { result ≡ outcome (filled buffer.old used (record { start = start; size = size }) (numbers_in numbers.now)) }
    ensures used { new_used.new ≡ value_or (new_length used (filled buffer.old used (record { start = start; size = size }) (numbers_in numbers.now))) new_used.old }
    ensures bytes { buffer.new ≡ written_behind used (filled buffer.old used (record { start = start; size = size }) (numbers_in numbers.now)) buffer.old }
{
    let reservation = Reservation { start, size };
    let written = if numbers.len() <= FEW {
        write_first::<FEW>(used, reservation, numbers, buffer)
    } else {
        write_first::<NUMBERS>(used, reservation, numbers, buffer)
    };
    give_size(written, new_used)
}

// Where the body of a record stands in a file, by its number from 0: refused as the file is, then with 12.
#[tactic(auto, using(records::proofs::FileProofs::FileLaws::shown_refused), unfolding(decimal::specs::Answer::mapped))]
fn place_in(file: &[u8], index: usize) -> Result<Range<usize>, Refusal>
    ensures { meaning result ≡ mapped range_of (shown file.now index) }
{
    RecordFile::read(file)?.place(index)
}

// Where the body of a record stands in a file, by its number from 0, and how many bytes it fills; refused as the file is, then with 12.
#[tactic(auto, using(crate::proofs::FileLaws::range_ordered, crate::proofs::FileLaws::shown_word, crate::proofs::FileLaws::shown_start, crate::proofs::FileLaws::shown_size, crate::proofs::FileLaws::shown_refused, crate::proofs::CallLaws::value_refused))]
#[unsafe(no_mangle)]
pub extern "C" fn hulgyevan_show(
    file: &[u8],
    index: usize,
    start: &mut usize,
    size: &mut usize,
) -> u64
    ensures word { result ≡ outcome (shown file.now index) }
    ensures start { start.new ≡ value_or (mapped part_start (shown file.now index)) start.old }
    ensures size { size.new ≡ value_or (mapped part_size (shown file.now index)) size.old }
{
    match place_in(file, index) {
        Ok(range) => {
            *start = range.start;
            *size = range.end - range.start;
            0
        }
        Err(refusal) => refusal_word(refusal),
    }
}

// Writes the listing of a file into a buffer, and gives its length: the bytes behind it stay. Refused as the file is, with 7 and the column
// within the first bad record, last with 6; then nothing changes.
#[tactic(auto, using(crate::proofs::OutcomeLaws::outcome_sized))]
#[unsafe(no_mangle)]
pub extern "C" fn hulgyevan_list(file: &[u8], buffer: &mut [u8], size: &mut usize) -> u64
    ensures word { result ≡ outcome (listed file.now (length buffer.old)) }
    ensures size { size.new ≡ value_or (sized (listed file.now (length buffer.old))) size.old }
    ensures bytes { buffer.new ≡ stored_in (listed file.now (length buffer.old)) buffer.old }
{
    give_size(list(file, buffer), size)
}

// Enters the records of a text of lines under a contents lent alone: writes the record file into a buffer, and gives its length; the bytes
// behind it stay. Refused as the contents is, as the first bad line is, last with 6: then the line's number from 1 is given, or 0 where it
// is no line's refusal, and nothing else changes.
#[tactic(auto, using(crate::proofs::EnterLaws::enter_done_word, crate::proofs::EnterLaws::enter_done_size, crate::proofs::EnterLaws::enter_done_line, crate::proofs::EnterLaws::enter_call_word, crate::proofs::EnterLaws::enter_call_size, crate::proofs::EnterLaws::enter_call_line, crate::proofs::EnterLaws::enter_line_word, crate::proofs::EnterLaws::enter_line_size, crate::proofs::EnterLaws::enter_line_line))]
#[unsafe(no_mangle)]
pub extern "C" fn hulgyevan_enter(
    contents: &[u8],
    text: &[u8],
    buffer: &mut [u8],
    size: &mut usize,
    line: &mut usize,
) -> u64
    ensures word { result ≡ outcome (answer_in (entering contents.now text.now (length buffer.old))) }
    ensures size { size.new ≡ value_or (answer_in (sized_entry (entering contents.now text.now (length buffer.old)))) size.old }
    ensures line { line.new ≡ line_or (entering contents.now text.now (length buffer.old)) line.old }
    ensures bytes { buffer.new ≡ stored_entry (entering contents.now text.now (length buffer.old)) buffer.old }
{
    match enter(contents, text, buffer) {
        Ok(length) => {
            *size = length;
            0
        }
        Err(EntryRefusal::Call(refusal)) => {
            *line = 0;
            refusal_word(refusal)
        }
        Err(EntryRefusal::Line(number, refusal)) => {
            *line = number;
            refusal_word(refusal)
        }
    }
}

// The whole length of a file that may be cut short, and the count of bytes behind it; refused as the contents at its front is.
#[tactic(auto, unfolding(crate::specs::Outcomes::outcome, crate::specs::Outcomes::value_or, decimal::specs::Answer::mapped))]
#[unsafe(no_mangle)]
pub extern "C" fn hulgyevan_whole_length(file: &[u8], whole: &mut usize, behind: &mut usize) -> u64
    ensures word { result ≡ outcome (whole_length_of file.now) }
    ensures whole { whole.new ≡ value_or (mapped whole_size (whole_length_of file.now)) whole.old }
    ensures behind { behind.new ≡ value_or (mapped whole_behind (whole_length_of file.now)) behind.old }
{
    match whole_length(file) {
        Ok(answer) => {
            *whole = answer.length;
            *behind = answer.behind;
            0
        }
        Err(refusal) => refusal_word(refusal),
    }
}
