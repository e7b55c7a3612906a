// Merging two cameras' files into one (document 02, (vi)).
ghost use Rattle.std.specs.Prelude.{◌≡◌, ◌+◌, ◌%◌, ◌^◌, ◌<◌, ◌≤◌, IfOk, length, take};
ghost use Rattle.std.specs.List.{concat};
ghost use Rattle.decimal.specs.Answer.{done, meaning, mapped};
ghost use Rattle.codec.specs.Answers.{stored_in, sized};
ghost use Rattle.codec.specs.Ordering.{run_of};
ghost use Rattle.records.specs.Files.CheckedFile.{checked_table, checked_bytes};
ghost use Rattle.rolls.specs.Runs.{all_bodies};
ghost use Rattle.rolls.specs.Merging.{merged, not_behind, file_with, check_contents, common_table, merging};

use crate::falling::bodies_fall;
use crate::searching::{check_kind, check_records};
use codec::{column_size, ordered_run};
use decimal::{Image, Reason, Refusal};
use records::CheckedFile;

// Whether two files have the same contents, of a first column that can be compared: refused with 17 for contents that differ in any byte,
// then with 16.
fn check_contents(contents: &[u8], other: &[u8], images: &[Image]) -> Result<(), Refusal>
    requires { 0 < length images.now }
    ensures { meaning result ≡ check_contents contents.now other.now images.now }
{
    if contents != other {
        return Err(Refusal {
            reason: Reason::ContentsDiffer,
            place: 0,
        });
    }
    check_kind(images)
}

// The first of two files that can be merged: refused as the first file is and with 7 and the column within its first bad record, then as
// the second is, then with 17, 16, 15.
#[tactic(auto, unfolding(decimal::specs::Answer::mapped))]
fn common_file<'a>(first: &'a [u8], second: &[u8]) -> Result<CheckedFile<'a>, Refusal>
    ensures { mapped checked_table (meaning result) ≡ common_table first.now second.now }
{
    let one = CheckedFile::read(first)?;
    let two = CheckedFile::read(second)?;
    let table = one.contents();
    let (contents, bodies) = first.split_at(table.size());
    let (other, others) = second.split_at(two.contents().size());
    check_contents(contents, other, table.images())?;
    let width = column_size(table.images()[0]);
    let body = table.body_size();
    let falls = bodies_fall(bodies, body, width) | bodies_fall(others, body, width);
    check_records(falls)?;
    Ok(one)
}

// Writes the bodies of two files, each with one behind the other, as one such file: of the two that are next, the one whose first column
// comes first, and of equal ones the first file's. When one file has no more, the rest is the other's.
#[tactic(auto, using(crate::proofs::FilledLaws::filled_some))]
fn write_merged(first: &[u8], second: &[u8], width: usize, body: usize, target: &mut [u8])
    requires sizes { (width ≤ body) × (width ≤ 8) × (0 < body) }
    requires whole { (length first.now % body ≡ 0) × (length second.now % body ≡ 0) }
    requires room { length target.old ≡ length first.now + length second.now }
    ensures { target.new ≡ concat (merged (not_behind width) (all_bodies body first.now) (all_bodies body second.now)) }
{
    let mut first = first;
    let mut second = second;
    let mut one = ordered_run(first, width);
    let mut other = ordered_run(second, width);
    let mut at = 0;
    while !first.is_empty() && !second.is_empty() {
        let end = at + body;
        let first_goes = one <= other;
        if first_goes {
            let (record, rest) = first.split_at(body);
            target[at..end].copy_from_slice(record);
            first = rest;
            one = ordered_run(first, width);
        } else {
            let (record, rest) = second.split_at(body);
            target[at..end].copy_from_slice(record);
            second = rest;
            other = ordered_run(second, width);
        }
        at = end;
    }
    let end = at + first.len();
    target[at..end].copy_from_slice(first);
    target[end..].copy_from_slice(second);
}

// Writes a contents, and behind it the merged bodies of two files, which fill the buffer.
fn write_file(
    contents: &[u8],
    first: &[u8],
    second: &[u8],
    width: usize,
    body: usize,
    buffer: &mut [u8],
)
    requires sizes { (width ≤ body) × (width ≤ 8) × (0 < body) }
    requires whole { (length first.now % body ≡ 0) × (length second.now % body ≡ 0) }
    requires room { length buffer.old ≡ length contents.now + (length first.now + length second.now) }
    ensures { buffer.new ≡ file_with contents.now (merged (not_behind width) (all_bodies body first.now) (all_bodies body second.now)) }
{
    let start = contents.len();
    buffer[..start].copy_from_slice(contents);
    write_merged(first, second, width, body, &mut buffer[start..]);
}

// Merges two files into a buffer, on equal first columns the first file's records first, and gives the merged file's length: the bytes
// behind it stay. Refused as the first file is and with 7 and the column within its first bad record, then as the second is, then with 17,
// 16, 15, last with 6, which a buffer as long as both files together never gets; then no byte changes.
pub fn merge(first: &[u8], second: &[u8], buffer: &mut [u8]) -> Result<usize, Refusal>
    ensures answer { meaning result ≡ sized (merging first.now second.now (length buffer.old)) }
    ensures bytes { buffer.new ≡ stored_in (merging first.now second.now (length buffer.old)) buffer.old }
{
    let common = common_file(first, second)?;
    let table = common.contents();
    let (contents, bodies) = first.split_at(table.size());
    let (_, others) = second.split_at(table.size());
    let size = first.len() + others.len();
    if buffer.len() < size {
        return Err(Refusal::NO_ROOM);
    }
    let width = column_size(table.images()[0]);
    write_file(
        contents,
        bodies,
        others,
        width,
        table.body_size(),
        &mut buffer[..size],
    );
    Ok(size)
}
