// Whole files of a roll: the calls of the layer rolls.
ghost use Rattle.std.specs.Prelude.{◌≡◌, ◌+◌, ◌≤◌, length, take};
ghost use Rattle.decimal.specs.Answer.{meaning, mapped};
ghost use Rattle.codec.specs.Answers.{stored_in, sized};
ghost use Rattle.rolls.specs.Merging.{merging};
ghost use Rattle.rolls.specs.Searching.{max_positions, search_of, searching};
ghost use Rattle.hulgyevan.specs.Words.{numbers_in};
ghost use Rattle.hulgyevan.specs.Outcomes.{outcome, value_or};
ghost use Rattle.hulgyevan.specs.Roll.{finding, found_records, found_comparisons};

use crate::words::{FEW, give_size, numbers_of, refusal_word, store_sizes};
use decimal::Refusal;
use rolls::{Found, MAX_POSITIONS, find, merge};

// One position more than a page has: a longer list is refused as its first so many positions are.
const POSITIONS: usize = MAX_POSITIONS + 1;

// Finds the numbers of the first N words.
fn find_first<const N: usize>(file: &[u8], words: &[u64]) -> Result<Found, Refusal>
    requires { N ≤ max_positions + 1 }
    ensures { mapped search_of (meaning result) ≡ searching file.now (numbers_in (take N words.now)) }
{
    let list = numbers_of::<N>(words);
    find(file, &list)
}

// Finds the numbers of words.
#[tactic(auto, using(crate::proofs::CutLaws::cut_searching))]
fn find_words(file: &[u8], words: &[u64]) -> Result<Found, Refusal>
    ensures { mapped search_of (meaning result) ≡ searching file.now (numbers_in words.now) }
{
    if words.len() <= FEW {
        find_first::<FEW>(file, words)
    } else {
        find_first::<POSITIONS>(file, words)
    }
}

// For each of a page's positions the first record of a file whose first column is at least the position, or the record count, and the
// count of comparisons. Refused as the file is, with 10 for the count of positions, with 7 and the column within the first bad record, with
// 3 and the position's index, with 16, 14, 15, last with 6 where the slice is shorter than the list; then nothing changes.
#[tactic(auto, using(crate::proofs::CallLaws::value_refused, crate::proofs::RollLaws::finds_refused, crate::proofs::RollLaws::finds_long, crate::proofs::RollLaws::finds_done), unfolding(crate::specs::Outcomes::outcome, crate::specs::Outcomes::value_or, decimal::specs::Answer::mapped, codec::specs::Answers::stored_in))]
#[unsafe(no_mangle)]
pub extern "C" fn hulgyevan_find(
    file: &[u8],
    positions: &[u64],
    records: &mut [usize],
    comparisons: &mut usize,
) -> u64
    ensures word { result ≡ outcome (finding file.now (numbers_in positions.now) (length records.old)) }
    ensures records { records.new ≡ stored_in (mapped found_records (finding file.now (numbers_in positions.now) (length records.old))) records.old }
    ensures comparisons { comparisons.new ≡ value_or (mapped found_comparisons (finding file.now (numbers_in positions.now) (length records.old))) comparisons.old }
{
    match find_words(file, positions) {
        Ok(found) => {
            if records.len() < found.records.len() {
                return refusal_word(Refusal::NO_ROOM);
            }
            store_sizes(&found.records, records);
            *comparisons = found.comparisons;
            0
        }
        Err(refusal) => refusal_word(refusal),
    }
}

// Merges two files into a buffer, on equal first columns the first file's records first, and gives the merged file's length: the bytes
// behind it stay. Refused as each file is and with 7 and the column within its first bad record, then with 17, 16, 15, last with 6; then
// nothing changes.
#[tactic(auto, using(crate::proofs::OutcomeLaws::outcome_sized))]
#[unsafe(no_mangle)]
pub extern "C" fn hulgyevan_merge(
    first: &[u8],
    second: &[u8],
    buffer: &mut [u8],
    size: &mut usize,
) -> u64
    ensures word { result ≡ outcome (merging first.now second.now (length buffer.old)) }
    ensures size { size.new ≡ value_or (sized (merging first.now second.now (length buffer.old))) size.old }
    ensures bytes { buffer.new ≡ stored_in (merging first.now second.now (length buffer.old)) buffer.old }
{
    give_size(merge(first, second, buffer), size)
}
