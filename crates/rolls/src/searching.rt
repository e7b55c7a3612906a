// Finding a page's positions in a file, all in one pass (document 02, (iii)).
ghost use Rattle.std.specs.Prelude.{true, ◌≡◌, ◌%◌, ◌<◌, ◌≤◌, length, take, IfSome, IsSomeAnd};
ghost use Rattle.decimal.specs.Answer.{done, meaning, mapped};
ghost use Rattle.codec.specs.Columns.{body_size};
ghost use Rattle.codec.specs.Ordering.{reaches};
ghost use Rattle.rolls.specs.Falling.{fall, normal_at_most};
ghost use Rattle.rolls.specs.Merging.{first_column_of};
ghost use Rattle.rolls.specs.Runs.{all_bodies, runs_in, first_reaching, Ordered};
ghost use Rattle.rolls.specs.Searching.{
  max_positions,
  first_columns_of,
  is_unsigned_fixed,
  check_numbers,
  check_kind,
  refuse_where,
  check_positions,
  walk,
  searching,
  search_of,
};

use crate::falling::{bodies_fall, is_at_most};
use codec::{Contents, FixedList, Numbers, column_size, least_run, ordered_run};
use decimal::{Image, Number, Reason, Refusal, Sign};
use records::RecordFile;

// The most positions of a page.
pub const MAX_POSITIONS: usize = 64;

// For each position the number of a record, and the count of comparisons made.
#[derive(Clone, Copy, Debug, PartialEq, Eq, Hash)]
pub struct Found {
    pub records: FixedList<usize, MAX_POSITIONS>,
    pub comparisons: usize,
}

// Whether all positions are in normal form: refused with 3 and the index of the first that is not.
#[tactic(auto, using(crate::proofs::PageLaws::numbers_turn, crate::proofs::PageLaws::numbers_refused), unfolding(crate::specs::Searching::check_numbers))]
fn check_normal(positions: &[Number]) -> Result<(), Refusal>
    ensures { meaning result ≡ check_numbers 0 positions.now }
{
    for (index, position) in positions.iter().enumerate() {
        position.checked(index)?;
    }
    Ok(())
}

// Whether positions in normal form fall.
fn positions_fall(positions: &[Number]) -> bool
    requires { check_numbers 0 positions.now ≡ done tt }
    ensures { result ≡ fall positions.now }
{
    !positions.is_sorted_by(|first, second| is_at_most(*first, *second))
}

// Whether an image is unsigned fixed point.
fn is_unsigned_fixed(image: Image) -> bool
    ensures { result ≡ is_unsigned_fixed image }
{
    !image.exponential && image.sign == Sign::Unsigned
}

// Whether the first of some images is unsigned fixed point: refused with 16.
#[tactic(auto, unfolding(crate::specs::Searching::check_kind))]
pub(crate) fn check_kind(images: &[Image]) -> Result<(), Refusal>
    requires { 0 < length images.now }
    ensures { meaning result ≡ check_kind images.now }
{
    if is_unsigned_fixed(images[0]) {
        return Ok(());
    }
    Err(Refusal {
        reason: Reason::WrongKind,
        place: 0,
    })
}

// Refuses records that fall, with 15.
#[tactic(auto, unfolding(crate::specs::Searching::refuse_where))]
pub(crate) fn check_records(falls: bool) -> Result<(), Refusal>
    ensures { meaning result ≡ refuse_where falls 15 }
{
    if falls {
        return Err(Refusal {
            reason: Reason::RecordsFall,
            place: 0,
        });
    }
    Ok(())
}

// Whether a page can be looked for, but for records that fall: refused with 3 and the position's index, then with 16, 14.
#[tactic(auto, using(crate::proofs::PageLaws::page_abnormal, crate::proofs::PageLaws::page_kind, crate::proofs::PageLaws::page_positions), unfolding(crate::specs::Searching::refuse_where))]
fn check_positions(images: &[Image], positions: &[Number]) -> Result<(), Refusal>
    requires { 0 < length images.now }
    ensures { meaning result ≡ check_positions images.now positions.now }
{
    check_normal(positions)?;
    check_kind(images)?;
    if positions_fall(positions) {
        return Err(Refusal {
            reason: Reason::PositionsFall,
            place: 0,
        });
    }
    Ok(())
}

// Whether a run is at least the least one, where there is one.
#[tactic(auto, unfolding(codec::specs::Ordering::reaches))]
fn reaches(least: Option<u64>, run: u64) -> bool
    ensures { result ≡ reaches least run }
{
    match least {
        Some(least) => least <= run,
        None => false,
    }
}

// How many bodies of one size stand before the first whose first column, so many bytes, reaches the least run.
fn count_below(bodies: &[u8], body: usize, width: usize, least: Option<u64>) -> usize
    requires { (width ≤ body) × (0 < body) × (length bodies.now % body ≡ 0) }
    ensures { result ≡ first_reaching least (runs_in width body bodies.now) }
{
    let mut left = bodies;
    let mut below = 0;
    while !left.is_empty() {
        if reaches(least, ordered_run(left, width)) {
            break;
        }
        below += 1;
        let (_, behind) = left.split_at(body);
        left = behind;
    }
    below
}

// The first column of the record that bodies begin with, as a number, where no more bodies are left than a page has positions. A body that
// is refused leaves no number.
#[tactic(auto, unfolding(crate::specs::Merging::first_column_of))]
fn front_number(contents: &Contents, bodies: &[u8]) -> Option<Number>
    ensures { IfSome result (λ number. number ≡ first_column_of contents.now.images (take (body_size contents.now.images) bodies.now)) }
{
    let body = contents.body_size();
    if body.saturating_mul(MAX_POSITIONS) < bodies.len() {
        return None;
    }
    let mut numbers = Numbers::new();
    let _ = contents.unpack_into(&bodies[..body.min(bodies.len())], &mut numbers);
    numbers.first().copied()
}

// Whether a position is at most a number, where there is one.
fn is_reached(front: Option<Number>, position: Number) -> bool
    ensures { result ≡ true → IsSomeAnd front (λ number. normal_at_most position number ≡ true) }
{
    match front {
        Some(number) => is_at_most(position, number),
        None => false,
    }
}

// The walk over positions and records: it compares the current position with the current record, goes to the next position if the record
// is at least as large, else to the next record, and ends when either runs out; positions left over take the record count.
fn walk(contents: &Contents, bodies: &[u8], positions: &[Number]) -> Found
    requires records { Ordered contents.now.images bodies.now }
    requires page { (length positions.now ≤ max_positions) × (check_numbers 0 positions.now ≡ done tt) }
    ensures { mapped (walk 0 positions.now) (first_columns_of contents.now.images (all_bodies (body_size contents.now.images) bodies.now)) ≡ done (search_of result) }
{
    let image = contents.images()[0];
    let width = column_size(image);
    let body = contents.body_size();
    let mut records = FixedList::new();
    let mut comparisons = 0;
    let mut record = 0;
    let mut left = bodies;
    let mut front = front_number(contents, left);
    for position in positions {
        if left.is_empty() {
            records.push(record);
            continue;
        }
        if is_reached(front, *position) {
            comparisons += 1;
            records.push(record);
            continue;
        }
        let below = count_below(left, body, width, least_run(image, *position));
        let (_, behind) = left.split_at(below * body);
        left = behind;
        front = front_number(contents, left);
        record += below;
        comparisons += below + usize::from(!left.is_empty());
        records.push(record);
    }
    Found {
        records,
        comparisons,
    }
}

// For each of a page's positions the first record of a file whose first column is at least the position, or the record count.
// Refused as the file is, with 10 for the count of positions, with 7 and the column within the first bad record, with 3 and the
// position's index, with 16 where the first column is signed or exponential, with 14 where positions fall, with 15 where records fall.
#[tactic(auto, using(crate::proofs::SearchLaws::search_file, crate::proofs::SearchLaws::search_many), unfolding(decimal::specs::Answer::mapped))]
pub fn find(file: &[u8], positions: &[Number]) -> Result<Found, Refusal>
    ensures { mapped search_of (meaning result) ≡ searching file.now positions.now }
{
    let read = RecordFile::read(file)?;
    if MAX_POSITIONS < positions.len() {
        return Err(Refusal::WRONG_COUNT);
    }
    let checked = read.checked()?;
    let contents = checked.contents();
    check_positions(contents.images(), positions)?;
    let (_, bodies) = file.split_at(contents.size());
    let width = column_size(contents.images()[0]);
    check_records(bodies_fall(bodies, contents.body_size(), width))?;
    Ok(walk(contents, bodies, positions))
}
