// Walking a text: a small record that refers to the lent text, and reading all text numbers of a text (document 01: Record file).
ghost use Rattle.std.specs.Prelude.{◌≡◌, drop};
ghost use Rattle.decimal.specs.Answer.{meaning};
ghost use Rattle.codec.specs.Text.{reading_meaning, reading_in, legal_length, read_text};
ghost use Rattle.codec.specs.Walking.{number_place, stop_before, walk_of, walking, ahead_of, moved_on, skipped_on};

use crate::lists::Numbers;
use crate::text::{NO_READING, Reading, TextNumber, read_text};
use decimal::{Refusal, leading_run};

// A walk over a lent text: the text, and the place where it goes on, document 01's form. It is for callers in Rattle who take a text number
// by number, and skip the words between them.
#[derive(Clone, Copy, Debug, PartialEq, Eq, Hash)]
pub struct Walker<'a> {
    text: &'a [u8],
    place: usize,
}

// Why reading stopped where no number is refused: at the end, where no text number begins, or before one number too many.
#[derive(Clone, Copy, Debug, PartialEq, Eq, Hash)]
pub enum Stop {
    End,
    NoNumber,
    TooMany,
}

// The text numbers that were read in order, and where and why reading stopped: a refused number's refusal, or another reason.
// The list stands beside the answer and not in it, since the numbers before a refused one are given too.
#[derive(Clone, Copy, Debug, PartialEq, Eq, Hash)]
pub struct TextNumbers {
    pub answer: Result<Stop, Refusal>,
    pub numbers: Numbers,
    pub place: usize,
}

// A place may lie past the text's end, where no rest can be lent; so the functions below take the whole text and a place.

// The longest beginning from a place on that is a text number, and its number; 8 with no byte used where there is none, as at the end.
#[tactic(auto, using(crate::proofs::WalkLaws::reading_end))]
fn read_at(text: &[u8], place: usize) -> Reading
    ensures { reading_meaning result ≡ reading_in (drop place text.now) }
{
    match text.get(place..) {
        Some(rest) => read_text(rest),
        None => NO_READING,
    }
}

// The next place, from one on, where a text number begins; the text's end where there is none, a place past the end as it is.
// A text number begins at blanks exactly where one begins behind them, so a run of blanks is stepped over as a whole; one that stands
// behind a sign was read once before.
// The loop goes by places, of which one is the answer; the steps have different lengths.
#[tactic(auto, using(decimal::proofs::StepLaws::run_inside, crate::proofs::WalkLaws::skip_ends), unfolding(crate::specs::Walking::number_place))]
pub fn next_number_place(text: &[u8], from: usize) -> usize
    ensures { result ≡ number_place text.now from }
{
    let mut place = from;
    while place < text.len() {
        let behind = place + leading_run(&text[place..], b' ');
        if text.len() <= behind {
            return behind;
        }
        let reading = read_text(&text[behind..]);
        if reading.used != 0 {
            return place;
        }
        place = behind + 1;
    }
    place
}

// Why no number is read at a place where so many bytes would be used.
// It takes the whole text, as read_at does: a place may lie past the end, where no rest can be lent.
#[tactic(auto, using(crate::proofs::WalkLaws::stop_end, crate::proofs::WalkLaws::stop_none, crate::proofs::WalkLaws::stop_many))]
fn why_stopped(text: &[u8], place: usize, used: usize) -> Stop
    requires { used ≡ legal_length (drop place text.now) }
    ensures { result ≡ stop_before (drop place text.now) }
{
    if text.len() <= place {
        Stop::End
    } else if used == 0 {
        Stop::NoNumber
    } else {
        Stop::TooMany
    }
}

// All text numbers of a text from a place on, in order, up to MAX_COLUMNS. A number refused with 5 has its index for its place.
// The loop goes by places, of which the last is part of the answer, and may lie past the end: a Walker would go on behind a number that
// is not taken.
#[tactic(auto, using(crate::proofs::WalkLaws::used_inside, crate::proofs::WalkLaws::collecting_starts, crate::proofs::WalkLaws::collecting_turns))]
pub fn read_text_numbers(text: &[u8], from: usize) -> TextNumbers
    ensures { walk_of result ≡ walking text.now from }
{
    let mut numbers = Numbers::new();
    let mut place = from;
    loop {
        let reading = read_at(text, place);
        if reading.used == 0 || numbers.is_full() {
            return TextNumbers {
                answer: Ok(why_stopped(text, place, reading.used)),
                numbers,
                place,
            };
        }
        match reading.number {
            Ok(number) => numbers.push(number),
            Err(refusal) => {
                return TextNumbers {
                    answer: Err(Refusal {
                        reason: refusal.reason,
                        place: numbers.len(),
                    }),
                    numbers,
                    place,
                };
            }
        }
        place += reading.used;
    }
}

impl<'a> Walker<'a> {
    // A walker over a text, at its start.
    pub fn new(text: &'a [u8]) -> Walker<'a>
        ensures { (result.text ≡ text.entry) × (result.place ≡ 0) }
    {
        Walker { text, place: 0 }
    }

    // The place where the walk goes on.
    pub fn place(&self) -> usize
        ensures { result ≡ self.now.place }
    {
        self.place
    }

    // The next text number from the walker's place, with the bytes used: refused with 8 where there is none, with 5 where its exponent is
    // outside its limits. The walker is moved on behind the bytes of a number, one that is refused with 5 too.
    #[tactic(auto, using(crate::proofs::TextLaws::read_used_lem, crate::proofs::TextLaws::reads_number, crate::proofs::TextLaws::reads_refused, crate::proofs::WalkLaws::moved_fits))]
    pub fn next_number(&mut self) -> Result<TextNumber, Refusal>
        ensures answer { meaning result ≡ read_text (ahead_of self.old) }
        ensures moved { self.new ≡ moved_on self.old }
    {
        let reading = read_at(self.text, self.place);
        self.place += reading.used;
        let number = reading.number?;
        Ok(TextNumber {
            number,
            used: reading.used,
        })
    }

    // Moves the walker on to the next place where a text number begins.
    pub fn skip_to_number(&mut self)
        ensures { self.new ≡ skipped_on self.old }
    {
        self.place = next_number_place(self.text, self.place);
    }
}
