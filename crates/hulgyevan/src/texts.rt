// Texts: calls of the layer codec.
ghost use Rattle.std.specs.Prelude.{◌≡◌, length};
ghost use Rattle.decimal.specs.Answer.{meaning, mapped};
ghost use Rattle.codec.specs.Answers.{stored_in, sized};
ghost use Rattle.codec.specs.Text.{legal_length, read_text, convert_text};
ghost use Rattle.codec.specs.Walking.{walking};
ghost use Rattle.hulgyevan.specs.Words.{word_of};
ghost use Rattle.hulgyevan.specs.Outcomes.{outcome, value_or};
ghost use Rattle.hulgyevan.specs.Texts.{read_word, read_used, stop_word, walk_words};

use crate::words::{give_number, refusal_word, store_numbers, word_of};
use codec::{Stop, convert, legal_length, read_text_number, read_text_numbers};
use decimal::Refusal;

// The length of the longest beginning of a text that is a text number, 0 if none.
#[unsafe(no_mangle)]
pub extern "C" fn hulgyevan_legal_length(text: &[u8]) -> usize
    ensures { result ≡ legal_length text.now }
{
    legal_length(text)
}

// The number that a text begins with, and the bytes used; refused with 8 where there is none, with 5 where its e is outside its limits.
#[tactic(auto, unfolding(crate::specs::Outcomes::outcome, crate::specs::Outcomes::value_or, decimal::specs::Answer::mapped))]
#[unsafe(no_mangle)]
pub extern "C" fn hulgyevan_read_text_number(text: &[u8], number: &mut u64, used: &mut usize) -> u64
    ensures word { result ≡ outcome (read_text text.now) }
    ensures number { number.new ≡ value_or (mapped read_word (read_text text.now)) number.old }
    ensures used { used.new ≡ value_or (mapped read_used (read_text text.now)) used.old }
{
    match read_text_number(text) {
        Ok(read) => {
            *number = word_of(read.number);
            *used = read.used;
            0
        }
        Err(refusal) => refusal_word(refusal),
    }
}

// The number of a whole text; refused with 8 where bytes are left over, ahead of 5.
#[unsafe(no_mangle)]
pub extern "C" fn hulgyevan_convert(text: &[u8], number: &mut u64) -> u64
    ensures word { result ≡ outcome (convert_text text.now) }
    ensures number { number.new ≡ value_or (mapped word_of (convert_text text.now)) number.old }
{
    give_number(convert(text), number)
}

// Why reading stopped, as a word: 0 at the end, 8 where no text number begins, 10 before one too many, else the word of a number's refusal.
#[tactic(auto, unfolding(crate::specs::Outcomes::outcome, crate::specs::Outcomes::refusal_word))]
fn stop_word(answer: Result<Stop, Refusal>) -> u64
    ensures { result ≡ stop_word (meaning answer) }
{
    match answer {
        Ok(Stop::End) => 0,
        Ok(Stop::NoNumber) => 8,
        Ok(Stop::TooMany) => 10,
        Err(refusal) => refusal_word(refusal),
    }
}

// The text numbers of a text from a place on, up to 16, their count, the place where reading stopped, and why, as a word: a number that
// is refused with 5 has its index for its place. Refused with 6 alone.
#[unsafe(no_mangle)]
pub extern "C" fn hulgyevan_read_text_numbers(
    text: &[u8],
    from: usize,
    numbers: &mut [u64],
    count: &mut usize,
    place: &mut usize,
    stop: &mut u64,
) -> u64
    ensures word { result ≡ outcome (walk_words (walking text.now from) (length numbers.old)) }
    ensures numbers { numbers.new ≡ stored_in (walk_words (walking text.now from) (length numbers.old)) numbers.old }
    ensures count { count.new ≡ value_or (sized (walk_words (walking text.now from) (length numbers.old))) count.old }
    ensures place { place.new ≡ value_or (mapped (λ _. (walking text.now from).place) (walk_words (walking text.now from) (length numbers.old))) place.old }
    ensures stop { stop.new ≡ value_or (mapped (λ _. stop_word (walking text.now from).answer) (walk_words (walking text.now from) (length numbers.old))) stop.old }
{
    let walked = read_text_numbers(text, from);
    match store_numbers(&walked.numbers, numbers) {
        Ok(stored) => {
            *count = stored;
            *place = walked.place;
            *stop = stop_word(walked.answer);
            0
        }
        Err(refusal) => refusal_word(refusal),
    }
}
