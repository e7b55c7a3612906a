// Words: a number as a word and back, lists of words, and answers as words.
ghost use Rattle.std.specs.Prelude.{◌≡◌, ◌≤◌, take, length};
ghost use Rattle.decimal.specs.Answer.{done, meaning, mapped, reason_number};
ghost use Rattle.codec.specs.Answers.{stored_in, sized, within};
ghost use Rattle.hulgyevan.specs.Words.{number_in, fields_word, word_of, remainder_word, numbers_in, words_of, remainder_words};
ghost use Rattle.hulgyevan.specs.Outcomes.{refusal_word, outcome, value_or};

use arrayvec::ArrayVec;
use codec::{MAX_COLUMNS, Numbers, Remainders};
use decimal::{Number, Refusal, Remainder};

// Mantissas that a word has room for are below this, and its exponent is counted in it.
const MANTISSA_END: u64 = 1 << 52;

// Exponents that a word has room for are below this, as they are held.
const EXPONENT_END: u64 = 1 << 11;

// The bit of the sign.
const SIGN: u64 = 1 << 63;

// Places that a word has room for are below this.
const PLACE_END: u64 = 1 << 56;

// One number more than a contents has columns: a longer list is refused as its first so many numbers are.
pub(crate) const NUMBERS: usize = MAX_COLUMNS + 1;

// So many numbers or elements, or fewer, get a list of this size: a long list takes longer to make than the call.
pub(crate) const FEW: usize = 4;

// The number of a word, which need not be in normal form.
#[tactic(auto, unfolding(crate::specs::Words::number_in))]
pub(crate) fn number_of(word: u64) -> Number
    ensures { result ≡ number_in word }
{
    Number {
        negative: SIGN <= word,
        mantissa: word % MANTISSA_END,
        exponent: (word / MANTISSA_END % EXPONENT_END) as usize,
    }
}

// The word of a mantissa and an exponent as it is held, of each what its field has room for.
#[tactic(auto, unfolding(crate::specs::Words::fields_word))]
fn word_with(mantissa: u64, exponent: usize) -> u64
    ensures { result ≡ fields_word mantissa exponent }
{
    exponent as u64 % EXPONENT_END * MANTISSA_END + mantissa % MANTISSA_END
}

// The word of a number.
#[tactic(auto, using(crate::proofs::WordLaws::fields_below), unfolding(crate::specs::Words::word_of))]
pub(crate) fn word_of(number: Number) -> u64
    ensures { result ≡ word_of number }
{
    let sign = if number.negative { SIGN } else { 0 };
    sign + word_with(number.mantissa, number.exponent)
}

// The word of a remainder: that of the number with its fields.
#[tactic(auto, unfolding(crate::specs::Words::remainder_word))]
fn remainder_word(remainder: Remainder) -> u64
    ensures { result ≡ remainder_word remainder }
{
    word_with(remainder.whole, remainder.power)
}

// The numbers of the first N words.
pub(crate) fn numbers_of<const N: usize>(words: &[u64]) -> ArrayVec<Number, N>
    ensures { result.items ≡ numbers_in (take N words.now) }
{
    let mut numbers = ArrayVec::new();
    for word in words {
        if numbers.is_full() {
            break;
        }
        numbers.push(number_of(*word));
    }
    numbers
}

// Writes the words of numbers, which are the whole target.
fn write_words(numbers: &[Number], target: &mut [u64])
    requires { length target.old ≡ length numbers.now }
    ensures { target.new ≡ words_of numbers.now }
{
    for (k, word) in target.iter_mut().enumerate() {
        *word = word_of(numbers[k]);
    }
}

// Writes the words of remainders, which are the whole target.
fn write_remainder_words(remainders: &[Remainder], target: &mut [u64])
    requires { length target.old ≡ length remainders.now }
    ensures { target.new ≡ remainder_words remainders.now }
{
    for (k, word) in target.iter_mut().enumerate() {
        *word = remainder_word(remainders[k]);
    }
}

// The word of a refusal: its number, and 256 times its place.
#[tactic(auto, unfolding(crate::specs::Outcomes::refusal_word))]
pub(crate) fn refusal_word(refusal: Refusal) -> u64
    ensures { result ≡ refusal_word (reason_number refusal.reason) refusal.place }
{
    u64::from(refusal.reason.number()) + 256 * (refusal.place as u64 % PLACE_END)
}

// The word of an answer; a size that it gives is written, and nothing where it is a refusal.
#[tactic(auto, unfolding(crate::specs::Outcomes::outcome, crate::specs::Outcomes::value_or))]
pub(crate) fn give_size(answer: Result<usize, Refusal>, out: &mut usize) -> u64
    ensures word { result ≡ outcome (meaning answer) }
    ensures value { out.new ≡ value_or (meaning answer) out.old }
{
    match answer {
        Ok(size) => {
            *out = size;
            0
        }
        Err(refusal) => refusal_word(refusal),
    }
}

// The word of an answer; the word of a number that it gives is written, and nothing where it is a refusal.
#[tactic(auto, unfolding(crate::specs::Outcomes::outcome, crate::specs::Outcomes::value_or, decimal::specs::Answer::mapped))]
pub(crate) fn give_number(answer: Result<Number, Refusal>, out: &mut u64) -> u64
    ensures word { result ≡ outcome (meaning answer) }
    ensures value { out.new ≡ value_or (mapped word_of (meaning answer)) out.old }
{
    match answer {
        Ok(number) => {
            *out = word_of(number);
            0
        }
        Err(refusal) => refusal_word(refusal),
    }
}

// Writes the words of numbers into a lent slice, and gives their count; refused with 6 where it is too short, and then nothing changes.
#[tactic(auto, unfolding(codec::specs::Answers::stored_in, codec::specs::Answers::within, codec::specs::Answers::sized))]
pub(crate) fn store_numbers(numbers: &Numbers, words: &mut [u64]) -> Result<usize, Refusal>
    ensures answer { meaning result ≡ sized (within (length words.old) (words_of numbers.now.items)) }
    ensures words { words.new ≡ stored_in (within (length words.old) (words_of numbers.now.items)) words.old }
{
    let count = numbers.len();
    if words.len() < count {
        return Err(Refusal::NO_ROOM);
    }
    write_words(numbers, &mut words[..count]);
    Ok(count)
}

// Writes the words of remainders into a lent slice where it has room for them; else nothing changes.
#[tactic(auto, unfolding(codec::specs::Answers::stored_in, codec::specs::Answers::within))]
pub(crate) fn store_remainders(remainders: &Remainders, words: &mut [u64])
    ensures { words.new ≡ stored_in (within (length words.old) (remainder_words remainders.now.items)) words.old }
{
    let count = remainders.len();
    if count <= words.len() {
        write_remainder_words(remainders, &mut words[..count]);
    }
}

// Writes sizes at the start of a lent slice that has room for them.
#[tactic(auto, unfolding(codec::specs::Answers::stored_in))]
pub(crate) fn store_sizes(list: &[usize], sizes: &mut [usize])
    requires { length list.now ≤ length sizes.old }
    ensures { sizes.new ≡ stored_in (done list.now) sizes.old }
{
    sizes[..list.len()].copy_from_slice(list);
}
