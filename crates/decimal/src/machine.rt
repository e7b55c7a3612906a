// The state machine that reads images and the fields of print lines (document 01: Images).
ghost use Rattle.std.specs.Prelude.{◌≡◌, ◌≤◌, OnOk};
ghost use Rattle.decimal.specs.Answer.{meaning};
ghost use Rattle.decimal.specs.Digits.{precision};
ghost use Rattle.decimal.specs.Image.{
  state_of,
  after_sign,
  after_hash,
  after_point,
  after_comma,
  after_up,
  next_state,
  is_image,
  integer_hash,
  fraction_hash,
  is_exponential,
  counted,
  check_digits,
};

use crate::digits::PRECISION;
use crate::refusal::{Reason, Refusal};

// What was read of a field, from its first byte.
#[derive(Clone, Copy, Debug, PartialEq, Eq, Hash)]
pub enum State {
    // Nothing.
    Start,
    // A sign.
    Signed,
    // # signs with no comma and no point, a # last.
    Integer,
    // As Integer, with a comma among the # signs.
    Grouped,
    // A comma last, which a # must follow.
    Comma,
    // A point last, which a # must follow.
    Point,
    // As Point, with a comma before the point.
    GroupedPoint,
    // # signs behind a point, no comma before it.
    Fraction,
    // As Fraction, with a comma before the point.
    GroupedFraction,
    // One 5E byte behind the # signs.
    FirstUp,
    // Two of them.
    SecondUp,
    // Three of them.
    ThirdUp,
    // The four 5E bytes of an exponential image.
    Exponential,
    // No field begins with the bytes read.
    Stopped,
}

// The state after one more byte.
#[inline(always)]
#[tactic(auto, unfolding(crate::specs::Image::next_state))]
pub fn next_state(state: State, byte: u8) -> State
    ensures { state_of result ≡ next_state (state_of state) byte }
{
    match byte {
        b'+' | b'-' => after_sign(state),
        b'#' => after_hash(state),
        b'.' => after_point(state),
        b',' => after_comma(state),
        b'^' => after_up(state),
        _ => State::Stopped,
    }
}

// The state after a sign, which only begins a field.
fn after_sign(state: State) -> State
    ensures { state_of result ≡ after_sign (state_of state) }
{
    match state {
        State::Start => State::Signed,
        _ => State::Stopped,
    }
}

// The state after a #.
fn after_hash(state: State) -> State
    ensures { state_of result ≡ after_hash (state_of state) }
{
    match state {
        State::Start | State::Signed | State::Integer => State::Integer,
        State::Grouped | State::Comma => State::Grouped,
        State::Point | State::Fraction => State::Fraction,
        State::GroupedPoint | State::GroupedFraction => State::GroupedFraction,
        _ => State::Stopped,
    }
}

// The state after a point, of which there is at most one.
fn after_point(state: State) -> State
    ensures { state_of result ≡ after_point (state_of state) }
{
    match state {
        State::Start | State::Signed | State::Integer => State::Point,
        State::Grouped => State::GroupedPoint,
        _ => State::Stopped,
    }
}

// The state after a comma, which stands behind a # before the point.
fn after_comma(state: State) -> State
    ensures { state_of result ≡ after_comma (state_of state) }
{
    match state {
        State::Integer | State::Grouped => State::Comma,
        _ => State::Stopped,
    }
}

// The state after a 5E byte; a field with a comma can't be exponential.
fn after_up(state: State) -> State
    ensures { state_of result ≡ after_up (state_of state) }
{
    match state {
        State::Integer | State::Fraction => State::FirstUp,
        State::FirstUp => State::SecondUp,
        State::SecondUp => State::ThirdUp,
        State::ThirdUp => State::Exponential,
        _ => State::Stopped,
    }
}

// Whether the bytes that led to a state are an image.
pub(crate) fn is_image(state: State) -> bool
    ensures { result ≡ is_image (state_of state) }
{
    matches!(state, State::Integer | State::Fraction | State::Exponential)
}

// What a state says of the last byte: 1 and 0 for a # before the point, 0 and 1 for a # behind it, else 0 and 0.
pub(crate) fn hash_counts(state: State) -> (usize, usize)
    ensures integer { result.0 ≡ counted (integer_hash (state_of state)) 0 }
    ensures fraction { result.1 ≡ counted (fraction_hash (state_of state)) 0 }
{
    let before = matches!(state, State::Integer | State::Grouped);
    let behind = matches!(state, State::Fraction | State::GroupedFraction);
    (usize::from(before), usize::from(behind))
}

// Whether the last byte is a 5E; for the state of an image, whether the image is exponential.
pub(crate) fn is_exponential(state: State) -> bool
    ensures { result ≡ is_exponential (state_of state) }
{
    matches!(
        state,
        State::FirstUp | State::SecondUp | State::ThirdUp | State::Exponential
    )
}

// Whether an image can have so many # signs: refused with 2 where they are more than PRECISION.
#[tactic(auto, unfolding(crate::specs::Image::check_digits))]
pub fn check_digits(count: usize, place: usize) -> Result<(), Refusal>
    ensures few { OnOk result (count ≤ precision) }
    ensures answer { meaning result ≡ check_digits place count }
{
    let many = PRECISION < count;
    if many {
        return Err(Refusal {
            reason: Reason::TooManyDigits,
            place,
        });
    }
    Ok(())
}
