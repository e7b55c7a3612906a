// The field that starts at a place of a line image (document 01: Print lines).
ghost use Rattle.std.specs.Prelude.{◌≡◌, ◌+◌, ◌==◌, drop};
ghost use Rattle.decimal.specs.Answer.{pick};
ghost use Rattle.decimal.specs.Image.{hash_byte, hashes_in};
ghost use Rattle.records.specs.Lines.Scanning.{field_length, scanned_field};

use decimal::leading_run;
use decimal::machine::{State, next_state};

// The field that bytes begin with: its length, the # signs before and behind the point, and whether it is exponential.
// Length 0 says that there is none.
#[derive(Clone, Copy)]
pub(crate) struct Scanned {
    pub length: usize,
    pub integer: usize,
    pub fraction: usize,
    pub exponential: bool,
}

// How many bytes the machine reads in one step: a run of # signs, since a # behind a # leads to no other state, else one byte.
#[inline(always)]
#[tactic(auto, using(decimal::proofs::StepLaws::run_inside))]
fn step_size(first: u8, behind: &[u8]) -> usize
    ensures { result ≡ pick (first == hash_byte) (hashes_in behind.now + 1) 1 }
{
    if first == b'#' {
        leading_run(behind, b'#') + 1
    } else {
        1
    }
}

// The field that bytes begin with, all 0 where the first byte is literal or there is none.
#[inline(always)]
pub(crate) fn scan_field(bytes: &[u8]) -> Scanned
    ensures { result ≡ scanned_field bytes.now }
{
    let mut scanned = Scanned {
        length: 0,
        integer: 0,
        fraction: 0,
        exponential: false,
    };
    let mut state = State::Start;
    let mut rest = bytes;
    let mut read = 0;
    while let [first, behind @ ..] = rest {
        state = next_state(state, *first);
        if matches!(state, State::Stopped) {
            return scanned;
        }
        let step = step_size(*first, behind);
        rest = &rest[step..];
        read += step;
        match state {
            State::Integer | State::Grouped => {
                scanned.length = read;
                scanned.integer += step;
                scanned.exponential = false;
            }
            State::Fraction | State::GroupedFraction => {
                scanned.length = read;
                scanned.fraction += step;
                scanned.exponential = false;
            }
            State::Exponential => {
                scanned.length = read;
                scanned.exponential = true;
            }
            _ => {}
        }
    }
    scanned
}

// The length of the field that starts at a place of a line; 0 if the byte there is literal or the place is past the end.
pub fn scan(line: &[u8], at: usize) -> usize
    ensures { result ≡ field_length (drop at line.now) }
{
    match line.get(at..) {
        Some(bytes) => scan_field(bytes).length,
        None => 0,
    }
}
