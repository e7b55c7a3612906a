// Images, and reading them (document 01: Images).
ghost use Rattle.std.specs.Prelude.{◌≡◌, ◌<◌, ◌≤◌};
ghost use Rattle.decimal.specs.Answer.{meaning, mapped};
ghost use Rattle.decimal.specs.Digits.{precision};
ghost use Rattle.decimal.specs.Image.{
  leading_run,
  sign_of,
  hashes,
  check_image,
  Scanned,
  read_image,
};

use crate::machine::{State, check_digits, hash_counts, is_exponential, is_image, next_state};
use crate::refusal::{Reason, Refusal};

// The sign that an image begins with, if any.
#[derive(Clone, Copy, Debug, Default, PartialEq, Eq, Hash)]
pub enum Sign {
    #[default]
    Unsigned,
    Plus,
    Minus,
}

// An image: its sign, the counts of # before and after the point (document 01's i and f), and whether it is exponential.
#[derive(Clone, Copy, Debug, Default, PartialEq, Eq, Hash)]
pub struct Image {
    pub sign: Sign,
    pub integer: u8,
    pub fraction: u8,
    pub exponential: bool,
}

// An image that a number can be cut to: it has a #, and no more than PRECISION of them.
#[derive(Clone, Copy)]
pub struct CheckedImage {
    pub image: Image,
    ghost some: { 0 < hashes image },
    ghost few: { hashes image ≤ precision },
}

// What was read of bytes: the last state, and the counts of # before and behind the point.
#[derive(Clone, Copy)]
struct Scan {
    state: State,
    integer: usize,
    fraction: usize,
}

impl Sign {
    // The sign that a byte is; Unsigned for any other byte.
    pub fn of_byte(byte: u8) -> Sign
        ensures { result ≡ sign_of byte }
    {
        match byte {
            b'+' => Sign::Plus,
            b'-' => Sign::Minus,
            _ => Sign::Unsigned,
        }
    }
}

impl Image {
    // The count of # signs, document 01's n.
    pub fn hashes(self) -> usize
        ensures { result ≡ hashes self }
    {
        usize::from(self.integer) + usize::from(self.fraction)
    }

    // The image, checked; refused with 1 where it has no #, with 2 where it has more than PRECISION.
    #[tactic(auto, unfolding(crate::specs::Image::check_image, crate::specs::Image::check_digits, crate::specs::Answer::mapped))]
    pub fn checked(self, place: usize) -> Result<CheckedImage, Refusal>
        ensures { mapped (λ checked. checked.image) (meaning result) ≡ check_image place self }
    {
        let count = self.hashes();
        if count == 0 {
            return Err(Refusal {
                reason: Reason::NotAnImage,
                place,
            });
        }
        check_digits(count, place)?;
        Ok(CheckedImage { image: self })
    }
}

// How many bytes of one value bytes begin with.
pub fn leading_run(bytes: &[u8], byte: u8) -> usize
    ensures { result ≡ leading_run byte bytes.now }
{
    bytes.iter().take_while(|next| **next == byte).count()
}

// What the machine has read of bytes: its last state, and the counts of # before and behind the point.
// A # behind a # leads to no other state, so a run of # signs is read in one step.
fn scan_bytes(bytes: &[u8]) -> Scan
    ensures { Scanned bytes.now result }
{
    let mut state = State::Start;
    let mut integer: usize = 0;
    let mut fraction: usize = 0;
    let mut rest = bytes;
    while let [first, behind @ ..] = rest {
        state = next_state(state, *first);
        rest = behind;
        if *first == b'#' {
            let more = leading_run(behind, b'#');
            let (before, after) = hash_counts(state);
            integer += (more + 1) * before;
            fraction += (more + 1) * after;
            rest = &behind[more..];
        }
    }
    Scan {
        state,
        integer,
        fraction,
    }
}

// Bytes read as an image; refused with 1 where they are none, with 2 where there are more than PRECISION # signs.
#[tactic(auto, using(crate::proofs::ImageLaws::accepted_some, crate::proofs::ImageLaws::scan_few, crate::proofs::ImageLaws::scan_many, crate::proofs::ImageLaws::scan_image, crate::proofs::ImageLaws::digits_many), unfolding(crate::specs::Image::read_image))]
pub fn read_image(bytes: &[u8], place: usize) -> Result<Image, Refusal>
    ensures { meaning result ≡ read_image place bytes.now }
{
    let scan = scan_bytes(bytes);
    if !is_image(scan.state) {
        return Err(Refusal {
            reason: Reason::NotAnImage,
            place,
        });
    }
    check_digits(scan.integer + scan.fraction, place)?;
    Ok(Image {
        sign: Sign::of_byte(bytes[0]),
        integer: scan.integer as u8,
        fraction: scan.fraction as u8,
        exponential: is_exponential(scan.state),
    })
}
