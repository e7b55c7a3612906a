// What the calls that write leave in a lent buffer.
ghost use Rattle.std.specs.Prelude.{◌≡◌};
ghost use Rattle.decimal.specs.Answer.{meaning};
ghost use Rattle.codec.specs.Answers.{written_part};

use decimal::Refusal;

// The part of a buffer that a call wrote, by its answer: the empty part where it was refused, or where the buffer is shorter than that.
#[tactic(auto, unfolding(crate::specs::Answers::written_part))]
pub fn written_part(answer: Result<usize, Refusal>, buffer: &[u8]) -> &[u8]
    ensures { result.now ≡ written_part (meaning answer) buffer.now }
{
    match answer {
        Ok(size) if size <= buffer.len() => &buffer[..size],
        _ => &[],
    }
}
