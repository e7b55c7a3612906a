// Numbers that fall: some number is below the one before it (document 02, (iii)).
ghost use Rattle.std.specs.Prelude.{◌≡◌, ◌%◌, ◌<◌, ◌≤◌, length};
ghost use Rattle.rolls.specs.Falling.{normal_at_most};
ghost use Rattle.rolls.specs.Runs.{runs_in, runs_fall};

use codec::ordered_run;
use decimal::{Number, compare};

// Whether a number is at most another, by value; false where one is not in normal form.
pub(crate) fn is_at_most(first: Number, second: Number) -> bool
    ensures { result ≡ normal_at_most first second }
{
    compare(first, second).is_ok_and(|order| order.is_le())
}

// Whether the runs of first columns, so many bytes of each body of one size, fall.
pub(crate) fn bodies_fall(bodies: &[u8], body: usize, width: usize) -> bool
    requires { (width ≤ body) × (0 < body) × (length bodies.now % body ≡ 0) }
    ensures { result ≡ runs_fall (runs_in width body bodies.now) }
{
    let mut left = bodies;
    let mut last = 0;
    while !left.is_empty() {
        let run = ordered_run(left, width);
        if run < last {
            return true;
        }
        last = run;
        let (_, behind) = left.split_at(body);
        left = behind;
    }
    false
}
