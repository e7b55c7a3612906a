// Numbers as the rows give them.
use crate::shown::sign;
use decimal::{Number, Refusal};
use std::fmt;

// The number whole * 10^up / 10^down, or that number negative.
#[derive(Clone, Copy)]
pub(crate) struct Scaled {
    negative: bool,
    whole: u64,
    up: u16,
    down: u16,
}

// The number whole * 10^up / 10^down.
pub(crate) fn plus(whole: u64, up: u16, down: u16) -> Scaled {
    Scaled {
        negative: false,
        whole,
        up,
        down,
    }
}

// The number whole * 10^up / 10^down, negative.
pub(crate) fn minus(whole: u64, up: u16, down: u16) -> Scaled {
    Scaled {
        negative: true,
        ..plus(whole, up, down)
    }
}

impl Scaled {
    // The number in normal form.
    pub(crate) fn number(self) -> Result<Number, Refusal> {
        Number::from_scaled(self.negative, self.whole, self.up, self.down, 0)
    }
}

impl fmt::Display for Scaled {
    // A sign and the whole number, E, and the power of ten with its sign.
    fn fmt<W: fmt::Write>(&self, f: &mut fmt::Formatter<W>) -> fmt::Result {
        write!(f, "{}{}", sign(self.negative), self.whole)?;
        let power = self.up.abs_diff(self.down);
        write!(f, "E{}{power}", sign(self.up < self.down))
    }
}
