// A number that fits an image, and a number cut to one.
ghost use Rattle.decimal.specs.Cuts.{IsCut};
ghost use Rattle.decimal.specs.Truncation.{Fit};

use crate::image::Image;
use crate::number::Number;

// An image and a number that fits it, which the image can truncate.
#[derive(Clone, Copy)]
pub struct Fitting {
    pub image: Image,
    pub number: Number,
    ghost fits: { Fit image number },
}

// A number cut to an image: its sign, its digits as half bytes, of which the image's n are the last, the first digit highest, and
// x + EXPONENT_LIMIT. It is made by cut, or read from a column.
#[derive(Clone, Copy)]
pub struct Cut {
    pub image: Image,
    pub negative: bool,
    pub halves: u64,
    pub x: usize,
    ghost made: { IsCut image negative halves x },
}
