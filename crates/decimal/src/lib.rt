// Layer 1: decimal numbers and # images (document 01: Numbers, Images). An upper layer uses the names below and what they promise.
#![tactic(auto)]

mod any_power;
mod comparison;
mod cut;
mod digits;
mod image;
pub mod machine;
mod number;
mod powers;
mod refusal;
mod remainder;
mod truncation;

pub use any_power::power_of_ten;
pub use comparison::compare;
pub use cut::{Cut, Fitting};
pub use digits::PRECISION;
pub use image::{CheckedImage, Image, Sign, leading_run, read_image};
pub use number::{EXPONENT_LIMIT, Number, SCALE};
pub use refusal::{Reason, Refusal};
pub use remainder::{Remainder, remainder_of};
pub use truncation::{cut_number, truncated};
