// Print lines (document 01: Print lines).
mod fields;
mod line_fields;
mod marks;
mod printing;
mod scanning;

pub use fields::{Element, read_field};
pub use printing::{MAX_ELEMENTS, Printed, forecast, print};
pub use scanning::scan;
