// Layer 3: print lines and record files (document 01: Print lines, Record file).
#![tactic(auto)]

mod files;
mod lines;

pub use files::{
    CheckedFile, EntryRefusal, MAX_FILE, MAX_REPORT, RecordFile, Reservation, WholeLength, add,
    enter, list, report, report_length, reserve, show, whole_length, write_contents,
    write_reserved,
};
pub use lines::{Element, MAX_ELEMENTS, Printed, forecast, print, read_field, scan};
