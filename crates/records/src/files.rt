// Record files (document 01: Record file).
mod checked_file;
mod entering;
mod listing;
mod record_file;
mod reserving;
mod whole;
mod writing;

pub use checked_file::CheckedFile;
pub use entering::{EntryRefusal, enter};
pub use listing::{MAX_FILE, MAX_REPORT, list, report, report_length};
pub use record_file::{RecordFile, add, show, write_contents};
pub use reserving::{Reservation, reserve, write_reserved};
pub use whole::{WholeLength, whole_length};
