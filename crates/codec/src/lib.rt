// Layer 2: contents, packed bodies and text (document 01: Packed bodies, Alpha text, the table of contents of Record file).
#![tactic(auto)]

mod alpha_text;
mod answers;
mod bodies;
mod columns;
mod contents;
mod cut;
mod halves;
mod lists;
mod ordering;
mod packing;
mod reading;
mod remainders;
mod text;
mod unpacking;
mod walking;
mod worths;

pub use alpha_text::{alpha, sign_byte, write_alpha};
pub use answers::written_part;
pub use bodies::ReadBody;
pub use columns::{column_size, sign_count};
pub use contents::Contents;
pub use lists::{Blank, FixedList, Images, MAX_COLUMNS, Numbers, Remainders};
pub use ordering::{least_run, ordered_run};
pub use packing::{check_list, pack, store_column};
pub use remainders::{Packed, pack_with_remainders};
pub use text::{NO_NUMBER, TextNumber, convert, legal_length, read_text_number};
pub use walking::{Stop, TextNumbers, Walker, next_number_place, read_text_numbers};
