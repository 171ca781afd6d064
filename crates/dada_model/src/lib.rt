//! What a header in the DADA form says: number texts, header fields, and the observation of a header.
//!
//! The definitions are in `specs/`: `Number`, `Fields`, `Change`, `Observation`, `Bounds`; laws about them are in
//! `Laws`, `FieldLaws` and `ChangeLaws`.
#![tactic(auto)]

mod change_laws;
mod header_laws;
mod key;
mod laws;
mod number;

pub use change_laws::{
    blank_keeps_length, change_gives_value, change_keeps_others, change_stays_in_place,
    changed_is_read_back, last_change_counts,
};
pub use header_laws::{
    blank_is_read_back, fields_by_lines, first_word_of_line, headers_are_read_back,
    headers_are_text, headers_by_front,
};
pub use key::Key;
pub use laws::{
    accepted_by_rows, accepted_is_in_range, bands_in_row, dispersion_fits, edges_are_quotients,
    edges_fall, numbers_are_spelled,
};
pub use number::whole_number;
