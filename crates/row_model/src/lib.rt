//! Rows of sums: what each row is made of, and how much of it is kept from one chunk of spectra to the next.
//!
//! A row has a value for each spectrum. It is made of the samples of a channel, or of two other rows, value by value.
#![tactic(auto)]

/// Two rows that are added value by value.
#[derive(Clone, Copy, PartialEq, Eq, Debug)]
pub struct Merge {
    /// The number of the upper row. Its values are taken `late` spectra earlier.
    pub upper: u32,
    /// The number of the lower row.
    pub lower: u32,
    /// The delay of the upper row, in spectra.
    pub late: u32,
}

/// What a row is made of.
#[derive(Clone, Copy, PartialEq, Eq, Debug)]
pub enum Source {
    /// The samples of a channel; channel 0 has the highest frequency.
    Channel(u32),
    /// The sums of two rows.
    Sum(Merge),
}

/// All rows, by number, and how much of each is kept from one chunk to the next.
#[derive(Drop)]
pub struct Rows {
    /// What each row is made of.
    pub sources: Vec<Source>,
    /// How many of the last values of each row are kept: a multiple of 16.
    pub tails: Vec<u32>,
}
