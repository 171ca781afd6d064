// One step of a schedule.

/// What a step does: it copies samples or adds two rows, an upper and a lower one, of 16 bits (narrow) or 32 (wide).
#[derive(Clone, Copy, PartialEq, Eq, Debug)]
pub enum Kind {
    /// Samples, in 16 bits.
    CopyNarrow,
    /// Samples, in 32 bits.
    CopyWide,
    /// Two narrow rows, in 16 bits.
    AddNarrow,
    /// Two narrow rows, in 32 bits.
    AddWidened,
    /// A wide row and a narrow one, in 32 bits.
    AddWideNarrow,
    /// A narrow row and a wide one, in 32 bits.
    AddNarrowWide,
    /// Two wide rows, in 32 bits.
    AddWide,
}

/// Which values a step reads and writes. All places are places of the whole lists, whose first values are not used.
#[derive(Clone, Copy, PartialEq, Eq, Debug)]
pub struct Step {
    pub kind: Kind,
    /// How many values of the row are kept.
    pub tail: u32,
    /// Where the slot of the row begins.
    pub out: usize,
    /// Where the values begin that are kept of the row.
    pub hold: usize,
    /// Where the values of the upper row begin that are added, or the samples that are copied.
    pub upper: usize,
    /// Where the values of the lower row begin that are added.
    pub lower: usize,
}
