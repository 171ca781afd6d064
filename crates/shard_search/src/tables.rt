// The number of spectra over which the rows of all nodes are made.

/// The maximum number of spectra over which the rows of all nodes are made at the end. Over a chunk they would need
/// much memory. This is tuning; no clause asks for this number.
pub const MOST_TABLES: u32 = 16;
