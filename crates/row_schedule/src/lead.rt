// Values in front of the rows that are not used.

/// How many unused values of 32 bits stand in front of all rows, and in front of what is kept of them. The C library
/// mostly lets a large allocation begin 16 bytes after the start of a page. With 48 bytes more the first row begins at
/// a multiple of 64 bytes, where loops over whole vectors are faster. This is tuning; no proof depends on it.
pub const LEAD: usize = 12;

/// How many unused values of 16 bits stand in front of the rows of 16 bits, to align them in the same way as `LEAD`
/// does.
pub const NARROW_LEAD: usize = 24;
