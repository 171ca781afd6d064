// Observations for tests, and the lines of tables.
use dada_header::Header;
use obs_plan::Observation;
use std::alloc::Global;

/// Two channels, from 1500 down to 1300 MHz.
pub const TWO_CHANNELS: &str = "HDR_SIZE 4096
NCHAN 2
NBIT 8
NPOL 1
NDIM 1
TSAMP 64
FREQ 1400
BW -200
OBS_OFFSET 0
";

/// The observation of a header with these lines, or `None` if it is refused.
pub fn observation(alloc: Global, lines: &str) -> Option<Observation> {
    let mut bytes = Vec::from_slice(alloc, lines.as_bytes()).ok()?;
    bytes.resize(4096, 0).ok()?;
    let header = Header::read(alloc, bytes.as_slice()).ok()?;
    Observation::of(alloc, &header).ok()
}

/// The fields of a line of a table, with `|` between them. Missing ones are empty.
pub fn fields_of(line: &'static str) -> [&'static str; 3] {
    let mut fields = [""; 3];
    for (i, field) in line.split('|').enumerate() {
        if i < fields.len() {
            fields[i] = field.trim();
        }
    }
    fields
}
