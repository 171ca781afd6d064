// The files that feeders are tried on.
use crate::lines::fields_of;
use psr_base::MemInputs;
use std::alloc::Global;
use std::test::Fail;

const HEAD: &str = "NCHAN 2\nNBIT 8\nTSAMP 64\nFREQ 1400\nBW -200\n";

// A file on each line: its name, a line of its own before those of all headers, the bytes of its header, which is
// filled up or cut off, and its data.
const FILES: &str = "
six | | 4096 | abcdef
four | | 4096 | abcd
none | | 4096
at_four | OBS_OFFSET 4 | 4096 | xy
at_twelve | OBS_OFFSET 12 | 4096 | xy
other | NCHAN 4 | 4096 | xy
long | HDR_SIZE 8192 | 8192 | uvw
short | | 100
";

/// A file with a line of its own before those of all headers, a header of `size` bytes, and data.
pub(crate) fn file_of(alloc: Global, line: &str, size: usize, data: &str) -> Result<Vec<u8>, Fail> {
    let mut bytes = Vec::from_slice(alloc, line.as_bytes())?;
    bytes.push(b'\n')?;
    bytes.extend_from_slice(HEAD.as_bytes())?;
    bytes.resize(size, 0)?;
    bytes.extend_from_slice(data.as_bytes())?;
    Ok(bytes)
}

fn put_file(alloc: Global, inputs: &mut MemInputs, file: &'static str) -> Result<(), Fail> {
    let [name, line, size, data, _] = fields_of(file);
    let bytes = file_of(alloc, line, size.parse::<usize>()?, data)?;
    Ok(inputs.put(name, bytes.as_slice())?)
}

/// Puts each file under its name.
pub(crate) fn put_files(alloc: Global, inputs: &mut MemInputs) -> Result<(), Fail> {
    for file in FILES.lines() {
        if !file.is_empty() {
            put_file(alloc, inputs, file)?;
        }
    }
    Ok(())
}

/// The names of a line, in order, with `+` between transfers.
pub(crate) fn names_of(alloc: Global, line: &str) -> Result<Vec<String>, Fail> {
    let mut list = Vec::new(alloc);
    for name in line.split_whitespace() {
        if name != "+" {
            list.push(String::from_str(alloc, name)?)?;
        }
    }
    Ok(list)
}
