// The files that runs read.
use run_cases::FileTable;

/// The table of the files.
pub(crate) const FILES: FileTable = FileTable {
    mark: "@",
    front: "HDR_SIZE 4096;NCHAN 2;NBIT 8;TSAMP 64;FREQ 1400;BW -200;",
    files: "
pulse    | @ | 10 0 0 20 0 0
later    | @ | 0 0 10 0 0 20
zeros    | @ | 0 0 0 0 0 0
ragged   | @ | 10 0 0 20 0 0 0 0 0
train    | @ | 10 0 0 20 10 0 0 20 10 0 0 20 10 0 0 20
empty    | @ |
at_four  | @OBS_OFFSET 4; | 10 0 0 20 0 0
other_time | @UTC_START 2024-01-02-03:04:05; | 10 0 0 20 0 0
slower   | HDR_SIZE 4096;NCHAN 2;NBIT 8;TSAMP 65;FREQ 1400;BW -200; | 10 0 0 20 0 0
rising   | HDR_SIZE 4096;NCHAN 2;NBIT 8;TSAMP 64;FREQ 1400;BW 200; | 0 10 20 0 0 0
wide     | HDR_SIZE 4096;NCHAN 2;NBIT 16;TSAMP 64;FREQ 1400;BW -200; | 10 0 0 0 0 0 20 0 0 0 0 0
two_pol  | @NPOL 2; | 5 5 0 0 0 0 10 10 0 0 0 0
no_nchan | HDR_SIZE 4096;NBIT 8;TSAMP 64;FREQ 1400;BW -200; | 10 0 0 20 0 0
no_number | HDR_SIZE 4096;NCHAN 2;NBIT 8;TSAMP 6.4e1;FREQ 1400;BW -200; | 10 0 0 20 0 0
negative | @OBS_OFFSET -1; | 10 0 0 20 0 0
short    | @ | | 4095
not_text | HDR_SIZE 4096;\u{7f}a\u{e9};
",
};
