// The files that runs read.
use run_cases::FileTable;

/// The table of the files.
pub(crate) const FILES: FileTable = FileTable {
    mark: "",
    front: "HDR_SIZE 4096;",
    files: "
pulse    | NCHAN 2;NBIT 8;TSAMP 64;FREQ 1400;BW -200; | 10 0 0 20 0 0
later    | NCHAN 2;NBIT 8;TSAMP 64;FREQ 1400;BW -200; | 8*0 10 0 0 20 0 0
ragged   | NCHAN 2;NBIT 8;TSAMP 64;FREQ 1400;BW -200; | 10 0 0 20 0
empty    | NCHAN 2;NBIT 8;TSAMP 64;FREQ 1400;BW -200;
front    | NCHAN 2;NBIT 8;TSAMP 64;FREQ 1400;BW -200;OBS_OFFSET 0; | 10 0 0 20
back     | NCHAN 2;NBIT 8;TSAMP 64;FREQ 1400;BW -200;OBS_OFFSET 4; | 0 0
far      | NCHAN 2;NBIT 8;TSAMP 64;FREQ 1400;BW -200;OBS_OFFSET 12; | 0 0
no_nchan | NBIT 8;TSAMP 64;FREQ 1400;BW -200; | 10 0 0 20 0 0
short    | | | 4095
at_0     | =CHECK 0 0;
at_1     | =CHECK 1 0;
at_2     | =CHECK 2 1;
at_3     | =CHECK 3 1;
at_5     | =CHECK 5 0;
at_6     | =CHECK 6 1;
at_8     | =CHECK 8 0;
at_4     | =CHECK 4 0;
zeros    | =CHECK 000000000000002 000000000000001;
most     | =CHECK 1 281474976710656;
furthest | =CHECK 281474976710656 0;
further  | =CHECK 281474976710657 0;
too_many | =CHECK 1 281474976710657;
no_count | =CHECK 2;
no_feed  | =CHECK 2 1
longer   | =CHECK 0000000000000002 1;
two      | =CHECK 2 1;CHECK 2 1;
spaces   | =CHECK  2 1;
line_64  | =CHECK 0000000000000000000000000000000000000000000000000000002 1;
line_65  | =CHECK 00000000000000000000000000000000000000000000000000000002 1;
nothing  | =
end      | =END 1 0 3;
",
};
