// The files that runs read.
use run_cases::FileTable;

/// The table of the files.
pub(crate) const FILES: FileTable = FileTable {
    mark: "",
    front: "HDR_SIZE 4096;",
    files: "
pulse   | NCHAN 2;NBIT 8;TSAMP 64;FREQ 1400;BW -200;OBS_OFFSET 0; | 10 0 0 20 0 0
front   | NCHAN 2;NBIT 8;TSAMP 64;FREQ 1400;BW -200;OBS_OFFSET 0; | 10 0 0 20
back    | NCHAN 2;NBIT 8;TSAMP 64;FREQ 1400;BW -200;OBS_OFFSET 4; | 0 0
far     | NCHAN 2;NBIT 8;TSAMP 64;FREQ 1400;BW -200;OBS_OFFSET 12; | 0 0
next    | NCHAN 2;NBIT 8;TSAMP 64;FREQ 1400;BW -200;OBS_OFFSET 0; | 0 0
empty   | NCHAN 2;NBIT 8;TSAMP 64;FREQ 1400;BW -200;OBS_OFFSET 0;
rising  | NCHAN 2;NBIT 8;TSAMP 64;FREQ 1400;BW 200; | 0 10 20 0 0 0
loud    | NCHAN 2;NBIT 8;TSAMP 64;FREQ 1400;BW -200; | 10 0 255 20 0 0
ramp    | NCHAN 2;NBIT 8;TSAMP 64;FREQ 1400;BW -200; | 1 0 2 0 3 0 4 0
wide    | NCHAN 4096;NBIT 8;TSAMP 64;FREQ 1382;BW -400; | 4096*9 4096*0
climbing | NCHAN 4096;NBIT 8;TSAMP 64;FREQ 1382;BW 400; | 9 4095*1 4096*0
nothing |
short   | NCHAN 2; | | 100
",
};
