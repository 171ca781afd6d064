// The files that runs read, and those that they write.
use psr_base::MemInputs;
use run_cases::{fields_of, push_lines};
use std::alloc::Global;
use std::test::Fail;

// A file on each line: its name; the lines of its header, each ended by `;`; the form of its values, which is one byte,
// `low` or `high` (two bytes, of which that one comes first), `full` (one byte, and a header filled up with a comment)
// or `short` (a header that lacks a byte); and its values, spectrum by spectrum, where 3*20 is 20 three times. What is
// written of a file was computed from the definition alone, by companions/tests/level_reference.py.
const FILES: &str = "
drift | NCHAN 4;NBIT 8;TSAMP 64;FREQ 1400;BW -200; | | 23 44 90 141 18 41 85 133 20 42 93 139 20 43 82 156 21 51 91 \
    148 22 46 95 146 20 49 93 152 18 48 90 159 20 51 90 152 21 46 88 144 24 50 123 157 19 46 125 145 21 48 118 165 23 \
    49 113 149 21 54 122 138 21 58 118 133 18 58 111 149 18 57 119 150 23 59 127 148 19 60 106 150
drift.out | NCHAN 4;NBIT 8;TSAMP 64;FREQ 1400;BW -200; | | 77 60 64 58 53 53 54 51 63 55 70 56 63 58 49 73 67 78 66 65 \
    73 65 74 64 63 72 70 69 53 71 65 76 56 65 51 67 63 55 50 61 80 63 70 71 51 55 71 62 62 60 68 78 74 61 64 65 63 72 \
    70 56 62 80 68 51 46 81 63 65 45 78 68 66 74 83 72 64 51 85 61 66
first | NCHAN 4;NBIT 8;TSAMP 64;FREQ 1400;BW -200; | | 23 44 90 141 18 41 85 133 20 42 93 139 20 43 82 156 21 51 91 \
    148 22 46 95 146 20 49 93 152 18 48 90 159 20 51 90 152 21 46 88 144 24 50 123
next | NCHAN 4;NBIT 8;TSAMP 64;FREQ 1400;BW -200;OBS_OFFSET 43; | | 157 19 46 125 145 21 48 118 165 23 49 113 149 21 \
    54 122 138 21 58 118 133 18 58 111 149 18 57 119 150 23 59 127 148 19 60 106 150
front | NCHAN 4;NBIT 8;TSAMP 64;FREQ 1400;BW -200; | | 65576*20
gap | NCHAN 4;NBIT 8;TSAMP 64;FREQ 1400;BW -200;OBS_OFFSET 65580; | | 19 46 125 145 21 48 118 165
other | NCHAN 4;NBIT 8;TSAMP 64;FREQ 1400;BW 200;OBS_OFFSET 65576; | | 19 46 125 145 21 48 118 165
stop.out | NCHAN 4;NBIT 8;TSAMP 64;FREQ 1400;BW -200; | | 60000*64
front.out | NCHAN 4;NBIT 8;TSAMP 64;FREQ 1400;BW -200; | | 65576*64
one | NCHAN 4;NBIT 8;TSAMP 64;FREQ 1400;BW -200; | | 20 40 90 150 21 41 91
one.out | NCHAN 4;NBIT 8;TSAMP 64;FREQ 1400;BW -200; | | 4*64
none | NCHAN 4;NBIT 8;TSAMP 64;FREQ 1400;BW -200;
burst | NCHAN 2;NBIT 8;TSAMP 64;FREQ 1400;BW -200; | | 37 95 31 101 33 89 29 94 27 93 250 251 27 103 28 74 34 97 28 \
    102 31 100 27 102 25 112 26 98 30 102 29 104 19 98 29 95 34 91 29 83 30 86 25 118 32 99 30 87 26 102 23 101
burst.out | NCHAN 2;NBIT 8;TSAMP 64;FREQ 1400;BW -200; | | 81 62 68 68 73 57 63 62 60 61 255 199 60 69 61 45 75 64 61 \
    69 68 67 60 68 55 78 57 65 66 69 63 70 42 65 64 63 74 59 64 52 66 54 55 83 70 66 66 56 57 68 51 68
bad | NCHAN 4;NBIT 8;TSAMP 64;FREQ 1400;BW 200; | | 50 7 0 86 49 7 255 81 50 7 0 80 52 7 255 77 45 7 0 79 49 7 255 72 \
    50 7 0 75 48 7 255 67 44 7 0 85 51 7 255 83 54 7 0 76 46 7 255 86 43 7 0 67 58 7 255 77
bad.out | NCHAN 4;NBIT 8;TSAMP 64;FREQ 1400;BW 200; | | 67 64 56 77 63 64 71 67 67 64 56 66 76 64 72 60 47 64 56 63 63 \
    64 72 50 67 64 56 60 62 64 72 50 52 64 56 72 70 64 72 69 77 64 56 61 56 64 72 72 50 64 56 50 87 64 72 62
masked.out | NCHAN 4;NBIT 8;TSAMP 64;FREQ 1400;BW 200; | | 67 64 64 77 63 64 64 67 67 64 64 66 76 64 64 60 47 64 64 63 \
    63 64 64 50 67 64 64 60 62 64 64 50 52 64 64 72 70 64 64 69 77 64 64 61 56 64 64 72 50 64 64 50 87 64 64 62
two.out | NCHAN 4;NBIT 8;TSAMP 64;FREQ 1400;BW 200; | | 20 20 17 3*20 22 3*20 17 20 21 21 22 21 20 20 17 3*20 22 20 21 \
    21 18 21 20 20 22 3*20 17 20 21 21 22 21 20 20 17 3*20 22 20 21 21 18 21 20 20 22 20
signed | NCHAN 2;NBIT 16;NPOL 2;TSAMP 64;FREQ 1400;BW -200; | low | -298 242 4 20317 -263 237 10 19203 -297 137 3 \
    19835 -291 238 7 22010 -265 56 6 19439 -321 318 4 18244 -288 174 1 19171 -325 198 4 20064 -227 128 3 19776 -256 \
    136 9 18823 -341 195 2 19443 -282 265 5 19753 -246 236 4 21093 -336 215 7 19990
turned | NCHAN 2;NBIT 16;NPOL 2;TSAMP 64;FREQ 1400;BW -200; | high | -298 242 4 20317 -263 237 10 19203 -297 137 3 \
    19835 -291 238 7 22010 -265 56 6 19439 -321 318 4 18244 -288 174 1 19171 -325 198 4 20064 -227 128 3 19776 -256 \
    136 9 18823 -341 195 2 19443 -282 265 5 19753 -246 236 4 21093 -336 215 7 19990
signed.out | NCHAN 2;NBIT 16;NPOL 2;TSAMP 64;FREQ 1400;BW -200; | low | 950 1040 958 1007 1064 1037 1083 952 954 970 \
    938 984 974 1037 1021 1093 1057 916 1000 963 951 1092 996 926 993 988 938 997 945 1005 996 1065 1075 955 977 1043 \
    1036 959 1092 969 924 1004 958 1018 1002 1054 1016 1041 1050 1033 996 1144 930 1018 1054 1059
flat.out | NCHAN 2;NBIT 16;NPOL 2;TSAMP 64;FREQ 1400;BW -200; | low | 1000 1000 976 1024 1000 1000 1066 934 1000 1000 \
    977 1023 6*1000 1019 981 1000 1000 1035 965 1000 1000 971 1029 1000 1000 966 1034 1000 1000 967 1033 1000 1000 \
    1062 938 1000 1000 970 1030 1000 1000 988 1012 8*1000
averaged | NCHAN 2;NBIT 16;NPOL 2;TSAMP 64;FREQ 1400;BW -200; | low | 253 97 7 17935 294 0 8 20183 354 155 6 19743 270 \
    213 1 19681 328 205 4 21971 302 147 5 19529 285 168 11 20020 307 261 11 19799 275 423 1 19670 327 406 2 17815 326 \
    153 4 20415 309 226 4 21160 360 203 4 20660 319 106 4 20944 296 170 6 19970 300 26 10 20179 265 288 6 20016 342 \
    403 7 21427 386 108 3 20699 232 176 9 20939 323 29 12 20496 331 245 0 18709 251 373 3 19782 290 251 7 20241 250 0 \
    5 20241 349 191 3 20369 238 106 2 20259
averaged.out | NCHAN 2;NBIT 16;NPOL 2;        ;FREQ 1400;BW -200;TSAMP 256.000; | low | 930 942 1004 943 1021 993 1060 \
    1064 1049 1065 935 993 1066 930 1017 1012 990 1044 1067 1054 943 1025 916 934
fast.out | NCHAN 2;NBIT 8 ;NPOL 2;        ;FREQ 1400;BW -200;TSAMP 256.000; | | 10 10 14 10 15 14 17 18 17 18 10 14 17 \
    10 15 14 14 16 18 17 11 15 9 11
counts | NCHAN 4;NBIT 16;TSAMP 0064.125 # us;FREQ 1400;BW -200;OBS_OFFSET 1536;BYTES_PER_SECOND 124756 # in \
    all;FILE_SIZE 0000000000524288;OBS_SIZE 8191;TRANSFER_SIZE none;RESOLUTION 8; | low | 1 2 3 4 1 2 3 4
counts.out | NCHAN 4;NBIT 8 ;TSAMP 128.250  # us;FREQ 1400;BW -200;OBS_OFFSET 384 ;BYTES_PER_SECOND 31189  # in \
    all;FILE_SIZE 131072          ;OBS_SIZE 2047;TRANSFER_SIZE none;RESOLUTION 8; | | 4*14
flash | NCHAN 4;NBIT 8;TSAMP 64;FREQ 1400;BW -200; | | 63 33 83 30 69 40 75 31 53 45 88 35 59 36 77 29 63 45 92 28 63 \
    34 95 28 69 44 93 27 75 49 103 34 68 38 94 34 51 47 99 28 54 35 98 22 66 41 84 28 58 39 98 27 67 44 88 32 57 40 94 \
    36 60 39 90 29 54 48 84 28 56 43 117 39
clip.out | NCHAN 4;NBIT 8;TSAMP 64;FREQ 1400;BW -200; | | 65 64 56 63 74 64 50 65 54 64 61 74 61 64 51 61 66 64 65 60 \
    66 64 66 59 73 64 65 58 4*64 72 64 66 72 51 64 70 59 4*64 70 64 57 60 60 64 70 57 71 64 60 67 58 64 66 76 62 64 63 \
    61 55 64 57 60 4*64
zero.out | NCHAN 4;NBIT 8;TSAMP 64;FREQ 1400;BW -200; | | 68 64 59 65 75 64 51 66 55 64 62 75 68 64 57 67 67 64 65 60 \
    67 64 66 59 72 64 64 56 70 64 63 59 66 64 60 66 55 64 74 63 62 64 76 54 72 64 59 61 62 64 72 58 69 64 58 65 56 64 \
    63 73 64 64 65 63 62 64 64 66 47 64 75 70
both.out | NCHAN 4;NBIT 8;TSAMP 64;FREQ 1400;BW -200; | | 68 64 59 65 75 64 51 66 55 64 62 75 68 64 57 67 67 64 65 60 \
    67 64 66 59 72 64 64 56 4*64 66 64 60 66 55 64 74 63 4*64 72 64 59 61 62 64 72 58 69 64 58 65 56 64 63 73 64 64 65 \
    63 62 64 64 66 4*64
low.out | NCHAN 4;NBIT 8;TSAMP 64;FREQ 1400;BW -200; | | 16 4 6 12 20 7 0 11 0 16 5 18 13 6 7 12 11 16 8 3 15 2 15 6 \
    18 12 9 0 3*10 8 16 0 8 14 0 19 16 3 6 6 20 5 18 11 4 5 8 8 18 4 14 11 3 10 3 6 10 19 10 8 11 9 3 20 5 7 0 9 16 15
nine.out | NCHAN 4;NBIT 8;TSAMP 64;FREQ 1400;BW -200; | | 72*9
split.out | NCHAN 4;NBIT 8;TSAMP 64;FREQ 1400;BW -200; | | 10 9 10 9 10 9 10 9 10 9 10 9 10 9 10 9 10 9 10 9 10 9 10 9 \
    10 9 10 9 10 9 10 9 10 9 10 9 10 9 10 9 10 9 10 9 10 9 10 9 10 9 10 9 10 9 10 9 10 9 10 9 10 9 10 9 10 9 10 9 10 9 \
    10 9
short | | short
no_nchan | NBIT 8;TSAMP 64;FREQ 1400;BW -200; | | 63 33 83 30 69 40 75 31
long | NCHAN 4;NBIT 8;TSAMP 999999.999;FREQ 1400;BW -200; | | 20 40 90 150
full | NCHAN 4;NBIT 8;TSAMP 64;FREQ 1400;BW -200; | full | 20 40 90 150
pair.out | NCHAN 4;NBIT 8;        ;FREQ 1400;BW -200;TSAMP 128.000;
long.out | NCHAN 4;NBIT 8;TSAMP 999999.999;FREQ 1400;BW -200; | | 4*64
";

// Appends so many values of two bytes.
fn push_pairs(bytes: &mut Vec<u8>, first: u8, second: u8, count: u32) -> Result<(), Fail> {
    for _ in 0..count {
        bytes.push(first)?;
        bytes.push(second)?;
    }
    Ok(())
}

// Appends a value so many times, in a form.
fn push_value(bytes: &mut Vec<u8>, form: &str, value: i32, count: u32) -> Result<(), Fail> {
    let [low, high, _, _] = value.to_le_bytes();
    match form {
        "low" => push_pairs(bytes, low, high, count),
        "high" => push_pairs(bytes, high, low, count),
        _ => Ok(bytes.resize(bytes.len().saturating_add(count as usize), low)?),
    }
}

// Appends values, as `10 0 9*0`.
fn push_values(bytes: &mut Vec<u8>, form: &str, values: &str) -> Result<(), Fail> {
    for word in values.split_whitespace() {
        let (count, value) = word.split_once('*').unwrap_or(("1", word));
        push_value(bytes, form, value.parse::<i32>()?, count.parse::<u32>()?)?;
    }
    Ok(())
}

/// The header of the file of a line, and with other lines at its end.
pub(crate) fn header_of(alloc: Global, line: &'static str, more: &str) -> Result<Vec<u8>, Fail> {
    let [_, lines, form, ..] = fields_of(line);
    let mut bytes = Vec::new(alloc);
    push_lines(&mut bytes, "HDR_SIZE 4096;")?;
    push_lines(&mut bytes, lines)?;
    push_lines(&mut bytes, more)?;
    match form {
        "full" => {
            bytes.resize(4090, b'#')?;
            bytes.resize(4096, 0)?;
        }
        "short" => bytes.resize(4095, 0)?,
        _ => bytes.resize(4096, 0)?,
    }
    Ok(bytes)
}

// The bytes of the file of a line.
fn bytes_in(alloc: Global, line: &'static str) -> Result<Vec<u8>, Fail> {
    let [_, _, form, values, ..] = fields_of(line);
    let mut bytes = header_of(alloc, line, "")?;
    push_values(&mut bytes, form, values)?;
    Ok(bytes)
}

/// The line of the file of a name, where there is one.
pub(crate) fn line_of(name: &str) -> Option<&'static str> {
    for line in FILES.lines() {
        let [first, ..] = fields_of(line);
        if first == name && !name.is_empty() {
            return Some(line);
        }
    }
    None
}

/// The bytes of the file of a name; none if there is no such file.
pub(crate) fn bytes_of(alloc: Global, name: &str) -> Result<Vec<u8>, Fail> {
    match line_of(name) {
        Some(line) => bytes_in(alloc, line),
        None => Ok(Vec::new(alloc)),
    }
}

/// Inputs that hold the files that the words name, and of whose calls the one with this number fails.
pub(crate) fn inputs_for(alloc: Global, words: &str, failing: u64) -> Result<MemInputs, Fail> {
    let mut inputs = MemInputs::open(alloc, &[failing])?;
    for word in words.split_whitespace() {
        if let Some(line) = line_of(word) {
            let bytes = bytes_in(alloc, line)?;
            inputs.put(word, bytes.as_slice())?;
        }
    }
    Ok(inputs)
}
