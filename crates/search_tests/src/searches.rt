// Searches.
use crate::cases::Table;
use crate::running::Program::Search;

const WORDS: Table = Table {
    program: Search,
    words: "",
    runs: "
 | | 2 | | words refused; | | calls 0, blocks 0
--mean 1 --sd 2 | | 2 | | words refused; | | calls 0
--sd 2 pulse | | 2 | | words refused; | | calls 0
--mean -1 --sd 2 pulse | | 2 | | words refused; | | calls 0
--mean 1 --sd 2 --snr 0 --help pulse | | 2 | | words refused;
--mean 1 --sd 2 --snr 7 --snr 7 pulse | | 2 | | words refused;
--mean 1 --sd 2 --snr 0 pulse | | 2 | | option --snr refused; | | calls 0, blocks 0
--mean 1 --sd 2 --record --snr 0 pulse | | 2 | | option --snr refused;
--mean=-1 --sd 2 --snr 0 pulse | | 2 | | option --snr refused;
--mean=-1 --sd 2 pulse | | 2 | | option --mean refused;
--mean 1 --sd 2 --max-delay 4 --min-delay 5 pulse | | 2 | | option --min-delay refused;
--mean 1 --sd 2 --max-candidates 1048577 pulse | | 2 | | option --max-candidates refused;
--mean 1 --sd 2 pulse + | | 2 | | option FILE refused; | | calls 0, blocks 0
--mean 1 --sd 2 --snr 0 pulse | note 0 | 2 | | | | calls 0
--mean 1 --sd 2 --snr 0 pulse | note_room 20 | 2 | | | | calls 0
",
};

// With defaults for what is left out.
const DEFAULTS: Table = Table {
    program: Search,
    words: "--mean 1 --sd 2",
    runs: "
empty | | 0 | END 0 0 0; | | | calls 3, blocks 1
many --max-delay 8192 --fold-max 2 --fold-rows 12 --fold-step 8192 | | 4 | | plan refused: SumBound 255 12288 4096;
heavy --max-delay 512 --widths 32 | | 4 | | plan refused: SumBound 131070 1536 32; | | calls 2, blocks 0
heavy --max-delay 512 --widths 16 | | 0 | END 0 0 0;
pulse --max-delay 0 --fold-max 1048576 --fold-rows 3 | | 4 | | plan refused: FoldTooLarge 1048576 3;
pulse --max-delay 64 --fold-max 2 --fold-step 1 | | 4 | | plan refused: TooManyFolds 65; | | calls 2
pulse --max-delay 64 --fold-max 2 --fold-step 1 | note 0 | 4
pulse --snr 7 --widths 1 --max-delay 8 --chunk 1 --size 2 | | 0 | PULSE 1 1 0.104 1 30 3;END 1 0 3; | | | blocks 4
",
};

// Searches of one transfer.
const PULSES: Table = Table {
    program: Search,
    words: "--mean 1 --sd 2 --snr 7 --max-delay 1 --widths 1 --size 512",
    runs: "
pulse | | 0 | PULSE 1 1 0.104 1 30 3;END 1 0 3; | | | calls 4, blocks 1, recorder none
pulse --min-delay 1 | | 0 | PULSE 1 1 0.104 1 30 3;END 1 0 3;
pulse --min-delay 5 | | 2 | | option --min-delay refused; | | calls 0
pulse --shards 3 | | 4 | | plan refused: TooManyShards 3 2; | | calls 2, blocks 0
pulse --max-bytes 6 | | 0 | PULSE 1 1 0.104 1 30 3;END 1 0 3;
pulse --max-bytes 5 | | 8 | | more than 5 bytes; | | blocks 1
pulse --max-bytes 5 | note 0 | 8
pulse --max-candidates 0 | | 9 | | 1 candidates, limit 0; | | blocks 1
pulse --max-candidates 0 | note 0 | 9
ragged | | 0 | PULSE 1 1 0.104 1 30 3;END 1 0 2;
empty | | 0 | END 0 0 0;
rising | | 0 | PULSE 1 1 0.104 1 30 3;END 1 0 3;
two_bytes | | 0 | PULSE 1 1 0.104 1 30 3;END 1 0 3;
high_byte | | 0 | PULSE 0 0 0.000 1 257 2;END 1 0 1;
two_values | | 0 | PULSE 1 1 0.104 1 30 3;END 1 0 3;
all_at_once | | 0 | PULSE 1 1 0.104 1 30 3;END 1 0 3;
decimals | | 0 | PULSE 1 1 0.104 1 30 3;END 1 0 3;
long | | 0 | PULSE 1 1 0.104 1 30 3;END 1 0 3;
short | | 3 | | header of file 0 refused: Short 4095; | | calls 3, blocks 0
short | note 0 | 3 | | | | blocks 0
long_cut | | 3 | | header of file 0 refused: Short 8191;
small | | 3 | | header of file 0 refused: BadSize;
not_text | | 3 | | header of file 0 refused: NotText 16;
nothing | | 3 | | header of file 0 refused: Missing NCHAN; | | calls 2
no_nchan | | 3 | | header of file 0 refused: Missing NCHAN;
nchan_4097 | | 3 | | header of file 0 refused: OutOfRange NCHAN;
nbit_4 | | 3 | | header of file 0 refused: OutOfProfile NBIT;
npol_3 | | 3 | | header of file 0 refused: OutOfProfile NPOL;
ndim_2 | | 3 | | header of file 0 refused: OutOfProfile NDIM;
no_number | | 3 | | header of file 0 refused: BadNumber TSAMP;
low_freq | | 3 | | header of file 0 refused: OutOfRange FREQ;
no_band | | 3 | | header of file 0 refused: OutOfRange BW;
negative | | 3 | | header of file 0 refused: OutOfRange OBS_OFFSET;
narrow | | 3 | | header of file 0 refused: TooNarrow 1999 2;
pulse | input 0 | 6 | | read fault; | | blocks 0
pulse | input 1 | 6 | | read fault; | | blocks 0
pulse | input 2 | 6 | | read fault; | | blocks 1
pulse | input 3 | 6 | | read fault; | | blocks 1
pulse | input 3, note 0 | 6 | | | | blocks 1
pulse | input 4 | 0 | PULSE 1 1 0.104 1 30 3;END 1 0 3;
missing | | 6 | | read fault; | | calls 1, blocks 0
pulse | out 0 | 10 | | sink fault; | | blocks 1
pulse | out_room 10 | 10 | | sink fault;
pulse | out_room 32 | 10 | | sink fault;
pulse | out_room 33 | 0 | PULSE 1 1 0.104 1 30 3;END 1 0 3;
pulse | out_room 10, note 0 | 10 | |
front back | | 0 | PULSE 1 1 0.104 1 30 3;END 1 0 3; | | | blocks 1
front back --max-bytes 5 | | 8 | | more than 5 bytes;
front far | | 7 | | file 1 has OBS_OFFSET 12 where 4 was expected; | | blocks 1
front far | note 0 | 7
front slower | | 3 | | header of file 1 refused: Differs TSAMP; | | blocks 1
front wider | | 3 | | header of file 1 refused: Differs NCHAN;
front nothing | | 3 | | header of file 1 refused: Differs NCHAN;
front shorter | | 3 | | header of file 1 refused: Short 100; | | blocks 1
pulse shorter | | 3 | | header of file 1 refused: Short 100;
pulse missing | | 6 | | read fault; | | blocks 1
at_two | | 0 | PULSE 1 1 0.104 1 30 3;END 1 0 3;
",
};

// Blocks, hands and shards change no text. With `--turns 1` the first round has 16 turns, and the file `later` has 41
// blocks.
const BLOCKS: Table = Table {
    program: Search,
    words: "--mean 1 --sd 2 --snr 7 --max-delay 1 --widths 1",
    runs: "
pulse | | 0 | PULSE 1 1 0.104 1 30 3;END 1 0 3; | | | calls 4, blocks 1
pulse --size 6 | | 0 | PULSE 1 1 0.104 1 30 3;END 1 0 3; | | | calls 4, blocks 2
pulse --size 1 | | 0 | PULSE 1 1 0.104 1 30 3;END 1 0 3; | | | calls 9, blocks 7
pulse --size 3 | | 0 | PULSE 1 1 0.104 1 30 3;END 1 0 3; | | | calls 5, blocks 3
pulse --size 5 --buffers 2 --hands 3 | | 0 | PULSE 1 1 0.104 1 30 3;END 1 0 3; | | | blocks 2
pulse --size 1 --buffers 2 --hands 9 --turns 1 | | 0 | PULSE 1 1 0.104 1 30 3;END 1 0 3; | | | blocks 7
pulse --size 2 --shards 2 --hands 3 --turns 2 | | 0 | PULSE 1 1 0.104 1 30 3;END 1 0 3; | | | blocks 4
pulse --size 4 --shards 2 --hands 2 --chunk 1 | | 0 | PULSE 1 1 0.104 1 30 3;END 1 0 3; | | | blocks 2
later --size 1 --turns 1 | | 0 | PULSE 19 1 0.104 1 30 3;END 1 0 20; | | | blocks 41
later --size 1 --buffers 2 --shards 2 --hands 3 --turns 1 | | 0 | PULSE 19 1 0.104 1 30 3;END 1 0 20; | | | blocks 41
pulse shorter --size 2 | | 3 | | header of file 1 refused: Short 100; | | blocks 4
front back + next --size 1 --buffers 2 --hands 9 --turns 1 | | 0 \
    | OBS 0;PULSE 1 1 0.104 1 30 3;END 1 0 3;OBS 1;END 0 0 1; | | | blocks 10
front back + next --size 4 --shards 2 --hands 2 --chunk 1 | | 0 \
    | OBS 0;PULSE 1 1 0.104 1 30 3;END 1 0 3;OBS 1;END 0 0 1; | | | blocks 3
",
};

// Boxes of two widths.
const BOXES: Table = Table {
    program: Search,
    words: "--mean 1 --sd 2 --snr 7 --max-delay 1 --widths 2 --size 512",
    runs: "
pulse | | 0 | PULSE 1 1 0.104 1 30 3;PULSE 2 1 0.104 2 50 6;END 2 0 3;
pulse --chunk 1 | | 0 | PULSE 1 1 0.104 1 30 3;PULSE 2 1 0.104 2 50 6;END 2 0 3;
pulse --chunk 333 --shards 2 | | 0 \
    | PULSE 1 1 0.104 1 30 3;PULSE 2 1 0.104 2 50 6;END 2 0 3;
pulse --max-candidates 2 | | 0 | PULSE 1 1 0.104 1 30 3;PULSE 2 1 0.104 2 50 6;END 2 0 3;
pulse --max-candidates 1 | | 9 | | 2 candidates, limit 1;
pulse --max-candidates 1 --shards 2 | | 9 | | 2 candidates, limit 1;
pulse --max-candidates 0 | | 9 | | 2 candidates, limit 0;
",
};

// Data up to the limit.
const LONG: Table = Table {
    program: Search,
    words: "--mean 1 --sd 2 --snr 7 --max-delay 0 --widths 1 --max-bytes 1000000",
    runs: "
quiet_8191 | | 0 | END 0 0 1;
quiet_8192 | | 0 | END 0 0 2;
quiet_65536 | | 0 | END 0 0 16;
quiet_65537 | | 0 | END 0 0 16;
quiet_1e6 | | 0 | END 0 0 244; | | | blocks 2
loud_1e6 | | 8 | | more than 1000000 bytes; | | blocks 2
",
};

const FOLDS: Table = Table {
    program: Search,
    words: "--mean 0 --sd 1 --snr 2 --max-delay 0 --widths 1 --fold-max 2 --fold-rows 1",
    runs: "
ramp | | 0 | PULSE 2 0 0.000 1 3 2;PULSE 3 0 0.000 1 4 2;\
    FOLD 0 0.000 2 2 0 0 4 4;FOLD 0 0.000 2 2 0 1 6 4;\
    FOLD 0 0.000 2 2 1 0 5 4;FOLD 0 0.000 2 2 1 1 5 4;END 2 4 4;
shorter_ramp | | 0 | PULSE 2 0 0.000 1 3 2;END 1 0 3;
",
};

// Searches of several transfers: all first headers are read, and the text of each is judged before what any of them
// says.
const TRANSFERS: Table = Table {
    program: Search,
    words: "--mean 1 --sd 2 --snr 7 --max-delay 1 --widths 1 --size 512",
    runs: "
pulse + next | | 0 | OBS 0;PULSE 1 1 0.104 1 30 3;END 1 0 3;OBS 1;END 0 0 1; | | | blocks 2
front back + next | | 0 | OBS 0;PULSE 1 1 0.104 1 30 3;END 1 0 3;OBS 1;END 0 0 1; | | | blocks 2
pulse + next --max-bytes 7 | | 8 | | more than 7 bytes; | | blocks 2
pulse + next --max-bytes 8 | | 0 | OBS 0;PULSE 1 1 0.104 1 30 3;END 1 0 3;OBS 1;END 0 0 1;
pulse + next pulse | | 7 | | file 2 has OBS_OFFSET 0 where 2 was expected; | | blocks 2
pulse + shorter | | 3 | | header of file 1 refused: Short 100; | | calls 5, blocks 0
pulse + shorter | input 5 | 3 | | header of file 1 refused: Short 100;
pulse + shorter | input 4 | 6 | | read fault; | | blocks 0
nothing + shorter | | 3 | | header of file 1 refused: Short 100; | | calls 5, blocks 0
nothing + pulse | | 3 | | header of file 0 refused: Missing NCHAN; | | calls 4, blocks 0
pulse back + nothing | | 3 | | header of file 2 refused: Missing NCHAN; | | calls 4, blocks 0
pulse + missing | | 6 | | read fault; | | calls 3, blocks 0
pulse + shorter --record | | 3 | | header of file 1 refused: Short 100; | | calls 5, blocks 0
pulse + shorter --shards 3 | | 3 | | header of file 1 refused: Short 100; | | calls 5, blocks 0
pulse + next --shards 3 | | 4 | | plan refused: TooManyShards 3 2; | | calls 4, blocks 0
pulse + no_time --record | | 4 | | plan refused: NoUtc; | | calls 4, blocks 0
pulse + no_time --record --shards 3 | | 4 | | plan refused: TooManyShards 3 2; | | calls 4, blocks 0
pulse + next | input 0 | 6 | | read fault; | | blocks 0
pulse + next | input 3 | 6 | | read fault; | | blocks 0
pulse + next | out 0 | 10 | | sink fault; | | blocks 2
",
};

// Searches during which files are recorded.
const RECORDED: Table = Table {
    program: Search,
    words: "--mean 1 --sd 2 --snr 7 --max-delay 1 --record --file-size 4 --max-bytes 1000 --size 512",
    runs: "
pulse --widths 1 | | 0 | PULSE 1 1 0.104 1 30 3;END 1 0 3; | | first 10 0 0 20, second 0 0 \
    | calls 4, blocks 1, recorder whole 2
ragged --widths 1 | | 0 | PULSE 1 1 0.104 1 30 3;END 1 0 2; | | first 10 0 0 20, second 0
empty --widths 1 | | 0 | END 0 0 0; | | first
pulse --widths 1 --max-candidates 0 | | 9 | | 1 candidates, limit 0; | first 10 0 0 20, second 0 0 \
    | recorder whole 2
pulse --widths 2 --max-candidates 1 | file 0 | 9 | | 2 candidates, limit 1; | | blocks 1, recorder fault
pulse --widths 1 | input 0 | 6 | | read fault;
pulse --widths 1 | input 1 | 6 | | read fault; | | recorder none
pulse --widths 1 | out 0 | 10 | | sink fault; | first 10 0 0 20, second 0 0
pulse --widths 1 | out_room 10 | 10 | | sink fault; | first 10 0 0 20, second 0 0
pulse --widths 1 | file 0, out 0 | 10 | | sink fault; | | recorder fault
pulse --widths 1 | file 0 | 11 | PULSE 1 1 0.104 1 30 3;END 1 0 3; | record fault; | | recorder fault
pulse --widths 1 | file 0, note 0 | 11 | PULSE 1 1 0.104 1 30 3;END 1 0 3;
pulse --widths 1 | file 1 | 11 | PULSE 1 1 0.104 1 30 3;END 1 0 3; | record fault; | first -
pulse --widths 1 | file 2 | 11 | PULSE 1 1 0.104 1 30 3;END 1 0 3; | record fault; | first
pulse --widths 1 | file 3 | 11 | PULSE 1 1 0.104 1 30 3;END 1 0 3; | record fault; | first 10 0 0 20
pulse --widths 1 | file 4 | 11 | PULSE 1 1 0.104 1 30 3;END 1 0 3; | record fault; | first 10 0 0 20
pulse --widths 1 | file 5 | 11 | PULSE 1 1 0.104 1 30 3;END 1 0 3; | record fault; | first 10 0 0 20, second -
pulse --widths 1 | file 6 | 11 | PULSE 1 1 0.104 1 30 3;END 1 0 3; | record fault; | first 10 0 0 20, second
pulse --widths 1 | file 7 | 11 | PULSE 1 1 0.104 1 30 3;END 1 0 3; | record fault; | first 10 0 0 20, second 0 0
pulse --widths 1 | file 8 | 0 | PULSE 1 1 0.104 1 30 3;END 1 0 3; | | first 10 0 0 20, second 0 0
pulse --widths 1 | files 0 | 11 | PULSE 1 1 0.104 1 30 3;END 1 0 3; | record fault;
pulse --widths 1 | files 1 | 11 | PULSE 1 1 0.104 1 30 3;END 1 0 3; | record fault; | first 10 0 0 20
pulse --widths 1 | file_room 4095 | 11 | PULSE 1 1 0.104 1 30 3;END 1 0 3; | record fault; | first -
pulse --widths 1 | file_room 4096 | 11 | PULSE 1 1 0.104 1 30 3;END 1 0 3; | record fault; | first
pulse --widths 1 | file_room 8195 | 11 | PULSE 1 1 0.104 1 30 3;END 1 0 3; | record fault; | first 10 0 0 20, second -
pulse --widths 1 | file_room 8197 | 11 | PULSE 1 1 0.104 1 30 3;END 1 0 3; | record fault; | first 10 0 0 20, second
pulse --widths 1 | file_room 8198 | 0 | PULSE 1 1 0.104 1 30 3;END 1 0 3; | | first 10 0 0 20, second 0 0
no_time --widths 1 | | 4 | | plan refused: NoUtc; | | calls 2, blocks 0
bad_time --widths 1 | | 4 | | plan refused: BadUtc;
overfull --widths 1 | | 4 | | plan refused: Overfull 4096 4096;
full --widths 1 | | 0 | PULSE 1 1 0.104 1 30 3;END 1 0 3; | | first 10 0 0 20, second 0 0
pulse missing --widths 1 | | 6 | | read fault; | first | recorder cut 1
pulse missing --widths 1 | file 0 | 6 | | read fault; | | recorder fault
",
};

const RECORDED_BLOCKS: Table = Table {
    program: Search,
    words: "--mean 1 --sd 2 --snr 7 --max-delay 1 --record --file-size 4 --max-bytes 1000",
    runs: "
pulse --widths 1 --size 1 --hands 3 | | 0 | PULSE 1 1 0.104 1 30 3;END 1 0 3; | | first 10 0 0 20, second 0 0
pulse --widths 1 --size 5 --shards 2 --hands 4 --turns 1 | | 0 | PULSE 1 1 0.104 1 30 3;END 1 0 3; | \
    | first 10 0 0 20, second 0 0
pulse --widths 1 --size 3 --hands 9 --buffers 2 | | 0 | PULSE 1 1 0.104 1 30 3;END 1 0 3; | \
    | first 10 0 0 20, second 0 0
pulse --widths 1 --size 4 --hands 1 --turns 1 | | 0 | PULSE 1 1 0.104 1 30 3;END 1 0 3; | \
    | first 10 0 0 20, second 0 0
pulse --widths 1 --size 1 --hands 2 --turns 64 | | 0 | PULSE 1 1 0.104 1 30 3;END 1 0 3; | \
    | first 10 0 0 20, second 0 0
pulse --widths 1 --size 5 --hands 3 --turns 3 | | 0 | PULSE 1 1 0.104 1 30 3;END 1 0 3; | \
    | first 10 0 0 20, second 0 0
pulse --widths 1 --size 6 --hands 9 --turns 2 | | 0 | PULSE 1 1 0.104 1 30 3;END 1 0 3; | \
    | first 10 0 0 20, second 0 0
pulse --widths 1 --size 4 | input 2 | 6 | | read fault; | first
pulse --widths 1 --size 4 | input 3 | 6 | | read fault; | first 10 0 0 20
pulse --widths 1 --size 4 | input 4 | 6 | | read fault; | first 10 0 0 20
pulse --widths 1 --size 2 --hands 3 | input 4 | 6 | | read fault; | first 10 0 0 20
pulse --widths 1 --hands 1 --size 1 --buffers 2 | file 0 | 11 | PULSE 1 1 0.104 1 30 3;END 1 0 3; \
    | record fault; | | blocks 7
pulse --widths 1 --hands 3 --size 1 --buffers 2 | file 0 | 11 | PULSE 1 1 0.104 1 30 3;END 1 0 3; \
    | record fault; | | blocks 7
pulse shorter --widths 1 --size 4 | | 3 | | header of file 1 refused: Short 100; | first 10 0 0 20 | recorder cut 1
pulse shorter --widths 1 --size 4 | file 0 | 3 | | header of file 1 refused: Short 100; | | recorder fault
pulse shorter --widths 1 --size 4 | file 3 | 3 | | header of file 1 refused: Short 100; | first 10 0 0 20 \
    | recorder fault
front far --widths 1 --size 3 | | 7 | | file 1 has OBS_OFFSET 12 where 4 was expected; | first 10 0 0
",
};

const RECORDED_CUT: Table = Table {
    program: Search,
    words: "--mean 1 --sd 2 --snr 7 --max-delay 1 --widths 1 --record --file-size 4 --max-bytes 5",
    runs: "
pulse --size 2 | | 8 | | more than 5 bytes; | first 10 0 0 20 | blocks 3, recorder cut 1
pulse --size 2 | file 0 | 8 | | more than 5 bytes; | | recorder fault
pulse --size 6 | | 8 | | more than 5 bytes; | first | blocks 1
",
};

const RECORDED_OTHERWISE: Table = Table {
    program: Search,
    words: "--mean 1 --sd 2 --snr 7 --max-delay 1 --widths 1 --record --size 512",
    runs: "
pulse --file-size 1 --max-bytes 281474976710656 | | 4 | | plan refused: TooManyFiles; | | calls 2, blocks 0
pulse + next | | 0 | OBS 0;PULSE 1 1 0.104 1 30 3;END 1 0 3;OBS 1;END 0 0 1; | | first 10 0 0 20 0 0, next 0 0
pulse + next --max-bytes 7 | | 8 | | more than 7 bytes; | first 10 0 0 20 0 0, next
pulse + next | files 1 | 11 | OBS 0;PULSE 1 1 0.104 1 30 3;END 1 0 3;OBS 1;END 0 0 1; | record fault; \
    | first 10 0 0 20 0 0
pulse + pulse | | 11 | OBS 0;PULSE 1 1 0.104 1 30 3;END 1 0 3;OBS 1;PULSE 1 1 0.104 1 30 3;END 1 0 3; \
    | record fault; | first 10 0 0 20 0 0
",
};

/// All searches.
pub(crate) const SEARCHES: [Table; 12] = [
    WORDS,
    DEFAULTS,
    PULSES,
    BLOCKS,
    BOXES,
    LONG,
    FOLDS,
    TRANSFERS,
    RECORDED,
    RECORDED_BLOCKS,
    RECORDED_CUT,
    RECORDED_OTHERWISE,
];
