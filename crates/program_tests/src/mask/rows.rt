// Runs.
use crate::mask::cases::Table;

// Runs over two channels.
const PULSES: Table = Table {
    words: "--mean 1 --sd 2 --snr 7 --max-delay 1 --widths 1 --size 512",
    runs: "
none | pulse | | 0 | PULSE 1 1 0.104 1 30 3;END 1 0 3; | | calls 4, blocks 1
0 | pulse | | 0 | PULSE 1 0 0.000 1 20 1;END 1 0 3; | | calls 4, blocks 1
1 | pulse | | 0 | END 0 0 3; | | calls 4, blocks 1
0,0 | pulse | | 0 | PULSE 1 0 0.000 1 20 1;END 1 0 3;
00-000000000 | pulse | | 0 | PULSE 1 0 0.000 1 20 1;END 1 0 3;
0 | loud | | 0 | PULSE 1 0 0.000 1 20 1;END 1 0 3;
0 | rising | | 0 | END 0 0 3;
1 | rising | | 0 | PULSE 1 0 0.000 1 20 1;END 1 0 3;
0 | pulse --shards 2 --hands 3 | | 0 | PULSE 1 0 0.000 1 20 1;END 1 0 3; | | blocks 1
0 | pulse --min-delay 1 | | 0 | END 0 0 3;
0 | empty | | 0 | END 0 0 0; | | calls 3
0 | front back | | 0 | PULSE 1 0 0.000 1 20 1;END 1 0 3; | | blocks 1
0 | pulse --max-candidates 1 | | 0 | PULSE 1 0 0.000 1 20 1;END 1 0 3;
",
};

// Blocks change no text.
const BLOCKS: Table = Table {
    words: "--mean 1 --sd 2 --snr 7 --max-delay 1 --widths 1",
    runs: "
0 | pulse --size 1 --buffers 2 --chunk 1 | | 0 | PULSE 1 0 0.000 1 20 1;END 1 0 3; | | calls 9, blocks 7
0 | pulse --size 6 | | 0 | PULSE 1 0 0.000 1 20 1;END 1 0 3; | | calls 4, blocks 2
0 | pulse --size 4 --hands 9 --turns 1 | | 0 | PULSE 1 0 0.000 1 20 1;END 1 0 3; | | blocks 2
",
};

// Texts that are no masks, at each place.
const REFUSED: Table = Table {
    words: "--mean 1 --sd 2 --snr 7 --max-delay 1 --widths 1",
    runs: "
1-0 | pulse | | 12 | | mask refused: AllMasked; | calls 2, blocks 0
1,0 | pulse | | 12 | | mask refused: AllMasked; | calls 2
1, | pulse | | 12 | | mask refused: BadMask 2; | calls 2, blocks 0
7 | pulse | | 12 | | mask refused: OutOfRange 7 2; | calls 2, blocks 0
000000007 | pulse | | 12 | | mask refused: OutOfRange 7 2;
0-2,7 | pulse | | 12 | | mask refused: OutOfRange 2 2;
999999999 | pulse | | 12 | | mask refused: OutOfRange 999999999 2;
0000000001 | pulse | | 12 | | mask refused: BadMask 9;
 | pulse | | 12 | | mask refused: BadMask 0;
, | pulse | | 12 | | mask refused: BadMask 0;
- | pulse | | 12 | | mask refused: BadMask 0;
-1 | pulse | | 12 | | mask refused: BadMask 0;
--mean | pulse | | 12 | | mask refused: BadMask 0;
n | pulse | | 12 | | mask refused: BadMask 1;
nope | pulse | | 12 | | mask refused: BadMask 2;
nonex | pulse | | 12 | | mask refused: BadMask 4;
none,1 | pulse | | 12 | | mask refused: BadMask 4;
1,none | pulse | | 12 | | mask refused: BadMask 2;
0,,1 | pulse | | 12 | | mask refused: BadMask 2;
1-2-3 | pulse | | 12 | | mask refused: BadMask 3;
1- | pulse | | 12 | | mask refused: BadMask 2;
7x | pulse | | 12 | | mask refused: BadMask 1;
7 | pulse | note 0 | 12 | | | blocks 0
7 | pulse | note_room 20 | 12 | |
4096-1 | wide | | 12 | | mask refused: OutOfRange 4096 4096;
4095-0 | wide | | 12 | | mask refused: AllMasked;
",
};

// What comes before the mask, and what after it.
const ORDER: Table = Table {
    words: "--mean 1 --sd 2 --snr 7 --max-delay 1 --widths 1 --size 512",
    runs: "
7 | | | 2 | | words refused; | calls 0, blocks 0
7 | pulse --snr 7 | | 2 | | words refused; | calls 0
7 | pulse --shards 9 | | 2 | | option --shards refused; | calls 0
7 | pulse --record | | 2 | | words refused; | calls 0, blocks 0
7 | pulse --record --shards 9 | | 2 | | option --shards refused; | calls 0
7 | pulse + next | | 2 | | words refused; | calls 0
7 | pulse + | | 2 | | option FILE refused; | calls 0
7 | missing | | 6 | | read fault; | calls 1, blocks 0
7 | short | | 3 | | header of file 0 refused: Short 100; | blocks 0
7 | nothing | | 3 | | header of file 0 refused: Missing NCHAN; | calls 2
7 | pulse --shards 3 | | 12 | | mask refused: OutOfRange 7 2; | calls 2
0 | pulse --shards 3 | | 4 | | plan refused: TooManyShards 3 2; | calls 2, blocks 0
0 | pulse --shards 3 | note 0 | 4 | |
0 | front far | | 7 | | file 1 has OBS_OFFSET 12 where 4 was expected; | blocks 1
0 | pulse short | | 3 | | header of file 1 refused: Short 100; | blocks 1
0 | pulse missing | | 6 | | read fault; | blocks 1
0 | pulse --max-bytes 5 | | 8 | | more than 5 bytes; | blocks 1
0 | pulse --max-candidates 0 | | 9 | | 1 candidates, limit 0; | blocks 1
1 | pulse --max-candidates 0 | | 0 | END 0 0 3; | | blocks 1
",
};

// Calls that fail.
const FAULTS: Table = Table {
    words: "--mean 1 --sd 2 --snr 7 --max-delay 1 --widths 1 --size 512",
    runs: "
0 | pulse | input 0 | 6 | | read fault; | blocks 0
7 | pulse | input 1 | 6 | | read fault; | blocks 0
7 | pulse | input 2 | 12 | | mask refused: OutOfRange 7 2;
0 | pulse | input 2 | 6 | | read fault; | blocks 1
0 | pulse | input 3 | 6 | | read fault; | blocks 1
0 | pulse | input 3, note 0 | 6 | | | blocks 1
0 | pulse | input 4 | 0 | PULSE 1 0 0.000 1 20 1;END 1 0 3;
0 | pulse --max-candidates 0 | out 0 | 9 | | 1 candidates, limit 0;
0 | pulse | out 0 | 10 | | sink fault; | blocks 1
0 | pulse | out 0, note 0 | 10 | |
0 | pulse | out_room 32 | 10 | | sink fault;
0 | pulse | out_room 33 | 0 | PULSE 1 0 0.000 1 20 1;END 1 0 3;
",
};

// Folds, and boxes of two widths.
const FOLDS: Table = Table {
    words: "--mean 0 --sd 1 --snr 2 --max-delay 0 --fold-max 2 --fold-rows 1 --size 512",
    runs: "
none | ramp --widths 1 | | 0 | PULSE 2 0 0.000 1 3 2;PULSE 3 0 0.000 1 4 2;\
    FOLD 0 0.000 2 2 0 0 4 4;FOLD 0 0.000 2 2 0 1 6 4;\
    FOLD 0 0.000 2 2 1 0 5 4;FOLD 0 0.000 2 2 1 1 5 4;END 2 4 4;
1 | ramp --widths 1 | | 0 | PULSE 1 0 0.000 1 2 1;PULSE 2 0 0.000 1 3 1;PULSE 3 0 0.000 1 4 1;\
    FOLD 0 0.000 2 2 0 0 4 2;FOLD 0 0.000 2 2 0 1 6 2;\
    FOLD 0 0.000 2 2 1 0 5 2;FOLD 0 0.000 2 2 1 1 5 2;END 3 4 4;
0 | ramp --widths 2 | | 0 | END 0 0 4;
1 | ramp --widths 1 --max-candidates 6 | | 9 | | 7 candidates, limit 6;
",
};

// Of 4096 channels all but one or two are masked, by ranges downward and with channels named twice.
const WIDE: Table = Table {
    words: "--mean 1 --sd 2 --snr 3 --max-delay 0 --widths 1 --size 512",
    runs: "
4095-1,5,5,7-3 | wide | | 0 | PULSE 0 0 0.000 1 9 1;END 1 0 2;
4095-2,3,3-2 | wide | | 0 | PULSE 0 0 0.000 1 18 2;END 1 0 2;
1-4095,9 | climbing | | 0 | PULSE 0 0 0.000 1 9 1;END 1 0 2;
",
};

/// All runs.
pub(crate) const RUNS: [Table; 7] = [PULSES, BLOCKS, REFUSED, ORDER, FAULTS, FOLDS, WIDE];
