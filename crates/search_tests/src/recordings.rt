// Recordings without a search.
use crate::cases::Table;
use crate::running::Program::Record;

const SMALL: Table = Table {
    program: Record,
    words: "--file-size 4 --max-bytes 1000 --size 512",
    runs: "
pulse | | 0 | | | first 10 0 0 20, second 0 0 | calls 4, blocks 1, recorder whole 2
ragged | | 0 | | | first 10 0 0 20, second 0
empty | | 0 | | | first
full | | 0 | | | first 10 0 0 20, second 0 0
overfull | | 4 | | plan refused: Overfull 4096 4096; | | calls 2, blocks 0
pulse | input 0 | 6 | | read fault; | | blocks 0
pulse | input 1 | 6 | | read fault; | | blocks 0
pulse missing | | 6 | | read fault; | first
front far | | 7 | | file 1 has OBS_OFFSET 12 where 4 was expected; | first | blocks 1, recorder cut 1
front far | file 0 | 7 | | file 1 has OBS_OFFSET 12 where 4 was expected; | | blocks 1, recorder fault
front far | note 0 | 7 | | | first
pulse | file 0 | 11 | | record fault; | | recorder fault
pulse | file 0, note 0 | 11
pulse | file 1 | 11 | | record fault; | first -
pulse | file 2 | 11 | | record fault; | first
pulse | file 3 | 11 | | record fault; | first 10 0 0 20
pulse | file 4 | 11 | | record fault; | first 10 0 0 20
pulse | file 5 | 11 | | record fault; | first 10 0 0 20, second -
pulse | file 6 | 11 | | record fault; | first 10 0 0 20, second
pulse | file 7 | 11 | | record fault; | first 10 0 0 20, second 0 0
pulse | file 8 | 0 | | | first 10 0 0 20, second 0 0
pulse | files 0 | 11 | | record fault;
pulse | files 1 | 11 | | record fault; | first 10 0 0 20
pulse | file_room 4095 | 11 | | record fault; | first -
pulse | file_room 4096 | 11 | | record fault; | first
pulse | file_room 8195 | 11 | | record fault; | first 10 0 0 20, second -
pulse | file_room 8197 | 11 | | record fault; | first 10 0 0 20, second
pulse | file_room 8198 | 0 | | | first 10 0 0 20, second 0 0
",
};

const BLOCKS: Table = Table {
    program: Record,
    words: "--file-size 4 --max-bytes 1000",
    runs: "
pulse --size 1 --hands 3 --turns 1 | | 0 | | | first 10 0 0 20, second 0 0 | blocks 7
pulse --size 3 --hands 9 --buffers 2 | | 0 | | | first 10 0 0 20, second 0 0
pulse --size 4 | input 2 | 6 | | read fault; | first
pulse --size 4 | input 3 | 6 | | read fault; | first 10 0 0 20
pulse --size 4 | input 4 | 6 | | read fault; | first 10 0 0 20
pulse shorter --size 4 | | 3 | | header of file 1 refused: Short 100; | first 10 0 0 20
front far --size 2 | | 7 | | file 1 has OBS_OFFSET 12 where 4 was expected; | first 10 0 0 20 | blocks 3
front far --size 3 | | 7 | | file 1 has OBS_OFFSET 12 where 4 was expected; | first 10 0 0 | blocks 2
pulse --size 1 --buffers 2 | file 0 | 11 | | record fault; | | blocks 7
",
};

const CUT: Table = Table {
    program: Record,
    words: "--file-size 4 --max-bytes 5",
    runs: "
pulse --size 2 | | 8 | | more than 5 bytes; | first 10 0 0 20 | blocks 3
pulse | | 8 | | more than 5 bytes; | first | blocks 1
",
};

const OTHERS: Table = Table {
    program: Record,
    words: "--size 512",
    runs: "
 | | 2 | | words refused; | | calls 0, blocks 0
pulse --mean 1 | | 2 | | words refused; | | calls 0, blocks 0
pulse --hands 10 | | 2 | | option --hands refused; | | calls 0
pulse + | | 2 | | option FILE refused;
pulse --hands 10 | note 0 | 2
pulse | | 0 | | | first 10 0 0 20 0 0
pulse + next | | 0 | | | first 10 0 0 20 0 0, next 0 0 | blocks 2
pulse + pulse | | 11 | | record fault; | first 10 0 0 20 0 0
pulse + next --max-bytes 7 | | 8 | | more than 7 bytes; | first 10 0 0 20 0 0, next
pulse + next next | | 7 | | file 2 has OBS_OFFSET 0 where 2 was expected; | first 10 0 0 20 0 0, next
short | | 3 | | header of file 0 refused: Short 4095; | | calls 3, blocks 0
short | note 0 | 3 | | | | blocks 0
nbit_4 | | 3 | | header of file 0 refused: OutOfProfile NBIT; | | calls 2
pulse + shorter | | 3 | | header of file 1 refused: Short 100; | | calls 5, blocks 0
nothing + shorter | | 3 | | header of file 1 refused: Short 100; | | calls 5, blocks 0
nothing + pulse | | 3 | | header of file 0 refused: Missing NCHAN; | | calls 4, blocks 0
pulse + missing | | 6 | | read fault; | | calls 3, blocks 0
no_time | | 4 | | plan refused: NoUtc; | | calls 2, blocks 0
bad_time | | 4 | | plan refused: BadUtc;
pulse + no_time | | 4 | | plan refused: NoUtc; | | calls 4, blocks 0
pulse --file-size 1 --max-bytes 281474976710656 | | 4 | | plan refused: TooManyFiles; | | calls 2, blocks 0
pulse --max-bytes 5 | note 0 | 8 | | | first
",
};

/// All recordings.
pub(crate) const RECORDINGS: [Table; 4] = [SMALL, BLOCKS, CUT, OTHERS];
