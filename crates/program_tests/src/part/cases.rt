// Runs as the lines of a table give them, and how they must end.
use crate::part::files::FILES;
use crate::part::running::run_words;
use run_cases::{Case, fields_of, words_of};
use std::alloc::Global;
use std::process::Abort;
use std::sync::Wait;
use std::test::Fail;

// The arguments that follow those of each line of a table, and the lines: the arguments that come first; the numbers of
// the calls that fail, and how much room there is, if it is little; the status; the output, and the line on the notes,
// with `;` for the end of a line; and, of some, how many blocks went through.
#[derive(Clone, Copy)]
struct Table {
    words: &'static str,
    runs: &'static str,
}

const WORDS: Table = Table {
    words: "",
    runs: "
 | | 2 | | words refused; | 0
2 | | 2 | | words refused;
2 new | | 2 | | words refused; | 0
2 pulse --mean 1 --sd 2 | | 2 | | words refused;
0 new pulse --mean 1 --sd 2 | | 2 | | words refused;
0 new pulse --mean 1 --sd 2 --snr 0 | | 2 | | words refused;
-1 new pulse --mean 1 --sd 2 | | 2 | | words refused;
+2 new pulse --mean 1 --sd 2 | | 2 | | words refused;
281474976710657 new pulse --mean 1 --sd 2 | | 2 | | words refused;
0000000000000002 new pulse --mean 1 --sd 2 | | 2 | | words refused;
2 new pulse --mean 1 --sd 2 --snr 0 | | 2 | | option --snr refused; | 0
2 new pulse --mean 1 --sd 2 --snr 0 --record | | 2 | | option --snr refused;
2 new pulse --mean 1 --sd 2 --record | | 2 | | words refused;
2 new pulse + pulse --mean 1 --sd 2 | | 2 | | words refused;
2 new pulse --mean 1 --sd 2 --fold-max 2 | | 2 | | words refused; | 0
2 missing pulse --mean 1 --sd 2 --fold-max 2 | note 0 | 2
2 new pulse --mean 1 --sd 2 --snr 7 --max-delay 1 --widths 1 --fold-max 2 --fold-min 3 | | 0 \
    | PULSE 1 1 0.104 1 30 3;CHECK 2 1;
",
};

const PARTS: Table = Table {
    words: "--mean 1 --sd 2 --snr 7 --max-delay 1 --widths 1 --size 4",
    runs: "
2 new pulse | | 0 | PULSE 1 1 0.104 1 30 3;CHECK 2 1; | | 2
9 at_2 pulse | | 0 | END 1 0 3; | | 2
5 new later | | 0 | CHECK 5 0; | | 4
9 at_5 later | | 0 | PULSE 5 1 0.104 1 30 3;END 1 0 7; | | 4
2 at_2 pulse | | 13 | | checkpoint refused: Place 2 2; | 0
1 at_2 pulse | | 13 | | checkpoint refused: Place 2 1; | 0
9 at_8 pulse | | 13 | | checkpoint refused: Beyond 8 3; | 2
9 at_4 pulse | | 13 | | checkpoint refused: Beyond 4 3; | 2
9 no_count pulse | | 13 | | checkpoint refused: Form; | 0
9 no_feed pulse | | 13 | | checkpoint refused: Form;
9 longer pulse | | 13 | | checkpoint refused: Form;
9 two pulse | | 13 | | checkpoint refused: Form;
9 spaces pulse | | 13 | | checkpoint refused: Form;
9 line_64 pulse | | 13 | | checkpoint refused: Form;
9 line_65 pulse | | 13 | | checkpoint refused: Form;
9 nothing pulse | | 13 | | checkpoint refused: Form;
9 end pulse | | 13 | | checkpoint refused: Form;
9 further pulse | | 13 | | checkpoint refused: Form;
9 too_many pulse | | 13 | | checkpoint refused: Form;
9 pulse pulse | | 13 | | checkpoint refused: Form;
9 furthest pulse | | 13 | | checkpoint refused: Place 281474976710656 9;
281474976710656 furthest pulse | | 13 | | checkpoint refused: Place 281474976710656 281474976710656;
9 zeros pulse | | 0 | END 1 0 3;
9 at_0 pulse | | 0 | PULSE 1 1 0.104 1 30 3;END 1 0 3;
281474976710656 at_1 pulse | | 0 | PULSE 1 1 0.104 1 30 3;END 1 0 3;
000000000000009 most pulse | | 0 | PULSE 1 1 0.104 1 30 3;END 281474976710657 0 3;
2 most pulse | | 0 | PULSE 1 1 0.104 1 30 3;CHECK 2 281474976710657;
9 at_3 pulse | | 0 | END 1 0 3;
3 new pulse | | 0 | PULSE 1 1 0.104 1 30 3;END 1 0 3;
3 at_2 pulse | | 0 | END 1 0 3;
1 new pulse | | 0 | CHECK 1 0;
2 new front back | | 0 | PULSE 1 1 0.104 1 30 3;CHECK 2 1;
2 new ragged | | 0 | PULSE 1 1 0.104 1 30 3;END 1 0 2;
9 at_3 ragged | | 13 | | checkpoint refused: Beyond 3 2;
9 new empty | | 0 | END 0 0 0;
9 at_0 empty | | 0 | END 0 0 0;
9 at_1 empty | | 13 | | checkpoint refused: Beyond 1 0;
2 new pulse --max-candidates 0 | | 9 | | 1 candidates, limit 0; | 2
9 at_2 pulse --max-candidates 0 | | 0 | END 1 0 3;
1 new pulse --max-candidates 0 | | 0 | CHECK 1 0;
9 at_8 pulse --max-candidates 0 | | 13 | | checkpoint refused: Beyond 8 3;
2 new short | | 3 | | header of file 0 refused: Short 4095; | 0
9 no_count short | | 13 | | checkpoint refused: Form;
2 at_2 short | | 13 | | checkpoint refused: Place 2 2;
9 at_8 no_nchan | | 3 | | header of file 0 refused: Missing NCHAN;
9 at_8 pulse --shards 3 | | 4 | | plan refused: TooManyShards 3 2; | 0
9 at_2 pulse --shards 2 | | 0 | END 1 0 3;
9 at_8 pulse --max-bytes 5 | | 8 | | more than 5 bytes; | 2
9 at_8 front far | | 7 | | file 1 has OBS_OFFSET 12 where 4 was expected; | 2
9 missing pulse | | 6 | | read fault; | 0
9 new missing | | 6 | | read fault; | 0
9 at_2 missing | | 6 | | read fault; | 0
9 missing missing | note 0 | 6
9 no_count missing | | 13 | | checkpoint refused: Form;
9 at_2 pulse | input 0 | 6 | | read fault; | 0
9 at_2 pulse | input 1 | 6 | | read fault; | 0
9 no_count pulse | input 1 | 6 | | read fault; | 0
9 at_2 pulse | input 3 | 6 | | read fault; | 0
9 at_2 pulse | input 4 | 6 | | read fault; | 0
2 new pulse | input 0 | 6 | | read fault; | 0
2 new pulse | input 1 | 6 | | read fault; | 0
2 new pulse | input 2 | 6 | | read fault;
2 new pulse | out 0 | 10 | | sink fault; | 2
2 new pulse | out 0, note 0 | 10
2 new pulse | out_room 0 | 10 | | sink fault;
2 new pulse | out_room 32 | 10 | | sink fault;
2 new pulse | out_room 33 | 0 | PULSE 1 1 0.104 1 30 3;CHECK 2 1;
9 at_8 pulse | note 0 | 13
",
};

const WIDE: Table = Table {
    words: "--mean 1 --sd 2 --snr 7 --max-delay 1 --widths 2",
    runs: "
9 at_6 later | | 0 | PULSE 6 1 0.104 2 50 6;END 2 0 7;
6 new later | | 0 | PULSE 5 1 0.104 1 30 3;CHECK 6 1;
",
};

fn check<R: Wait + Abort>(
    rt: &R,
    alloc: Global,
    table: &Table,
    line: &'static str,
) -> Result<(), Fail> {
    let [words, limits, status, text, notes, blocks, _] = fields_of(line);
    let mut case = Case::of(words, limits, status, text, notes)?;
    if !blocks.is_empty() {
        case.blocks = Some(u64::from(blocks.parse::<u32>()?));
    }
    let mut inputs = FILES.inputs_for(alloc, words, case.limits.input)?;
    let words = words_of(alloc, words, table.words)?;
    let mut ended = run_words(rt, alloc, words.as_slice(), &mut inputs, &case.limits)?;
    // After a fault of the output a front of a text isn't looked at.
    if case.status == 10 {
        ended.text.truncate(0);
    }
    assert!(rt; case.is_met(alloc, &ended, 0)?, "{line}: {ended}");
    Ok(())
}

#[test]
fn parts_end_as_their_words_and_files_say(rt: HostRuntime) -> Result<(), Fail> {
    for table in [WORDS, PARTS, WIDE] {
        for line in table.runs.lines() {
            if !line.is_empty() {
                check(&rt, rt.alloc(), &table, line)?;
            }
        }
    }
    Ok(())
}
