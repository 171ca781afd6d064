// Runs as the lines of a table say them, and how they must end.
use crate::live::files::inputs_for;
use crate::live::running::run_words;
use run_cases::{Case, NEVER, fields_of, words_of};
use std::alloc::Global;
use std::process::Abort;
use std::sync::Wait;
use std::test::Fail;

const WORDS: &str = "--mean 1 --sd 2 --snr 7 --max-delay 1 --widths 1";

// The words that come first; the status; the output, and the line on the notes, with `;` for the end of a line.
const RUNS: &str = "
 | 2 | | words refused;
512 | 2 | | words refused;
512 new | 2 | | words refused;
0 new at_511 | 2 | | words refused;
1 new at_511 | 2 | | words refused;
513 new at_511 | 2 | | words refused;
-512 new at_511 | 2 | | words refused;
281474976711168 new at_511 | 2 | | words refused;
512 new at_511 --record | 2 | | words refused;
512 new at_511 + at_511 | 2 | | words refused;
512 new at_511 --fold-max 2 | 2 | | words refused;
512 new at_511 --buffers 0 | 2 | | option --buffers refused;
512 new at_511 | 0 | PULSE 511 1 0.104 1 30 3;END 1 0 512;
512 new at_511b | 0 | PULSE 511 1 0.104 1 30 3;END 1 0 512;
512 new after | 0 | PULSE 511 1 0.104 1 30 3;CHECK 512 1;END 1 0 513;
512 new after --size 1 | 0 | PULSE 511 1 0.104 1 30 3;CHECK 512 1;END 1 0 513;
512 new after --size 1000 | 0 | PULSE 511 1 0.104 1 30 3;CHECK 512 1;END 1 0 513;
512 new after --chunk 100 | 0 | PULSE 511 1 0.104 1 30 3;CHECK 512 1;END 1 0 513;
512 new after --shards 2 | 0 | PULSE 511 1 0.104 1 30 3;CHECK 512 1;END 1 0 513;
512 new at_512 | 0 | CHECK 512 0;PULSE 512 1 0.104 1 30 3;END 1 0 513;
1024 new at_512 | 0 | PULSE 512 1 0.104 1 30 3;END 1 0 513;
281474976710656 new at_512 | 0 | PULSE 512 1 0.104 1 30 3;END 1 0 513;
512 check at_512 | 0 | PULSE 512 1 0.104 1 30 3;END 1 0 513;
512 check_a at_512 | 0 | CHECK 512 7;PULSE 512 1 0.104 1 30 3;END 8 0 513;
512 check_a after | 0 | PULSE 511 1 0.104 1 30 3;CHECK 512 8;END 8 0 513;
512 check_b at_512 | 0 | END 1 0 513;
512 check_c at_512 | 13 | | checkpoint refused: Beyond 514 513;
512 check_d at_511 | 0 | PULSE 511 1 0.104 1 30 3;END 1 0 512;
512 check_e at_511 | 13 | | checkpoint refused: Place 281474976710656 281474976710656;
512 check_f at_511 | 13 | | checkpoint refused: Beyond 281474976710655 512;
512 no_line at_511 | 13 | | checkpoint refused: Form;
512 at_511 at_511 | 13 | | checkpoint refused: Form;
512 new four | 0 | PULSE 511 1 0.104 1 30 3;CHECK 512 1;PULSE 513 1 0.104 1 30 3;\
PULSE 1023 1 0.104 1 30 3;CHECK 1024 3;PULSE 1300 1 0.104 1 30 3;CHECK 1536 4;END 4 0 2048;
1024 new four | 0 | PULSE 511 1 0.104 1 30 3;PULSE 513 1 0.104 1 30 3;PULSE 1023 1 0.104 1 30 3;\
CHECK 1024 3;PULSE 1300 1 0.104 1 30 3;END 4 0 2048;
512 new four --max-candidates 1 | 0 | PULSE 511 1 0.104 1 30 3;CHECK 512 1;MANY 1024 2;CHECK 1024 1;\
PULSE 1300 1 0.104 1 30 3;CHECK 1536 2;END 2 0 2048;
512 new two --max-candidates 0 | 0 | MANY 512 2;CHECK 512 0;END 0 0 513;
1024 new two --max-candidates 1 | 0 | MANY 513 2;END 0 0 513;
512 new nothing | 0 | END 0 0 0;
512 check_d nothing | 0 | END 0 0 0;
512 check nothing | 13 | | checkpoint refused: Beyond 512 0;
512 new front back | 0 | PULSE 511 1 0.104 1 30 3;CHECK 512 1;END 1 0 514;
512 new missing | 6 | | read fault;
512 missing at_511 | 6 | | read fault;
512 new check | 3 | | header of file 0 refused: Short 12;
512 new at_511 --shards 3 | 4 | | plan refused: TooManyShards 3 2;
512 new front far --size 2 | 7 | PULSE 511 1 0.104 1 30 3;CHECK 512 1;CHECK 513 1; \
 | file 1 has OBS_OFFSET 1030 where 1026 was expected;
512 new front far | 7 | PULSE 511 1 0.104 1 30 3;CHECK 512 1; \
 | file 1 has OBS_OFFSET 1030 where 1026 was expected;
1024 new front far --size 2 | 7 | PULSE 511 1 0.104 1 30 3;CHECK 513 1; \
 | file 1 has OBS_OFFSET 1030 where 1026 was expected;
512 check_b front far --size 2 | 7 | | file 1 has OBS_OFFSET 1030 where 1026 was expected;
512 check_c front far --size 2 | 7 | | file 1 has OBS_OFFSET 1030 where 1026 was expected;
512 new front check --size 2 | 3 | PULSE 511 1 0.104 1 30 3;CHECK 512 1;CHECK 513 1; \
 | header of file 1 refused: Short 12;
512 new front missing --size 2 | 6 | PULSE 511 1 0.104 1 30 3;CHECK 512 1;CHECK 513 1; | read fault;
512 new after --max-bytes 1025 --size 2 | 8 | PULSE 511 1 0.104 1 30 3;CHECK 512 1; \
 | more than 1025 bytes;
512 new after --max-bytes 1023 --size 2 | 8 | CHECK 511 0; | more than 1023 bytes;
512 new two --max-bytes 800 --size 2 --max-candidates 1 | 8 | MANY 400 2;CHECK 400 0; \
 | more than 800 bytes;
";

fn check<R: Wait + Abort>(rt: &R, alloc: Global, line: &'static str) -> Result<(), Fail> {
    let [words, status, text, notes, ..] = fields_of(line);
    let case = Case::of(words, "", status, text, notes)?;
    let mut inputs = inputs_for(alloc, NEVER)?;
    let more = if words.is_empty() { "" } else { WORDS };
    let words = words_of(alloc, words, more)?;
    let ended = run_words(rt, alloc, words.as_slice(), &mut inputs, &case.limits)?;
    assert!(rt; case.is_met(alloc, &ended, 0)?, "{line}: {ended}");
    Ok(())
}

#[test]
fn runs_end_as_they_must(rt: HostRuntime) -> Result<(), Fail> {
    for line in RUNS.lines() {
        if !line.is_empty() {
            check(&rt, rt.alloc(), line)?;
        }
    }
    Ok(())
}
