// Runs as the lines of a table say them, and how they must end.
use crate::level::files::{bytes_of, inputs_for};
use crate::level::running::level;
use run_cases::{Case, fields_of, has_lines};
use std::alloc::Global;
use std::process::Abort;
use std::sync::Wait;
use std::test::Fail;

// A run on each line: its arguments; the number of the call of the inputs, the output or the notes that fails, if one
// does; the status; the file that is written, if one is; and the lines on the notes, each ended by `;`.
const RUNS: &str = "
drift --spectra 8 | | 0 | drift.out
first next --spectra 8 | | 0 | drift.out
drift --spectra 8 --max-bytes 80 | | 0 | drift.out
front gap --spectra 5000 | | 7 | stop.out | file 1 has OBS_OFFSET 65580 where 65576 was expected;
front other --spectra 5000 | | 3 | stop.out | header of file 1 refused: Differs BW;
front short --spectra 5000 | | 3 | stop.out | header of file 1 refused: Short 4095;
front missing --spectra 5000 | | 6 | stop.out | read fault;
front --spectra 5000 --max-bytes 65550 | | 8 | stop.out | more than 65550 bytes;
front --spectra 5000 | | 0 | front.out
one | | 0 | one.out
one --average 2 --mask 0 | | 0 | pair.out
none | | 0 | none
burst --spectra 24 | | 0 | burst.out
bad --spectra 6 | | 0 | bad.out
bad --spectra 6 --mask 2 | | 0 | masked.out
bad --mask 3,0 --spectra=6 --mean 20.333 --deviation 3.007 --most 22 | | 0 | two.out
signed --spectra 5 --signed | | 0 | signed.out
turned --spectra 5 --signed --high-byte-first | | 0 | signed.out
signed --spectra 5 --signed --mask 0 --clip 1.25 --zero-dm | | 0 | flat.out
averaged --spectra 3 --average 4 | | 0 | averaged.out
averaged --spectra 3 --average 4 --fast | | 0 | fast.out
counts --average 2 --fast | | 0 | counts.out
flash --mask 1 --spectra 18 --clip 1.5 | | 0 | clip.out
flash --mask 1 --spectra 18 --zero-dm | | 0 | zero.out
flash --mask 1 --spectra 18 --clip 1.5 --zero-dm | | 0 | both.out
flash --spectra 18 --mean 9.5 --deviation 9 --most 20 --zero-dm | | 0 | low.out
flash --spectra 18 --mean 9.5 --deviation 9 --most 20 --clip 0 | | 0 | nine.out
flash --spectra 18 --mean 9.5 --deviation 9 --most 20 --clip 0 --zero-dm | | 0 | split.out
| | 2 | | words refused;
--spectra 8 | | 2 | | words refused;
drift --snr 7 | | 2 | | words refused;
drift --fast --fast | | 2 | | words refused;
drift --zero-dm=1 | | 2 | | words refused;
drift --spectra 1 | | 2 | | option --spectra refused;
drift --average 65 | | 2 | | option --average refused;
drift --clip=-1 | | 2 | | option --clip refused;
drift --clip 1000000.001 | | 2 | | option --clip refused;
drift --mean 65535.001 | | 2 | | option --mean refused;
drift --mean 1e3 | | 2 | | option --mean refused;
drift --deviation 1000.001 | | 2 | | option --deviation refused;
drift --most 0 | | 2 | | option --most refused;
drift --max-bytes 281474976710657 --clip x | | 2 | | option --clip refused;
drift --max-bytes 281474976710657 | | 2 | | option --max-bytes refused;
short | | 3 | | header of file 0 refused: Short 4095;
no_nchan | | 3 | | header of file 0 refused: Missing NCHAN;
long | | 0 | long.out
long --average 2 --mask 4 | | 3 | | header of file 0 refused: OutOfRange TSAMP;
full --average 2 | | 3 | | header of file 0 refused: Overfull 4105 4096;
full --average 2 --mask 4 | | 12 | | mask refused: OutOfRange 4 4;
drift --mask 3-0 | | 12 | | mask refused: AllMasked;
drift --mask 1,,2 | | 12 | | mask refused: BadMask 2;
missing | | 6 | | read fault;
missing | note 0 | 6
drift | input 0 | 6 | | read fault;
drift | out 0 | 10 | | sink fault;
drift --spectra 8 | note 0 | 0 | drift.out
";

fn check<R: Wait + Abort>(rt: &R, alloc: Global, line: &'static str) -> Result<(), Fail> {
    let [words, limits, status, output, notes, ..] = fields_of(line);
    let case = Case::of(words, limits, status, "", notes)?;
    let wanted = bytes_of(alloc, output)?;
    let mut inputs = inputs_for(alloc, words, case.limits.input)?;
    let ended = level(rt, alloc, words, &mut inputs, &case.limits)?;
    let is_met = ended.status == case.status
        && ended.text.as_slice() == wanted.as_slice()
        && has_lines(alloc, ended.notes.as_slice(), notes)?;
    assert!(rt; is_met, "{line}: {}", ended.status);
    Ok(())
}

#[test]
fn runs_end_and_write_as_their_lines_say(rt: HostRuntime) -> Result<(), Fail> {
    for line in RUNS.lines() {
        if !line.is_empty() {
            check(&rt, rt.alloc(), line)?;
        }
    }
    Ok(())
}
