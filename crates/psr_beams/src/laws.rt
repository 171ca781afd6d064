// Laws of the outcome, which the contracts of functions that do nothing carry. A caller whose proof needs a law calls
// its function.
ghost use Rattle.std.specs.Prelude.{List};
ghost use Rattle.psr_beams.specs.Seen.{calm_at};
ghost use Rattle.psr_beams.specs.Outcome.{AcceptedIsSearched};
ghost use Rattle.psr_beams.specs.Causes.{CausesAreAnswered, ShortBeamsAreAnswered, ToldRoomIsEnough};
ghost use Rattle.psr_beams.specs.Stops.{ToldStopsAreOfFiles};
ghost use Rattle.psr_beams.specs.Sample.{SampleIsFound, SampleIsRefused};

use psr_base::Inputs;

/// Words, headers and data of all beams that are accepted are searched, or there is no memory, where neither the inputs
/// of a beam nor the output count a fault.
pub fn accepted_is_searched<I: Inputs>()
    ensures { (inputs : List I) → AcceptedIsSearched (calm_at I.is_calm inputs) }
{}

/// What stands against a search whose words are accepted is answered, over inputs that are calm and hold all files, or
/// that count no fault: a refused header by 3, another OBS_OFFSET by 7, a refused search by 4, too many data of a beam
/// by 8, and too many candidates by 9; or there is no memory.
pub fn causes_are_answered<I: Inputs>()
    ensures { (inputs : List I) → CausesAreAnswered (calm_at I.is_calm inputs) }
{}

/// A file that has no header is refused by 3 and a line that names its beam, whatever the files of the beams after it
/// are, also if they are missing; or there is no memory. The files up to it are told, and their inputs are calm or count
/// no fault.
pub fn short_beams_are_answered<I: Inputs>()
    ensures { (inputs : List I) → ShortBeamsAreAnswered (calm_at I.is_calm inputs) }
{}

/// Where the files of all beams are told, what a stop says of each beam's file by itself it says of all of them.
pub fn told_stops_are_of_files()
    ensures { ToldStopsAreOfFiles }
{}

/// Where the files of all beams are told, 10 never comes over an output that told enough room for the text.
pub fn told_room_is_enough<I: Inputs>()
    ensures { (inputs : List I) → ToldRoomIsEnough (calm_at I.is_calm inputs) }
{}

/// The sample of this crate is found: a search of it that ends with status 0 has written its lines.
pub fn sample_is_found<I: Inputs>()
    ensures { (inputs : List I) → SampleIsFound (calm_at I.is_calm inputs) }
{}

/// The sample in which beam 1 has 4095 bytes is refused by 3 and the line that says so, whatever is told of beam 2; or
/// there is no memory.
pub fn sample_is_refused<I: Inputs>()
    ensures { (inputs : List I) → SampleIsRefused (calm_at I.is_calm inputs) }
{}
