// Puts together the lines that end the text of a part.
ghost use Rattle.std.specs.Prelude.{◌≡◌};
ghost use Rattle.search_model.specs.CandidateText.{end_line as end_line_of};
ghost use Rattle.search_model.specs.Parts.{check_line as check_line_of};
ghost use Rattle.warm_restart.specs.LastLine.{last_line as last_line_of};

use text_line::Line;

// The line `CHECK UNTIL PULSES`: the spectrum that the part stops before, and how many pulses end before it.
pub(crate) fn check_line(until: u64, pulses: u64) -> Line
    ensures { result ≡ check_line_of until pulses }
{
    let mut line = Line::new();
    line.push_str("CHECK ");
    line.push_number(until);
    line.push_str(" ");
    line.push_number(pulses);
    line.push_str("\n");
    line
}

// The line `END PULSES 0 SPECTRA`: the number of pulses, of folds, and of spectra that were searched.
fn end_line(pulses: u64, spectra: u64) -> Line
    ensures { result ≡ end_line_of pulses 0 spectra }
{
    let mut line = Line::new();
    line.push_str("END ");
    line.push_number(pulses);
    line.push_str(" ");
    line.push_number(0);
    line.push_str(" ");
    line.push_number(spectra);
    line.push_str("\n");
    line
}

/// The last line of the text of a part: CHECK if more spectra follow, otherwise END.
pub(crate) fn last_line(until: u64, spectra: u64, pulses: u64) -> Line
    ensures { result ≡ last_line_of until spectra pulses }
{
    if until < spectra {
        check_line(until, pulses)
    } else {
        end_line(pulses, spectra)
    }
}
