// A law of the settings, which the contract of a function that does nothing carries. A caller whose proof needs the law
// calls the function.
ghost use Rattle.search_words.specs.Settings.{SaidIsInRange};

use crate::opt::Opt;
// Laws: they do nothing when they run, and the proofs use what they ensure.
use option_rows::{none_fails, values_are_allowed};

/// Every value of the settings that arguments give is in its range.
pub fn said_is_in_range()
    ensures { SaidIsInRange }
{
    none_fails::<Opt>();
    values_are_allowed();
}
