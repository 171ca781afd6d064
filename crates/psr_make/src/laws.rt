// Laws of the definitions, which the contracts of functions that do nothing carry. A caller whose proof needs a law
// calls its function.
ghost use Rattle.psr_make.specs.Laws.{DrawsAreSplitMix, TrainGoesByPath};

use dada_model::edges_fall;
use search_model::has_one_path;

/// The draws of a seed are the outputs of the generator SplitMix64 with that seed.
pub fn draws_are_splitmix()
    ensures { DrawsAreSplitMix }
{}

/// A cell is on the train of pulses exactly if some pulse passes it, for any path of the delay.
pub fn train_goes_by_path()
    ensures { TrainGoesByPath }
{
    edges_fall();
    has_one_path();
}
