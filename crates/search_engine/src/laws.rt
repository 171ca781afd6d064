// Laws of what is found in a scope, as functions that do nothing.
ghost use Rattle.search_engine.specs.Laws.{PartsAreFound, ScopesAreFound};

// Laws: they do nothing when they run, and the proofs use what they ensure.
use dada_model::edges_fall;
use search_model::{cells_agree, samples_of_bytes};
use shard_search::shards_are_listed;

/// Law: a search of some channels finds their candidates, and a search of a part those of the part.
pub fn scopes_are_found()
    ensures { ScopesAreFound }
{
    cells_agree();
    samples_of_bytes();
    shards_are_listed();
}

/// Law: an engine that searches a part has in its book what the part has so far, and at its end all of it.
pub fn parts_are_found()
    ensures { PartsAreFound }
{
    edges_fall();
    samples_of_bytes();
    shards_are_listed();
}
