//! The search of data bytes.
ghost use Rattle.std.specs.Prelude.{◌≡◌, ◌<◌, ◌≤◌, IfOk, IfErr, length};
ghost use Rattle.search_model.specs.Candidates.{shard_part};
ghost use Rattle.search_model.specs.Observed.{candidates_of};
ghost use Rattle.search_model.specs.Plan.{plan_refusal};
ghost use Rattle.search_model.specs.Search.{SettingsInRange};
ghost use Rattle.candidate_book.specs.Book.{book_of};
ghost use Rattle.search_engine.specs.Engine.{most_fed};
ghost use Rattle.search_engine.specs.Plan.{Explains};

use candidate_book::Book;
use obs_plan::{Observation, Search};
use search_engine::{Engine, PlanFault};
use std::alloc::Global;

/// The candidates of a shard over all data bytes of an observation: the first ones, and the number of all.
pub fn found(
    alloc: Global,
    observation: &Observation,
    search: &Search,
    shard: u32,
    bytes: &[u8],
) -> Result<Book, PlanFault>
    requires range { SettingsInRange search.now }
    requires shard { shard < search.now.shards }
    requires few { length bytes.now ≤ most_fed }
    ensures ok { IfOk result (λ book. book ≡ book_of search.now.max_candidates
        (shard_part search.now shard (candidates_of observation.now search.now bytes.now))) }
    ensures refused { IfErr result (Explains (plan_refusal observation.now search.now)) }
{
    let mut engine = Engine::open(alloc, observation, search, shard)?;
    engine.feed(bytes);
    engine.end();
    Ok(engine.into_book())
}
