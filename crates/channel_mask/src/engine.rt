// The engine of a search without the channels of a mask.
ghost use Rattle.std.specs.Prelude.{◌≡◌, ℕ, ◌+◌, ◌≤◌, ◌++◌, [], false, true, None, Bool, List, length, OnOk, IfOk, IfErr};
ghost use Rattle.dada_model.specs.Bounds.{most_delay};
ghost use Rattle.dada_model.specs.Observation.{Observation as Described, edges as edges_of};
ghost use Rattle.search_model.specs.declared.search.Search.{Search as Settings};
ghost use Rattle.search_model.specs.Masks.{kept_cells};
ghost use Rattle.search_model.specs.Plan.{plan_refusal};
ghost use Rattle.search_model.specs.Search.{SettingsInRange, in_one_shard as in_one_shard_of};
ghost use Rattle.shard_search.specs.Sought.{cells_in};
ghost use Rattle.search_engine.specs.Engine.{HasFoundPart, IsOpenedEngine, SameShard, most_fed, scope_of, spectra_fed};
ghost use Rattle.search_engine.specs.Plan.{Explains};
ghost use Rattle.search_engine.specs.Scope.{kept_by};
ghost use Rattle.channel_mask.specs.Masked.{HasFoundKept, SearchesKept, StandsForKept};

use crate::mask::Mask;
use candidate_book::Book;
use obs_plan::Observation;
use search_engine::{Engine, PlanFault, check_plan};
use search_model::Search;
use std::alloc::Global;
use std::marker::Model;
// Laws: they do nothing when they run, and the proofs use what they ensure.
use search_model::{candidates_are_listed, cells_agree, one_shard_is_all};

/// The search of all delays of an observation in the channels that a mask keeps. Data bytes are fed in pieces of any
/// length, and the candidates are kept in a book. `open` takes all memory. A clause sees this as its engine.
#[derive(Drop)]
pub struct MaskEngine {
    engine: Engine,
}

impl Model for MaskEngine {
    ghost use Rattle.search_engine.specs.Engine.{EngineState};
    ghost use Rattle.channel_mask.specs.Masked.{TellsCells};

    ghost Value = { EngineState };

    ghost view = { λ m. m.engine };

    ghost invariant = { λ m. TellsCells m.engine };
}

impl MaskEngine {
    /// Takes the memory for a search without the channels of `mask`, which was read for this observation. The error
    /// says why the search is refused.
    pub fn open(
        alloc: Global,
        observation: &Observation,
        search: &Search,
        mask: &Mask,
    ) -> Result<MaskEngine, PlanFault>
        requires range { SettingsInRange search.now }
        requires mask { length mask.now ≡ observation.now.channels }
        ensures fits { OnOk result (plan_refusal observation.now search.now ≡ None) }
        ensures opened { IfOk result (λ m. IsOpenedEngine m (in_one_shard_of search.now) 0) }
        ensures stands { IfOk result (StandsForKept observation.now search.now mask.now []) }
        ensures refused { IfErr result (Explains (plan_refusal observation.now search.now)) }
    {
        observation.lies_in_range();
        check_plan(observation, search)?;
        let scope = mask.scope(alloc, observation, search.max_delay)?;
        let engine = Engine::open_for(alloc, observation, &search.in_one_shard(), 0, scope)?;
        Ok(MaskEngine { engine })
    }

    /// Makes a mask engine of an engine that was opened for the scope of a mask, as the run of another crate leaves
    /// one.
    pub fn of_engine(engine: Engine) -> MaskEngine
        requires { (o : Described) × (s : Settings) × (mask : List Bool)
            × SearchesKept o s mask engine }
        ensures same { result ≡ engine }
        ensures found { (o : Described) (s : Settings) (mask : List Bool) (bytes : List ℕ)
            → SearchesKept o s mask engine → HasFoundPart o bytes engine
            → HasFoundKept o s mask bytes result }
    {
        candidates_are_listed();
        one_shard_is_all();
        cells_agree();
        MaskEngine { engine }
    }

    /// Takes the next data bytes, and searches each chunk that they fill.
    pub fn feed(&mut self, bytes: &[u8])
        requires running { self.old.has_ended ≡ false }
        requires few { self.old.fed + length bytes.now ≤ most_fed }
        ensures same { SameShard self.new self.old }
        ensures running { self.new.has_ended ≡ false }
        ensures fed { self.new.fed ≡ self.old.fed + length bytes.now }
        ensures stands { (o : Described) (s : Settings) (mask : List Bool) (before : List ℕ)
            → StandsForKept o s mask before self.old
            → StandsForKept o s mask (before ++ bytes.now) self.new }
    {
        self.engine.feed(bytes);
    }

    /// Ends the data. All that is left of them is searched, except an incomplete last spectrum, and then all folds.
    pub fn end(&mut self)
        requires { self.old.has_ended ≡ false }
        ensures same { SameShard self.new self.old }
        ensures ended { self.new.has_ended ≡ true }
        ensures fed { self.new.fed ≡ self.old.fed }
        ensures found { (o : Described) (s : Settings) (mask : List Bool) (bytes : List ℕ)
            → StandsForKept o s mask bytes self.old → HasFoundKept o s mask bytes self.new }
    {
        candidates_are_listed();
        one_shard_is_all();
        cells_agree();
        self.engine.end();
    }

    /// The number of complete spectra that were fed.
    pub fn spectra(&self) -> u64
        ensures { result ≡ spectra_fed self.now }
    {
        self.engine.whole_spectra()
    }

    /// The candidates so far: after `end`, all of them.
    pub fn book(&self) -> &Book
        ensures { result.now ≡ self.now.book }
    {
        self.engine.book()
    }

    /// How many cells of the path of delay `d` lie in channels that are kept. The delay must be one that is searched.
    pub fn cells(&self, d: u32) -> u32
        requires { d ≤ self.now.search.max_delay }
        ensures { (o : Described) (s : Settings) (mask : List Bool) → SearchesKept o s mask self.now
            → result ≡ kept_cells (kept_by mask) (edges_of o) o.channels d }
    {
        self.engine.cells(d)
    }

    // How many cells the engine counts for a delay.
    pub(crate) fn counted(&self, delay: u32) -> u32
        requires { delay ≤ most_delay }
        ensures { result ≡ cells_in (scope_of self.now).sought delay }
    {
        self.engine.cells(delay)
    }
}
