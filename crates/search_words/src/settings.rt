// The settings that arguments give.
ghost use Rattle.std.specs.Prelude.{◌≢◌, map, string_bytes, Err, IfOk, IfErr};

use crate::fault::WordFault;
use crate::reading::{read_record, read_search};
use search_model::Search;
use std::alloc::Global;

/// The settings of a run, whatever it is for: how its data are read, shared and recorded.
#[derive(Debug, Drop)]
pub struct RunSettings {
    /// The number of buffers of the data ring.
    pub buffers: u32,
    /// The size of each buffer, in bytes.
    pub size: u32,
    /// The number of threads that work at the same time.
    pub hands: u32,
    /// The first round of a session has 16 times this number of turns for each actor, but at most 262144.
    pub turns: u32,
    /// Whether the data are recorded.
    pub recording: bool,
    /// The largest number of data bytes of a recorded file.
    pub file_size: u64,
    /// The largest number of data bytes that are read.
    pub max_bytes: u64,
    /// The names of the files of all transfers, in order.
    pub names: Vec<String>,
    /// For each transfer, how many names stand before it.
    pub starts: Vec<u32>,
}

/// The settings of a search, and those of the run that searches.
#[derive(Debug, Drop)]
pub struct Settings {
    /// What is searched.
    pub search: Search,
    /// How the data are read.
    pub run: RunSettings,
}

impl Settings {
    ghost use Rattle.search_words.specs.Command.{IsSimpleLine};
    ghost use Rattle.search_words.specs.Settings.{AllInRange, settings_seen, ExplainsSearch, SaySearch};
    ghost use Rattle.search_words.specs.declared.table.Program.TheVariants.{PsrSearch};

    /// The settings that the arguments of `psr_search` give, or why they are refused. The first of `words` is the
    /// program's name.
    pub fn of(alloc: Global, words: &[String]) -> Result<Settings, WordFault>
        ensures says { IfOk result (λ s. SaySearch (map string_bytes words.now) (settings_seen s)) }
        ensures in_range { IfOk result (λ s. AllInRange (settings_seen s)) }
        ensures fault { IfErr result (ExplainsSearch (map string_bytes words.now)) }
        ensures simple { IsSimpleLine PsrSearch (map string_bytes words.now)
            → result ≢ Err WordFault.Refused }
    {
        read_search(alloc, words)
    }
}

impl RunSettings {
    ghost use Rattle.search_words.specs.Command.{IsSimpleLine};
    ghost use Rattle.search_words.specs.Settings.{RunInRange, run_seen, ExplainsRecord, SayRecord};
    ghost use Rattle.search_words.specs.declared.table.Program.TheVariants.{PsrRecord};

    /// The settings that the arguments of `psr_record` give, or why they are refused. The first of `words` is the
    /// program's name. `psr_record` searches nothing, so they have no `Search`.
    pub fn of_record(alloc: Global, words: &[String]) -> Result<RunSettings, WordFault>
        ensures says { IfOk result (λ s. SayRecord (map string_bytes words.now) (run_seen s)) }
        ensures in_range { IfOk result (λ s. RunInRange (run_seen s)) }
        ensures fault { IfErr result (ExplainsRecord (map string_bytes words.now)) }
        ensures simple { IsSimpleLine PsrRecord (map string_bytes words.now)
            → result ≢ Err WordFault.Refused }
    {
        read_record(alloc, words)
    }
}
