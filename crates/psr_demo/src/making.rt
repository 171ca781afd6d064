// The observation of a number, and the words that its search is called with.
ghost use Rattle.std.specs.Prelude.{◌≡◌, ◌≤◌, map, string_bytes, codes, Some, IfOk};
ghost use Rattle.psr_base.specs.InMemory.{calm_told};
ghost use Rattle.psr_make.specs.Made.{SpecInRange, made_file};
ghost use Rattle.psr_demo.specs.Demo.{demo_spec};
ghost use Rattle.psr_demo.specs.Searching.{search_line};

use psr_base::{CalmInputs, Memory};
use psr_make::{MakeSpec, make_bytes};
use std::alloc::Global;

/// The words that the search is called with; the last names the observation.
const WORDS: [&str; 14] = [
    "psr_search",
    "--mean",
    "16",
    "--sd",
    "2.828",
    "--max-delay",
    "128",
    "--shards",
    "4",
    "--hands",
    "3",
    "--max-candidates",
    "100000",
    "demo",
];

// What the observation is made from.
fn spec_of(number: u64) -> MakeSpec
    requires { number ≤ 9223372036854775807 }
    ensures spec { result ≡ demo_spec number }
    ensures in_range { SpecInRange result }
{
    MakeSpec {
        number,
        channels: 64,
        spectra: 4096,
        delay: 64,
        period: 256,
        height: 2,
        nbit: 8,
        npol: 1,
    }
}

/// The observation of a number, as a file in memory.
pub(crate) fn made_inputs(alloc: Global, number: u64) -> Result<CalmInputs, Memory>
    requires { number ≤ 9223372036854775807 }
    ensures { IfOk result (λ inputs.
        (calm_told inputs).bytes_under (codes "demo") ≡ Some (made_file (demo_spec number))) }
{
    let spec = spec_of(number);
    let bytes = make_bytes(alloc, &spec)?;
    let mut inputs = CalmInputs::open(alloc)?;
    inputs.put("demo", bytes.as_slice())?;
    Ok(inputs)
}

/// The words that its search is called with.
pub(crate) fn search_words(alloc: Global) -> Result<Vec<String>, Memory>
    ensures { IfOk result (λ words. map string_bytes words.items ≡ search_line) }
{
    let mut words = Vec::new(alloc);
    for word in WORDS.iter() {
        words.push(String::from_str(alloc, word)?)?;
    }
    Ok(words)
}
