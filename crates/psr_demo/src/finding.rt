// The search of the observation of a number.
ghost use Rattle.std.specs.Prelude.{◌≡◌, ◌≤◌, IfOk, OnErr};
ghost use Rattle.psr_base.specs.InMemory.{body_of};
ghost use Rattle.psr_demo.specs.Demo.{IsFound};

use crate::making::{made_inputs, search_words};
use psr_base::{CalmFiles, CalmInputs, MemSink, Memory, Sink};
use psr_search::run;
use search_session::Gate;
use std::alloc::Global;
use std::sync::Wait;
use std::thread::Threads;
use std::time::Clock;
// Laws: they do nothing when they run, and the proofs use what they ensure.
use dada_model::{edges_fall, headers_by_front};
use run_outcome::accepted_goes_on;
use search_model::{candidates_are_listed, samples_of_bytes, sums_are_bounded};
use stream_model::{first_files_continue, whole_exactly};

/// Room for the text of the largest number of candidates.
const ROOM: u64 = 8_388_608;

/// How the search ended, and its text.
#[derive(Drop)]
pub(crate) struct Found {
    pub(crate) status: u8,
    pub(crate) text: MemSink,
}

/// Makes and searches the observation of a number. The notes take the line of the search.
pub(crate) fn find<E: Sink, G: Gate + Sync, R: Threads + Wait + Clock + Sync>(
    rt: &R,
    alloc: Global,
    number: u64,
    notes: &mut E,
    gate: &G,
) -> Result<Found, Memory>
    requires { number ≤ 9223372036854775807 }
    ensures found { IfOk result (λ found. IsFound number found.status (body_of found.text)
        (E.seen notes.old) (E.seen notes.new)) }
    ensures untouched { OnErr result (E.seen notes.new ≡ E.seen notes.old) }
{
    edges_fall();
    headers_by_front();
    candidates_are_listed();
    samples_of_bytes();
    sums_are_bounded();
    first_files_continue();
    whole_exactly();
    accepted_goes_on::<CalmInputs>();
    let mut inputs = made_inputs(alloc, number)?;
    let words = search_words(alloc)?;
    let mut text = MemSink::open(alloc, ROOM, &[])?;
    let mut files = CalmFiles::new();
    let ran = run(
        rt,
        alloc,
        words.as_slice(),
        &mut inputs,
        &mut files,
        &mut text,
        notes,
        gate,
    );
    Ok(Found {
        status: ran.status,
        text,
    })
}
