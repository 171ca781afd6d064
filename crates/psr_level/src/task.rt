//! What psr_level makes of a stream: the header of the levelled file, and the levelled data as they come.
ghost use Rattle.std.specs.Prelude.{◌≡◌, length, IfOk, IfErr, OnOk};
ghost use Rattle.dada_model.specs.Fields.{HeaderText};
ghost use Rattle.channel_mask.specs.Masks.{IsMaskOf, mask_of};
ghost use Rattle.level_plan.specs.Headers.{HasRoom, level_header as level_header_of};
ghost use Rattle.level_plan.specs.Plans.{OptionsInRange, marks_of};
ghost use Rattle.level_words.specs.Settings.{LevelInRange, level_seen};
ghost use Rattle.drive_stream.specs.Endings.{ExplainsOpen};
ghost use Rattle.psr_level.specs.Levels.{CanLevel, Leaves, Opens, Refuses, Streams, level_block};

use crate::drain::{drain, levels_are_fronts, stretches_are_whole};
use crate::refusal::LevelRefusal;
use band_level::Leveller;
use channel_mask::{Mask, MaskFault};
use dada_header::Header;
use drive_stream::{FinishFault, OpenFault, Streaming};
use level_plan::{HeaderStop, format_of, level_header, marks_in_file, plan_of, takes_time};
use level_words::LevelSettings;
use obs_plan::Observation;
use psr_base::{Failed, Sink, write_all};
use std::alloc::Global;
// A law: it does nothing when it runs, and the proofs use what it ensures.
use psr_base::pieces_join;

/// How many bytes of data are read at a time.
const BLOCK: u32 = 65536;

/// The header of the levelled file, and what levels the data.
#[derive(Drop)]
pub(crate) struct LevelStream {
    pub(crate) header: Header,
    pub(crate) leveller: Leveller,
}

/// Settings by which a stream is levelled.
#[derive(Drop)]
pub(crate) struct LevelTask<'a> {
    pub(crate) settings: &'a LevelSettings,
}

// A law: the options of settings that lie in their ranges do.
fn options_lie_in_range(settings: &LevelSettings)
    requires { LevelInRange (level_seen settings.now) }
    ensures { OptionsInRange settings.now.options }
{
    let _ = &settings.options;
}

// The marks of the channels that the mask text names.
fn open_marks(
    alloc: Global,
    settings: &LevelSettings,
    observation: &Observation,
) -> Result<Vec<bool>, OpenFault<LevelRefusal>>
    ensures mask { OnOk result (IsMaskOf observation.now (level_seen settings.now).mask
        (mask_of observation.now (level_seen settings.now).mask)) }
    ensures marks { IfOk result (λ marks.
        marks.items ≡ marks_of (level_seen settings.now).mask observation.now) }
    ensures long { IfOk result (λ marks. length marks.items ≡ observation.now.channels) }
    ensures stopped { IfErr result (λ fault. (header : HeaderText) → ExplainsOpen
        (Refuses (level_seen settings.now) observation.now header) fault) }
{
    let text = settings.mask.as_bytes();
    let mask = match Mask::read(alloc, text, observation) {
        Ok(mask) => mask,
        Err(MaskFault::Memory) => return Err(OpenFault::Memory),
        Err(fault) => return Err(OpenFault::Refused(LevelRefusal::BadMask(fault))),
    };
    match marks_in_file(alloc, &mask, text, observation) {
        Ok(marks) => Ok(marks),
        Err(_memory) => Err(OpenFault::Memory),
    }
}

// The header of the levelled file.
fn open_header(
    alloc: Global,
    settings: &LevelSettings,
    observation: &Observation,
    header: &Header,
) -> Result<Header, OpenFault<LevelRefusal>>
    requires { OptionsInRange settings.now.options }
    ensures header { IfOk result (λ levelled.
        levelled ≡ level_header_of settings.now.options observation.now header.now) }
    ensures room { OnOk result
        (HasRoom settings.now.options observation.now header.now) }
    ensures stopped { IfErr result (ExplainsOpen
        (Refuses (level_seen settings.now) observation.now header.now)) }
{
    match level_header(alloc, settings.options, observation, header) {
        Ok(header) => Ok(header),
        Err(HeaderStop::Overfull { need, size }) => {
            Err(OpenFault::Refused(LevelRefusal::NoRoom { need, size }))
        }
        Err(HeaderStop::Memory) => Err(OpenFault::Memory),
    }
}

// Opens the stream of an observation, which has this header.
fn open_stream(
    alloc: Global,
    settings: &LevelSettings,
    observation: &Observation,
    header: &Header,
) -> Result<LevelStream, OpenFault<LevelRefusal>>
    requires { LevelInRange (level_seen settings.now) }
    ensures takes { OnOk result
        (CanLevel (level_seen settings.now) observation.now header.now) }
    ensures opened { IfOk result (Opens (level_seen settings.now) observation.now header.now) }
    ensures stopped { IfErr result (ExplainsOpen
        (Refuses (level_seen settings.now) observation.now header.now)) }
{
    options_lie_in_range(settings);
    if !takes_time(settings.options, observation) {
        return Err(OpenFault::Refused(LevelRefusal::LongTime));
    }
    let marks = match open_marks(alloc, settings, observation) {
        Ok(marks) => marks,
        Err(fault) => return Err(fault),
    };
    let header = match open_header(alloc, settings, observation, header) {
        Ok(header) => header,
        Err(fault) => return Err(fault),
    };
    let format = format_of(settings.options, observation);
    let plan = plan_of(settings.options, observation);
    match Leveller::open(alloc, format, plan, marks.as_slice()) {
        Ok(leveller) => Ok(LevelStream { header, leveller }),
        Err(_memory) => Err(OpenFault::Memory),
    }
}

impl<'a> Streaming for LevelTask<'a> {
    type Stream = LevelStream;

    type Refusal = LevelRefusal;

    ghost holds = { λ task. LevelInRange (level_seen task.settings.now) };

    ghost block = { λ task o. level_block o };

    ghost takes = { λ task o header. CanLevel (level_seen task.settings.now) o header };

    ghost refuses = { λ task o header refusal.
        Refuses (level_seen task.settings.now) o header refusal };

    ghost opens = { λ task o header stream.
        Opens (level_seen task.settings.now) o header stream };

    ghost streams = { λ task o header bytes stream start now.
        Streams (level_seen task.settings.now) o header bytes stream start now };

    ghost leaves = { λ task o header bytes ending start now.
        Leaves (level_seen task.settings.now) o header bytes ending start now };

    fn taken_is_not_refused(&self) {}

    fn block_size(&self, _observation: &Observation) -> u32 {
        BLOCK
    }

    fn open(
        &self,
        alloc: Global,
        observation: &Observation,
        header: &Header,
    ) -> Result<LevelStream, OpenFault<LevelRefusal>> {
        open_stream(alloc, self.settings, observation, header)
    }

    fn begin<K: Sink>(
        &self,
        stream: &mut LevelStream,
        _observation: &Observation,
        out: &mut K,
    ) -> Result<(), Failed> {
        pieces_join();
        levels_are_fronts();
        match write_all(out, stream.header.bytes()) {
            Ok(()) => {}
            Err(failed) => return Err(failed),
        }
        match drain(&mut stream.leveller, out) {
            Ok(()) => Ok(()),
            Err(failed) => Err(failed),
        }
    }

    fn feed<K: Sink>(
        &self,
        stream: &mut LevelStream,
        _observation: &Observation,
        bytes: &[u8],
        out: &mut K,
    ) -> Result<usize, Failed> {
        pieces_join();
        levels_are_fronts();
        let count = stream.leveller.feed(bytes);
        match drain(&mut stream.leveller, out) {
            Ok(()) => Ok(count),
            Err(failed) => Err(failed),
        }
    }

    fn finish<K: Sink>(
        &self,
        stream: &mut LevelStream,
        _observation: &Observation,
        out: &mut K,
    ) -> Result<(), FinishFault<LevelRefusal>> {
        pieces_join();
        levels_are_fronts();
        stream.leveller.end();
        match drain(&mut stream.leveller, out) {
            Ok(()) => Ok(()),
            Err(_failed) => Err(FinishFault::Failed),
        }
    }

    fn stop<K: Sink>(
        &self,
        _stream: &mut LevelStream,
        _observation: &Observation,
        _out: &mut K,
    ) -> Result<(), Failed> {
        pieces_join();
        stretches_are_whole();
        Ok(())
    }
}
