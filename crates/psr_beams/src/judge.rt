// The headers of all beams are judged.
ghost use Rattle.std.specs.Prelude.{◌≡◌, ◌<◌, ◌≤◌, ℕ, length, ◌⊎◌, IsSome, Some, None, Ok, IfOk, IfErr, IfSome};
ghost use Rattle.dada_model.specs.Fields.{HeaderText, fields_of};
ghost use Rattle.dada_model.specs.Observation.{observation_of};
ghost use Rattle.obs_plan.specs.Later.{later_offset_of};
ghost use Rattle.psr_beams.specs.Judged.{slot_header, headers_in, AreOfOne, RefusesZero, RefusesBeyond, StopsJudging};
ghost use Rattle.psr_beams.specs.Refusals.{stop_of_offset, later_stop as later_stop_of};

use dada_header::Header;
use disk_feeder::{FeederSpace, HeaderCause};
use obs_plan::{Observation, Profile};
use run_outcome::Stop;
use std::alloc::Global;

// The stop of a later beam at its header, whose OBS_OFFSET has to be `expected`, or none.
fn offset_stop(beam: u32, profile: &Profile, expected: u64, header: &Header) -> Option<Stop>
    ensures { result ≡ stop_of_offset beam expected
        (later_offset_of profile.now (fields_of header.now.text)) }
{
    match profile.later_offset(header) {
        Ok(found) if found == expected => None,
        Ok(found) => Some(Stop::Gap {
            file: beam,
            expected,
            found,
        }),
        Err(fault) => Some(Stop::Header {
            file: beam,
            cause: HeaderCause::Fields(fault),
        }),
    }
}

// The stop of a later beam at its header, which has to have the observation of beam 0, or none.
#[tactic(auto, unfolding(crate::specs::Refusals::later_stop))]
fn later_stop(beam: u32, observation: &Observation, header: &Header) -> Option<Stop>
    ensures { result ≡ later_stop_of beam observation.now header.now }
{
    offset_stop(
        beam,
        &observation.profile(),
        observation.obs_offset(),
        header,
    )
}

/// The header that a feeder has read.
pub(crate) fn header_of<'b, 'a>(slot: &'b Option<FeederSpace<'a>>) -> &'b Header
    requires { IsSome (slot_header slot.now) }
    ensures { slot_header slot.now ≡ Some result.now }
{
    match slot {
        Some(space) => space.header(0),
        None => unreachable!(),
    }
}

// The observation of beam 0.
fn judge_first(alloc: Global, slots: &[Option<FeederSpace<'_>>]) -> Result<Observation, Stop>
    requires some { 0 < length slots.now }
    requires there { IsSome (headers_in slots.now 0) }
    ensures observed { IfOk result (λ o. (h : HeaderText) → headers_in slots.now 0 ≡ Some h
        → observation_of (fields_of h.text) ≡ Ok o) }
    ensures refused { IfErr result (λ stop. (stop ≡ Stop.Memory)
        ⊎ RefusesZero (headers_in slots.now) stop) }
{
    match Observation::of(alloc, header_of(&slots[0])) {
        Ok(observation) => Ok(observation),
        Err(fault) => Err(Stop::of_observation(0, fault)),
    }
}

// The first stop of a later beam at its header, or none.
fn judge_later(observation: &Observation, slots: &[Option<FeederSpace<'_>>]) -> Option<Stop>
    requires few { length slots.now ≤ 7 }
    requires there { (k : ℕ) → k < length slots.now → IsSome (headers_in slots.now k) }
    ensures none { result ≡ None → (k : ℕ) (h : HeaderText) → 0 < k → k < length slots.now
        → headers_in slots.now k ≡ Some h → later_stop_of k observation.now h ≡ None }
    ensures refused { IfSome result (RefusesBeyond (headers_in slots.now) (length slots.now)
        observation.now) }
{
    for beam in 1..slots.len() {
        if let Some(stop) = later_stop(beam as u32, observation, header_of(&slots[beam])) {
            return Some(stop);
        }
    }
    None
}

/// The observation of all beams, whose headers are judged in their order: that of beam 0 by its fields, a later one as
/// the header of a later file of beam 0's observation that begins with the byte with which beam 0 begins.
pub(crate) fn judge(alloc: Global, slots: &[Option<FeederSpace<'_>>]) -> Result<Observation, Stop>
    requires some { 0 < length slots.now }
    requires few { length slots.now ≤ 7 }
    requires there { (k : ℕ) → k < length slots.now → IsSome (headers_in slots.now k) }
    ensures accepted { IfOk result (AreOfOne (headers_in slots.now) (length slots.now)) }
    ensures refused { IfErr result (StopsJudging (headers_in slots.now) (length slots.now)) }
{
    let observation = match judge_first(alloc, slots) {
        Ok(observation) => observation,
        Err(stop) => return Err(stop),
    };
    match judge_later(&observation, slots) {
        Some(stop) => Err(stop),
        None => Ok(observation),
    }
}
