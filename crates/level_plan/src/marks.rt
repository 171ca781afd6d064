// The masked channels in the order of the file.
ghost use Rattle.std.specs.Prelude.{◌≡◌, ◌<◌, length, IfOk};
ghost use Rattle.channel_mask.specs.Masks.{IsMaskOf, place_in_file};
ghost use Rattle.level_plan.specs.Plans.{marks_of};

use channel_mask::Mask;
use obs_plan::Observation;
use psr_base::Memory;
use std::alloc::Global;

// Turns a channel counted in the order of the file into one counted from the highest frequency, or the other way round.
fn from_top(channels: u32, is_falling: bool, i: u32) -> u32
    requires { i < channels }
    ensures { result ≡ place_in_file channels is_falling i }
{
    if is_falling { i } else { channels - 1 - i }
}

/// The marks of the channels that a mask text names, in the order of the file. `mask` was read from that text.
pub fn marks_in_file(
    alloc: Global,
    mask: &Mask,
    text: &[u8],
    observation: &Observation,
) -> Result<Vec<bool>, Memory>
    requires { IsMaskOf observation.now text.now mask.now }
    ensures marks { IfOk result (λ marks. marks.items ≡ marks_of text.now observation.now) }
    ensures long { IfOk result (λ marks. length marks.items ≡ observation.now.channels) }
{
    let channels = observation.channels();
    let mut marks = Vec::new(alloc);
    for i in 0..channels {
        marks.push(mask.masked(from_top(channels, observation.falling(), i)))?;
    }
    Ok(marks)
}
