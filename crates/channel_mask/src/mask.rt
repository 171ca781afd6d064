// The mask of an observation.
ghost use Rattle.std.specs.Prelude.{◌≡◌, ◌<◌, Bool, List, length, map, IfErr, IfOk};
ghost use Rattle.std.specs.List.{list_all, range_with_len};
ghost use Rattle.channel_mask.specs.Masks.{place_in_file as place_of_channel, is_masked, IsMaskOf, ExplainsMask};
ghost use Rattle.channel_mask.specs.Ranges.{mark_of};

use crate::fault::MaskFault;
use crate::front::stop;
use crate::ranges::{ChannelRange, are_naming, first_outside, ranges};
use obs_plan::Observation;
use std::alloc::{AllocError, Global};
use std::marker::Model;

/// The masked channels of an observation. A clause sees a mask as a list of marks, one for each channel, the highest
/// frequency first.
#[derive(Drop)]
pub struct Mask {
    pub(crate) masked: Vec<bool>,
}

impl Model for Mask {
    ghost use Rattle.std.specs.Prelude.{Bool, List};

    ghost Value = { List Bool };

    ghost view = { λ mask. mask.masked.items };
}

impl Mask {
    /// Reads a mask text for an observation: `none`, or items with commas between them. An item is a channel, or two
    /// channels with a hyphen between them, which stand for all from the one to the other. Channels count from 0 in the
    /// order of the file.
    pub fn read(alloc: Global, text: &[u8], obs: &Observation) -> Result<Mask, MaskFault>
        ensures ok { IfOk result (IsMaskOf obs.now text.now) }
        ensures fault { IfErr result (ExplainsMask obs.now text.now) }
    {
        if let Some(place) = stop(text) {
            return Err(MaskFault::BadMask { place });
        }
        let channels = obs.channels();
        let ranges = ranges(alloc, text)?;
        if let Some(channel) = first_outside(ranges.as_slice(), channels) {
            return Err(MaskFault::OutOfRange { channel, channels });
        }
        let masked = marks(alloc, ranges.as_slice(), channels, obs.falling())?;
        if are_all(masked.as_slice()) {
            return Err(MaskFault::AllMasked);
        }
        Ok(Mask { masked })
    }

    /// Whether channel `c` is masked. `c` counts from the highest frequency; if the frequency of the file's channels
    /// rises, that is from the end of the file's order.
    pub fn masked(&self, c: u32) -> bool
        requires { c < length self.now }
        ensures { result ≡ is_masked self.now c }
    {
        self.masked[c as usize]
    }
}

// The place in the order of the file of channel `c`, which counts from the highest frequency.
fn place_in_file(channels: u32, is_falling: bool, c: u32) -> u32
    requires { c < channels }
    ensures { result ≡ place_of_channel channels is_falling c }
{
    if is_falling { c } else { channels - 1 - c }
}

// The marks of `channels` channels, the highest frequency first. The ranges count channels in the order of the file.
fn marks(
    alloc: Global,
    ranges: &[ChannelRange],
    channels: u32,
    is_falling: bool,
) -> Result<Vec<bool>, AllocError>
    ensures { IfOk result (λ marks.
        marks.items ≡ map (mark_of ranges.now channels is_falling) (range_with_len 0 channels)) }
{
    let mut marks = Vec::new(alloc);
    for c in 0..channels {
        marks.push(are_naming(ranges, place_in_file(channels, is_falling, c)))?;
    }
    Ok(marks)
}

// Whether all channels are marked.
fn are_all(marks: &[bool]) -> bool
    ensures { result ≡ list_all (λ mark. mark) marks.now }
{
    marks.iter().all(|mark| *mark)
}
