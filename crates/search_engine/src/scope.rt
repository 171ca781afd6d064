// The part of an observation that is searched.
ghost use Rattle.std.specs.Prelude.{◌≡◌};
ghost use Rattle.search_engine.specs.Scope.{Scope as Described, marks_of, scope_of_channels, scope_of_part, whole_scope};

use crate::hiding::Masked;
use shard_search::Sought;
use std::marker::Model;

/// The part of an observation that is searched: which channels are masked, how many cells a path sum of each delay adds
/// up, and which spectra and ends of pulses are searched.
#[derive(Drop)]
pub struct Scope {
    pub(crate) masked: Masked,
    pub(crate) sought: Sought,
    // the first spectrum that is searched, and the one before which the search ends
    pub(crate) first: u64,
    pub(crate) until: Option<u64>,
}

impl Model for Scope {
    ghost Value = { Described };

    ghost view = { λ s. record { masked = marks_of s.masked; sought = s.sought } };

    ghost invariant = { λ s. (s.first ≡ s.sought.first) × (s.until ≡ s.sought.until) };
}

impl Scope {
    /// The whole observation, of `channels` channels.
    pub fn whole(channels: u32) -> Scope
        ensures { result ≡ whole_scope channels }
    {
        Scope {
            masked: Masked::Nothing,
            sought: Sought::whole(channels),
            first: 0,
            until: None,
        }
    }

    /// The channels whose mark in `masked` is `false`; marks are in order, from the highest frequency down. `counts[d]`
    /// is how many of their cells a path sum of delay `d` adds up.
    pub fn of_channels(masked: Vec<bool>, counts: Vec<u32>) -> Scope
        ensures { result ≡ scope_of_channels masked.items counts.items }
    {
        Scope {
            masked: Masked::Marked(masked),
            sought: Sought::counted(counts),
            first: 0,
            until: None,
        }
    }

    /// The pulses that end from spectrum `place` up to, but without, spectrum `until`, in all of `channels` channels.
    /// The search reads the spectra from `first` on. All three count from the first spectrum of the observation.
    pub fn of_part(channels: u32, first: u64, place: u64, until: u64) -> Scope
        ensures { result ≡ scope_of_part channels first place until }
    {
        Scope {
            masked: Masked::Nothing,
            sought: Sought::of_part(channels, first, place, until),
            first,
            until: Some(until),
        }
    }
}
