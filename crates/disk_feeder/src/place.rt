//! Where a feeder is in its files, and what the headers of a transfer are judged by.
ghost use Rattle.std.specs.Prelude.{◌≡◌, ◌≤◌, ◌+◌, ◌^◌, MatchResult, None, IfErr};
ghost use Rattle.dada_model.specs.Fields.{fields_of};
ghost use Rattle.obs_plan.specs.Later.{later_offset_of};
ghost use Rattle.stream_model.specs.Walk.{offset_stop};
ghost use Rattle.disk_feeder.specs.Ends.{IsStop, NamesPlace, IsOfHeader};

use crate::answers::{FeedEnd, HeaderCause};
use dada_header::Header;
use obs_plan::{Observation, Profile};

/// Where a feeder is: in which transfer and in which file, whether that file is open, how many data bytes it read since
/// the transfer began, and how many in all.
#[derive(Clone, Copy)]
pub(crate) struct Place {
    pub(crate) transfer: usize,
    pub(crate) file: usize,
    pub(crate) is_open: bool,
    pub(crate) since: u64,
    pub(crate) total: u64,
}

/// What the headers of a transfer's files are judged by: the profile of its first header, and the first OBS_OFFSET.
#[derive(Clone, Copy)]
pub(crate) struct First {
    pub(crate) profile: Profile,
    pub(crate) offset: u64,
    ghost early: { offset ≤ 10 ^ 15 },
}

impl First {
    ghost use Rattle.obs_plan.specs.Later.{profile_of};

    /// What an observation says of it.
    pub(crate) fn of(observation: &Observation) -> First
        ensures profile { result.profile ≡ profile_of observation.now }
        ensures offset { result.offset ≡ observation.now.obs_offset }
    {
        observation.lies_in_range();
        First {
            profile: observation.profile(),
            offset: observation.obs_offset(),
        }
    }

    /// Judges the header of file `file`, which comes after `since` data bytes of its transfer.
    pub(crate) fn judge(&self, file: u32, since: u64, header: &Header) -> Result<(), FeedEnd>
        requires { since ≤ 2 ^ 48 }
        ensures judged { let stop = offset_stop file (self.now.offset + since)
            (later_offset_of self.now.profile (fields_of header.now.text)) in
            MatchResult result (λ _. stop ≡ None) (IsStop stop) }
        ensures kind { IfErr result IsOfHeader }
        ensures names { IfErr result (λ end. NamesPlace end file) }
    {
        let expected = self.offset + since;
        match self.profile.later_offset(header) {
            Err(fault) => Err(FeedEnd::BadHeader {
                file,
                cause: HeaderCause::Fields(fault),
            }),
            Ok(found) if found == expected => Ok(()),
            Ok(found) => Err(FeedEnd::Gap {
                file,
                expected,
                found,
            }),
        }
    }
}
