//! How the data of an observation go through a ring, as streams of marked blocks, and which data the files of a stream
//! give. All definitions are about data alone.
//!
//! They are in `specs/`: `Blocks`, `Walk` and `Recorded`; laws about them are in `BlockLaws`, `WalkLaws` and
//! `RecordedLaws`.
#![tactic(auto)]

mod block_laws;
mod recorded_laws;
mod walk_laws;

pub use block_laws::{
    bytes_are_joined, ends_are_counted, entries_are_of_transfers, streams_are_short, streams_begin,
    streams_grow, streams_have_transfers, streams_stop_once,
};
pub use recorded_laws::{
    changes_stay_alike, each_header_has_room, headers_keep_observation, headers_keep_values,
    recorded_files_give_the_data, recorded_transfers_give_the_data,
};
pub use walk_laws::{
    accepted_is_later, data_grow, data_join, data_none, files_are_in_transfers,
    first_files_continue, first_stop_counts, headers_continue, no_stop_is_whole, one_transfer_more,
    transfers_join, walk_joins_data, whole_exactly,
};
