//! Definitions of what a search prints: samples, delay paths, sums, folds, detection, candidates and their text.
//!
//! The definitions stand in `specs/`. `Search`, the settings of a search, and `Candidate` are plain data that every
//! layer shares. The functions of `laws` carry laws of the definitions and do nothing when they run.
#![tactic(auto)]

mod candidate;
mod laws;
mod search;

pub use candidate::Candidate;
pub use laws::{
    candidates_are_listed, candidates_rise, cells_agree, cells_are_counted, detection_rises,
    halves_add, halves_join, has_one_path, late_path_sums, nothing_before, one_channel_adds,
    one_channel_is_its_sample, one_shard_is_all, order_is_strict, parts_join, parts_need_no_more,
    path_sums_count_cells, paths_rise, plain_is_unmasked, ranges_merge, rising_lists_agree,
    samples_of_bytes, shards_merge, splits_fit, splits_step, sums_are_bounded, tests_detection,
    time_shifts, whole_band_is_path_sum,
};
pub use search::{MOST_DELAY, MOST_SHARDS, MOST_TRANSFERS, Search};
