// Laws of the definitions, which the contracts of functions that do nothing carry. A caller whose proof needs a law
// calls its function.
ghost use Rattle.search_model.specs.Laws.{SplitsFit, HalvesJoin, HasOnePath, PathsRise, CellsAreCounted, TestsDetection, DetectionRises};
ghost use Rattle.search_model.specs.SampleLaws.{SamplesOfBytes};
ghost use Rattle.search_model.specs.SubbandLaws.{HalvesAdd, OneChannelAdds, OneChannelIsItsSample, TimeShifts, NothingBefore, WholeBandIsPathSum, SplitsStep, LatePathSums, SumsAreBounded};
ghost use Rattle.search_model.specs.CandidateLaws.{CandidatesAreListed, CandidatesRise, OrderIsStrict, RisingListsAgree, ShardsMerge, OneShardIsAll, CellsAgree};
ghost use Rattle.search_model.specs.DelayRanges.{RangesMerge};
ghost use Rattle.search_model.specs.Parts.{PartsNeedNoMore, PartsJoin};
ghost use Rattle.search_model.specs.MaskLaws.{PathSumsCountCells, PlainIsUnmasked};

/// Each half of a band gets at most the delay of the whole band.
pub fn splits_fit()
    ensures { SplitsFit }
{}

/// The delays of the two halves of a band, joined, are those of the whole band.
pub fn halves_join()
    ensures { HalvesJoin }
{}

/// A delay path as it is defined exists, and there is only one.
pub fn has_one_path()
    ensures { HasOnePath }
{}

/// A delay path never falls from one edge to the next one down the band.
pub fn paths_rise()
    ensures { PathsRise }
{}

/// A path sum of delay `d` over `n` channels adds `n + d` cells.
pub fn cells_are_counted()
    ensures { CellsAreCounted }
{}

/// The test that the candidate list is made with is the detection rule.
pub fn tests_detection()
    ensures { TestsDetection }
{}

/// A sum at least as great as a detected one of the same number of cells is detected too.
pub fn detection_rises()
    ensures { DetectionRises }
{}

/// The candidate list has exactly the boxes and folds that are searched and detected.
pub fn candidates_are_listed()
    ensures { CandidatesAreListed }
{}

/// The candidate list is sorted in the order of candidates, and has no candidate twice.
pub fn candidates_rise()
    ensures { CandidatesRise }
{}

/// The order of candidates is strict, and of two candidates one comes first or they have the same delay.
pub fn order_is_strict()
    ensures { OrderIsStrict }
{}

/// Two rising lists with the same members are equal, and lists have at most one merge.
pub fn rising_lists_agree()
    ensures { RisingListsAgree }
{}

/// The lists of all shards, merged, are the candidate list.
pub fn shards_merge()
    ensures { ShardsMerge }
{}

/// If there is only one shard, its list is the whole candidate list.
pub fn one_shard_is_all()
    ensures { OneShardIsAll }
{}

/// Two candidate lists are equal if the cells of each searched delay are the same.
pub fn cells_agree()
    ensures { CellsAgree }
{}

/// If neighbouring ranges of delays fold the same delays, their candidate lists, merged, are the candidate list of the
/// whole range.
pub fn ranges_merge()
    ensures { RangesMerge }
{}

/// The pulses that end at or after a spectrum can be found without any data further before it than the longest delay
/// and the widest box together.
pub fn parts_need_no_more()
    ensures { PartsNeedNoMore }
{}

/// The outputs of the parts of a file, one after another and each but the last without its last lines, are the output
/// of the whole file.
pub fn parts_join()
    ensures { PartsJoin }
{}

/// A path sum over data that are 1 in all kept channels and 0 in all others counts the cells that are kept.
pub fn path_sums_count_cells()
    ensures { PathSumsCountCells }
{}

/// If all channels are kept, the search is the one without a mask.
pub fn plain_is_unmasked()
    ensures { PlainIsUnmasked }
{}

/// The sum over a part of the band is the sum over its upper half plus the sum over its lower half.
pub fn halves_add()
    ensures { HalvesAdd }
{}

/// In a single channel, each spectrum of delay adds one sample to the sum.
pub fn one_channel_adds()
    ensures { OneChannelAdds }
{}

/// The sum over a single channel without a delay is the sample.
pub fn one_channel_is_its_sample()
    ensures { OneChannelIsItsSample }
{}

/// A sum doesn't change if it ends some spectra earlier and is taken that many spectra late.
pub fn time_shifts()
    ensures { TimeShifts }
{}

/// Sums that end before the first spectrum are 0.
pub fn nothing_before()
    ensures { NothingBefore }
{}

/// The sum over the whole band is the path sum.
pub fn whole_band_is_path_sum()
    ensures { WholeBandIsPathSum }
{}

/// If a delay grows by one spectrum, the delay of each half of the band stays or grows by one spectrum.
pub fn splits_step()
    ensures { SplitsStep }
{}

/// A path sum that is taken `k` spectra before `u` is the one that ends at `u - k`, or 0 if that is before the first
/// spectrum.
pub fn late_path_sums()
    ensures { LatePathSums }
{}

/// A path sum or box sum is at most the number of its cells times the greatest sample.
pub fn sums_are_bounded()
    ensures { SumsAreBounded }
{}

/// Bytes of 8 bits and one polarisation are the samples themselves, and bytes that follow change no sample.
pub fn samples_of_bytes()
    ensures { SamplesOfBytes }
{}
