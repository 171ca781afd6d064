// Plans that are refused.
use crate::made::{TWO_CHANNELS, fields_of, observation};
use search_engine::{PlanFault, check_plan};
use search_model::Search;
use std::alloc::Global;

const MOST_CHANNELS: &str = "HDR_SIZE 4096
NCHAN 4096
NBIT 8
TSAMP 64
FREQ 1382
BW -400
";

const WIDE_SAMPLES: &str = "HDR_SIZE 4096
NCHAN 1024
NBIT 16
NPOL 2
TSAMP 64
FREQ 1382
BW -400
";

// A search with narrow boxes and no folds.
const SEARCH: Search = Search {
    min_delay: 0,
    max_delay: 1,
    widest: 1,
    fold_min: 2,
    fold_max: 2,
    fold_rows: 1,
    fold_step: 1,
    chunk: 256,
    shards: 1,
    max_candidates: 1,
    mean: 1000,
    sd: 1000,
    snr: 100,
};

// On each line: the header; the settings that differ from those of `SEARCH`; and the first refusal of the plan.
const PLANS: &str = "
two | | planned
most | max_delay 8192, fold_rows 12, fold_step 8192 | sum_bound 255 12288 4096
wide | max_delay 512, widest 32 | sum_bound 131070 1536 32
two | fold_max 1048576, fold_rows 3 | fold_too_large 1048576 3
two | max_delay 64 | too_many_folds 65
two | shards 3 | too_many_shards 3 2
";

fn lines_of(header: &str) -> &'static str {
    match header {
        "two" => TWO_CHANNELS,
        "most" => MOST_CHANNELS,
        _ => WIDE_SAMPLES,
    }
}

// The search with settings such as `max_delay 512, widest 32`, or `None` if there is another name.
fn search_of(settings: &'static str) -> Option<Search> {
    let mut search = SEARCH;
    for setting in settings.split(',') {
        let (name, number) = setting.trim().split_once(' ').unwrap_or(("", "0"));
        let number = number.parse::<u32>().ok()?;
        match name {
            "" => {}
            "max_delay" => search.max_delay = number,
            "widest" => search.widest = number,
            "fold_max" => search.fold_max = number,
            "fold_rows" => search.fold_rows = number,
            "fold_step" => search.fold_step = number,
            "shards" => search.shards = number,
            _ => return None,
        }
    }
    Some(search)
}

// The answer about a plan, as its name and its numbers.
fn answer_of(answer: Result<(), PlanFault>) -> (&'static str, [u32; 3]) {
    match answer {
        Ok(()) => ("planned", [0, 0, 0]),
        Err(
            PlanFault::SumBound {
                max_sample,
                cells,
                factor,
            },
        ) => ("sum_bound", [max_sample, cells, factor]),
        Err(PlanFault::FoldTooLarge { pmax, mmax }) => ("fold_too_large", [pmax, mmax, 0]),
        Err(PlanFault::TooManyFolds { count }) => ("too_many_folds", [count, 0, 0]),
        Err(PlanFault::TooManyShards { count, delays }) => ("too_many_shards", [count, delays, 0]),
        Err(PlanFault::Memory) => ("memory", [0, 0, 0]),
    }
}

// Whether an answer is the one that a text such as `too_many_shards 3 2` means.
fn is_wanted(answer: Result<(), PlanFault>, wanted: &'static str) -> bool {
    let (word, numbers) = answer_of(answer);
    let mut words = wanted.split_whitespace();
    if words.next() != Some(word) {
        return false;
    }
    for number in numbers {
        if words.next().unwrap_or("0").parse::<u32>() != Ok(number) {
            return false;
        }
    }
    true
}

// Whether the plan of a line gets the answer of the line.
fn is_met(alloc: Global, line: &'static str) -> bool {
    let [header, settings, wanted] = fields_of(line);
    let Some(observation) = observation(alloc, lines_of(header)) else {
        return false;
    };
    let Some(search) = search_of(settings) else {
        return false;
    };
    search.in_range() && is_wanted(check_plan(&observation, &search), wanted)
}

#[test]
fn the_first_refusal_of_a_plan(rt: HostRuntime) {
    for line in PLANS.lines() {
        assert!(rt; line.is_empty() || is_met(rt.alloc(), line), "{line}");
    }
}
