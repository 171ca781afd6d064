// Lines of arguments, and the settings that they give.
use psr_base::Memory;
use search_words::{RunSettings, Settings, WordFault};
use std::alloc::Global;

// The arguments of a search, divided by a space, and whether they are accepted, refused, or out of an option's range.
const SEARCHES: &str = "
--mean 1 --sd 2 a| accepted
a --mean 1 --sd 2| accepted
--sd=2 a --mean=1 b -- --c -| accepted
--mean 1 --sd 2 -| accepted
--mean 1 --sd 2 -- --| accepted
--mean 1 --sd 2 | accepted
--mean=-0.0004 --sd 0.0019 a| accepted
--mean 200000 --sd 200000 --snr 1000 a| accepted
--mean 0 --sd 0.001 --snr .01 a| accepted
--mean 1 --sd 2 --max-delay 0000000000000000001 a| accepted
--mean 1 --sd 2 --max-delay 5 --min-delay 5 a| accepted
--mean 1 --sd 2 a + b + c| accepted
--mean 1 --sd 2 a + b + c + d + e + f + g + h| accepted
--mean 1 --sd 2 --max-bytes 281474976710656 a| accepted
--mean 1 --sd 2 --file-size 1099511627776 --record a| accepted
--sd 2 a| refused
--mean 1 a| refused
--mean 1 --sd 2| refused
--mean 1 --sd 2 --snr| refused
--mean 1 --sd 2 --sd 2 a| refused
--mean -1 --sd 2 a| refused
--mean 1 --sd 2 --record=x a| refused
--mean 1 --sd 2 --record --record a| refused
--mean 1 --sd 2 --min 1 a| refused
--mean 1 --sd 2 -h a| refused
--mean 1 --sd 2 --help a| refused
--mean 1 --sd 2 --version a| refused
--mean 1 --sd 2 --snr 0 --unknown 1 a| refused
| refused
--mean= --sd 2 a| out of mean
--mean  --sd 2 a| out of mean
--mean=-1 --sd 2 a| out of mean
--mean 200000.001 --sd 2 a| out of mean
--mean 1e3 --sd 2 a| out of mean
--mean 10000000000000000000000000000000 --sd 2 a| out of mean
--mean 1 --sd 0.0009 a| out of sd
--mean 1 --sd 2 --snr 0 a| out of snr
--mean 1 --sd 2 --snr 1000.01 a| out of snr
--mean 1 --sd 0 --snr 0 --max-delay 8193 a| out of max-delay
--mean 1 --sd 2 --max-delay 00000000000000000001 a| out of max-delay
--mean 1 --sd 2 --max-delay +1 a| out of max-delay
--mean 1 --sd 2 --max-delay 1.0 a| out of max-delay
--mean 1 --sd 2 --min-delay 257 a| out of min-delay
--mean 1 --sd 2 --widths 3 a| out of widths
--mean 1 --sd 2 --fold-min 1 a| out of fold-min
--mean 1 --sd 2 --buffers 1 --size 0 a| out of buffers
--mean 1 --sd 2 --max-candidates 9999999999999999999 a| out of max-candidates
--mean 1 --sd 2 +| out of FILE
--mean 1 --sd 2 a + + b| out of FILE
--mean 1 --sd 2 a +| out of FILE
--mean 1 --sd 2 a + b + c + d + e + f + g + h + i| out of FILE
";

// The arguments of a recording, divided by a space, and whether they are accepted, refused, or out of an option's
// range.
const RECORDINGS: &str = "
a| accepted
--file-size 4 --max-bytes 0 --buffers 2 --size 1 a + b| accepted
--mean 1 --sd 2 a| refused
--record a| refused
--chunk 1 a| refused
--size 16777217 a| out of size
--hands 10 --turns 0 a| out of hands
+ a| out of FILE
";

// The words of a line, with a program's name in front.
fn words_of(alloc: Global, line: &str) -> Result<Vec<String>, Memory> {
    let mut words = Vec::new(alloc);
    words.push(String::from_str(alloc, "program")?)?;
    for word in line.split(' ') {
        words.push(String::from_str(alloc, word)?)?;
    }
    Ok(words)
}

// Why the arguments give no settings, of a search or of a recording, or none if they do.
fn fault_of(alloc: Global, line: &str, is_record: bool) -> Option<WordFault> {
    let Ok(words) = words_of(alloc, line) else {
        return Some(WordFault::Memory);
    };
    if is_record {
        return match RunSettings::of_record(alloc, words.as_slice()) {
            Ok(_) => None,
            Err(fault) => Some(fault),
        };
    }
    match Settings::of(alloc, words.as_slice()) {
        Ok(_) => None,
        Err(fault) => Some(fault),
    }
}

// Whether the arguments of a line are judged as the line says.
fn is_judged(alloc: Global, line: &str, is_record: bool) -> bool {
    let (words, wanted) = line.split_once('|').unwrap_or((line, ""));
    let wanted = wanted.trim();
    match fault_of(alloc, words, is_record) {
        None => wanted == "accepted",
        Some(WordFault::Refused) => wanted == "refused",
        Some(WordFault::OutOfRange(option)) => {
            wanted.strip_prefix("out of ") == Some(option.name())
        }
        Some(WordFault::Memory) => false,
    }
}

#[test]
fn words_are_judged(rt: HostRuntime) {
    for (lines, is_record) in [(SEARCHES, false), (RECORDINGS, true)] {
        for line in lines.lines() {
            assert!(rt;
                line.is_empty() || is_judged(rt.alloc(), line, is_record),
                "{line}"
            );
        }
    }
}

// ---- values

// Whether the search of settings has these values, some of which are the defaults.
fn is_search(settings: &Settings) -> bool {
    let search = &settings.search;
    let is_ruled = search.mean == 1500 && search.sd == 2000 && search.snr == 712;
    let is_wide = search.min_delay == 0 && search.max_delay == 256 && search.widest == 8;
    let is_folded = search.fold_min == 2 && search.fold_max == 0 && search.fold_rows == 6;
    let is_cut = search.fold_step == 64 && search.chunk == 1024 && search.shards == 1;
    is_ruled && is_wide && is_folded && is_cut && search.max_candidates == 65536
}

// Whether the session of settings has these values.
fn is_session(run: &RunSettings) -> bool {
    let is_shaped = run.buffers == 4 && run.size == 524288 && run.hands == 1;
    let is_long = run.file_size == 1073741824 && run.max_bytes == 1099511627776;
    is_shaped && is_long && run.recording && run.turns == 3
}

// Whether there are two files of one transfer and one of the next.
fn has_files(run: &RunSettings) -> bool {
    let are_named = match run.names.as_slice() {
        [a, b, c] => a.as_str() == "a" && b.as_str() == "b" && c.as_str() == "c",
        _ => false,
    };
    are_named && run.starts.as_slice() == [0, 2].as_slice()
}

// Whether the arguments of a search give all values.
fn are_values(alloc: Global) -> bool {
    let line = "--mean 1.5 --sd 2 --snr 7.129 --record a b + c --turns 3";
    let Ok(words) = words_of(alloc, line) else {
        return false;
    };
    match Settings::of(alloc, words.as_slice()) {
        Ok(settings) => {
            is_search(&settings) && is_session(&settings.run) && has_files(&settings.run)
        }
        Err(_) => false,
    }
}

// Whether the arguments of a recording give a size and otherwise the defaults, and ask for it.
fn are_defaults(alloc: Global) -> bool {
    let Ok(words) = words_of(alloc, "--size 4096 a") else {
        return false;
    };
    match RunSettings::of_record(alloc, words.as_slice()) {
        Ok(run) => run.recording && run.size == 4096 && run.buffers == 4 && run.hands == 1,
        Err(_) => false,
    }
}

#[test]
fn settings_are_the_values(rt: HostRuntime) {
    assert!(rt; are_values(rt.alloc()), "a search");
    assert!(rt; are_defaults(rt.alloc()), "a recording");
}
