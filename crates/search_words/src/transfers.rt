// The names of files, divided into transfers by the arguments `+`.
ghost use Rattle.std.specs.Prelude.{◌≡◌, not, map, count_by, string_bytes, IfOk, true};
ghost use Rattle.std.specs.List.{list_all};
ghost use Rattle.clap.specs.Walk.{texts};
ghost use Rattle.search_words.specs.Transfers.{is_plus as is_plus_of, file_names, transfers_in, starts_in, files_fit as files_fit_of, has_names};

use search_model::MOST_TRANSFERS;
use std::alloc::{AllocError, Global};

// The largest number of names.
const MOST_NAMES: usize = 65535;

// Whether an argument divides two transfers.
fn is_plus(word: &str) -> bool
    ensures { result ≡ is_plus_of word.now }
{
    word == "+"
}

// The number of names.
fn count_names(files: &[&str]) -> usize
    ensures { result ≡ count_by (λ word. not (is_plus_of word.now)) files.now }
{
    files.iter().filter(|word| !is_plus(word)).count()
}

// The number of arguments that divide transfers.
fn count_pluses(files: &[&str]) -> usize
    ensures { result ≡ count_by (λ word. is_plus_of word.now) files.now }
{
    files.iter().filter(|word| is_plus(word)).count()
}

// Whether each transfer has a name.
fn all_have_names(files: &[&str]) -> bool
    ensures { result ≡ list_all has_names (transfers_in (texts files.now)) }
{
    let mut has_name = false;
    for word in files {
        if !is_plus(word) {
            has_name = true;
        } else if has_name {
            has_name = false;
        } else {
            return false;
        }
    }
    has_name
}

/// Whether there are no more names and transfers than allowed, and each transfer has a name.
pub(crate) fn files_fit(files: &[&str]) -> bool
    ensures { result ≡ files_fit_of (texts files.now) }
{
    if count_names(files) > MOST_NAMES {
        return false;
    }
    if count_pluses(files) >= MOST_TRANSFERS {
        return false;
    }
    all_have_names(files)
}

/// The names of all transfers in one list, and for each transfer how many names stand before it.
pub(crate) fn part(alloc: Global, files: &[&str]) -> Result<(Vec<String>, Vec<u32>), AllocError>
    requires { files_fit_of (texts files.now) ≡ true }
    ensures { IfOk result (λ parts.
        (map string_bytes parts.0.items ≡ file_names (texts files.now))
        × (parts.1.items ≡ starts_in (texts files.now))) }
{
    let mut names = Vec::new(alloc);
    let mut starts = Vec::new(alloc);
    starts.push(0)?;
    for word in files {
        if is_plus(word) {
            starts.push(names.len() as u32)?;
        } else {
            names.push(String::from_str(alloc, word)?)?;
        }
    }
    Ok((names, starts))
}
