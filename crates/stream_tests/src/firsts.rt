// What is read of the files of two transfers until a feeder has begun: their headers.
ghost use Rattle.std.specs.Prelude.{◌≡◌, length, map, string_bytes, [], ◌∷◌, false, IfSome};
ghost use Rattle.psr_base.specs.InMemory.{told_of};
ghost use Rattle.psr_base.specs.Told.{history};
ghost use Rattle.disk_feeder.specs.Filling.{HoldsAll};
ghost use Rattle.disk_feeder.specs.History.{file_name};

use crate::feeding::are_starts;
use crate::files::file_of;
use disk_feeder::FeederSpace;
use psr_base::MemInputs;
use std::alloc::Global;
use std::test::Fail;

// Each file is a transfer.
const STARTS: &[u32] = &[0, 1];

// Begins to feed two files in memory, and answers how many bytes were read of each. The inputs say so too: both were
// opened, in order, and read so far; no end was seen, and nothing else was opened.
fn begin_two(alloc: Global, inputs: &mut MemInputs, names: &[String]) -> Option<(usize, usize)>
    requires two { length names.now ≡ 2 }
    requires held { HoldsAll (told_of inputs.old) (map string_bytes names.now) }
    requires unread { history (told_of inputs.old) ≡ [] }
    ensures { let files = map string_bytes names.now in IfSome result (λ read.
        history (told_of inputs.new)
        ≡ record { name = file_name files 0; place = read.0; ended = false }
        ∷ record { name = file_name files 1; place = read.1; ended = false } ∷ []) }
{
    if !are_starts(STARTS, names.len()) {
        return None;
    }
    let Ok(mut space) = FeederSpace::reserve(alloc, names, STARTS, 1, 9) else {
        return None;
    };
    space.rests();
    match space.begin(inputs) {
        Ok(()) => {
            let first = space.header(0).bytes().len();
            let second = space.header(1).bytes().len();
            Some((first, second))
        }
        Err(_) => None,
    }
}

// Begins to feed a file with a header of 4096 bytes and one with a header of 8192, and answers how many bytes were read
// of each.
fn begin_both(alloc: Global) -> Result<Option<(usize, usize)>, Fail> {
    let mut inputs = MemInputs::open(alloc, &[])?;
    let six = file_of(alloc, "", 4096, "abcdef")?;
    inputs.put("six", six.as_slice())?;
    let long = file_of(alloc, "HDR_SIZE 8192", 8192, "uvw")?;
    inputs.put("long", long.as_slice())?;
    let names = [
        String::from_str(alloc, "six")?,
        String::from_str(alloc, "long")?,
    ];
    Ok(begin_two(alloc, &mut inputs, &names))
}

#[test]
fn a_feeder_begins_by_the_headers_alone(rt: HostRuntime) -> Result<(), Fail> {
    assert!(rt; begin_both(rt.alloc())? == Some((4096, 8192)));
    Ok(())
}
