// Blocks are lent to an object that keeps the last block of each of two parts.
ghost use Rattle.std.specs.Prelude.{◌≡◌, ◌<◌, ◌≤◌, length, take};

use crate::both::{Both, open, shape};
use dada_hdu::{BlockTaker, Mark, Taken};
use std::test::Fail;

#[derive(Clone, Copy, PartialEq, Eq, Debug)]
struct Kept {
    bytes: [u8; 8],
    used: usize,
    mark: Mark,
}

#[derive(Drop)]
struct Shelf {
    kept: [Kept; 2],
}

impl BlockTaker for Shelf {
    ghost use Rattle.std.specs.Prelude.{slice_set};
    ghost use Rattle.stream_tests.specs.declared.lending.Kept.{Kept};

    ghost can_take = { λ shelf part entry. (part < 2) × (length entry.bytes ≤ 8) };

    ghost took = { λ shelf part entry after. (kept : Kept)
        × (after.kept ≡ slice_set shelf.kept part kept)
        × (take kept.used kept.bytes ≡ entry.bytes) × (kept.mark ≡ entry.mark) };

    fn take(&mut self, part: usize, bytes: &[u8], mark: Mark) {
        self.kept[part] = keep(bytes, mark);
    }
}

fn keep(bytes: &[u8], mark: Mark) -> Kept
    requires { length bytes.now ≤ 8 }
    ensures bytes { take result.used result.bytes ≡ bytes.now }
    ensures mark { result.mark ≡ mark }
{
    let used = bytes.len();
    let mut space = [0; 8];
    space[..used].copy_from_slice(bytes);
    Kept {
        bytes: space,
        used,
        mark,
    }
}

impl Both {
    // Lends the next block to part `part`, if there is one, and clears it.
    fn lend(&mut self, shelf: &mut Shelf, part: usize) -> Option<Taken>
        requires { part < 2 }
    {
        let taken = self.hdu.read_to(&mut self.reader, shelf, part).ok()?;
        self.clear();
        Some(taken)
    }
}

#[test]
fn each_part_takes_the_block_that_it_was_lent(rt: HostRuntime) -> Result<(), Fail> {
    let mut both = open(rt.alloc(), shape(2, 100)).ok_or("memory")?;
    let none = Kept {
        bytes: [0; 8],
        used: 0,
        mark: Mark::Cut,
    };
    let mut shelf = Shelf { kept: [none; 2] };
    both.write(7);
    both.end();
    let full = both.lend(&mut shelf, 1);
    let last = both.lend(&mut shelf, 0);
    let wanted = [
        Kept {
            bytes: [1, 2, 0, 0, 0, 0, 0, 0],
            used: 2,
            mark: Mark::End,
        },
        Kept {
            bytes: [7; 8],
            used: 8,
            mark: Mark::More,
        },
    ];
    assert!(rt; shelf.kept == wanted && both.lend(&mut shelf, 0).is_none());
    assert!(rt;
        full.is_some_and(|taken| taken.block == 0 && taken.used == 8 && taken.mark == Mark::More)
    );
    assert!(rt;
        last.is_some_and(|taken| taken.block == 1 && taken.used == 2 && taken.mark == Mark::End)
    );
    Ok(())
}
