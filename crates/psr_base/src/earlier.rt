// Which files were read before the open one, and how far: clauses see it, and no byte holds it.
ghost use Rattle.std.specs.Prelude.{◌≡◌, List, [], ◌∷◌, ◌++◌};
ghost use Rattle.std.specs.Borrow.{ftrue};
ghost use Rattle.psr_base.specs.Told.{Reading, readings_code};
ghost use Rattle.psr_base.specs.Earlier.{with_one_more};

use std::marker::{Model, PhantomData};

/// The files that were read before, in order. It takes no memory, and its calls do nothing when they run.
#[derive(Drop)]
pub(crate) struct Earlier {
    marker: PhantomData<u8>,
    pub(crate) ghost files: { List Reading } by { readings_code },
}

impl Model for Earlier {
    ghost also_owns = { λ _. ftrue };
}

// It owns nothing, so it may be sent to another thread.
unsafe impl Send for Earlier {}

impl Earlier {
    pub(crate) fn none() -> Earlier
        ensures { result.files ≡ [] }
    {
        Earlier {
            marker: PhantomData,
        }
    }

    // `numbers` are the place, and 1 if the end was seen.
    fn note(&mut self, _numbers: &[u64], _name: &[u8])
        ensures { self.new.files ≡ with_one_more _name.now _numbers.now self.old.files }
    {}

    /// Adds a file that was read up to `place`. `ended` says whether its end was seen.
    pub(crate) fn add(&mut self, name: &str, place: usize, ended: bool)
        ensures { self.new.files
            ≡ self.old.files ++ record { name = name.now; place = place; ended = ended } ∷ [] }
    {
        self.note(&[place as u64, ended as u64], name.as_bytes());
    }
}
