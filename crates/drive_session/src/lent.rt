// What is borrowed for a run.
ghost use Rattle.std.specs.Prelude.{◌≡◌};

/// Inputs and files that were borrowed, and the result of what was done with them.
pub(crate) struct Lent<'a, I, F, D> {
    pub(crate) inputs: &'a mut I,
    pub(crate) files: &'a mut F,
    pub(crate) done: D,
}

/// Gives back the inputs and the files, and returns the result.
pub(crate) fn give_back<'a, I, F, D>(lent: Lent<'a, I, F, D>) -> D
    ensures inputs { lent.exit.0.now ≡ lent.entry.inputs.now }
    ensures files { lent.exit.1.0.now ≡ lent.entry.files.now }
    ensures done { result ≡ lent.entry.done }
{
    let Lent {
        inputs: _,
        files: _,
        done,
    } = lent;
    done
}
