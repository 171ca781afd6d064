// What is borrowed for a lone run.
ghost use Rattle.std.specs.Prelude.{◌≡◌};

/// Inputs that were borrowed, and what was done with them.
pub(crate) struct Lent<'a, I, D> {
    pub(crate) inputs: &'a mut I,
    pub(crate) done: D,
}

/// Gives the inputs back.
pub(crate) fn give_back<'a, I, D>(lent: Lent<'a, I, D>) -> D
    ensures inputs { lent.exit.0.now ≡ lent.entry.inputs.now }
    ensures done { result ≡ lent.entry.done }
{
    let Lent { inputs: _, done } = lent;
    done
}
