//! What is called at each turn.

/// Called at the start of each turn of an actor: 0 is the feeder, 1 to 7 are the shards in order, and 8 is the
/// recorder. `turn` counts the turns of that actor, from 0 on.
pub trait Gate {
    /// Called at the start of turn `turn` of actor `actor`.
    fn pass(&self, actor: u32, turn: u64);
}

/// A gate that does nothing.
#[derive(Clone, Copy, Drop)]
pub struct NoGate;

impl Gate for NoGate {
    fn pass(&self, _actor: u32, _turn: u64) {}
}
