//! Laws, as functions that do nothing when they run.
ghost use Rattle.ring_ends.specs.Ended.{OrderIsEnough};

/// If a list has as many readers as the ring, each at the place of its number, it has all readers of the ring.
pub fn order_is_enough()
    ensures { OrderIsEnough }
{}
