//! Laws, as functions that do nothing when they run.
ghost use Rattle.dada_hdu.specs.Ended.{OrderIsEnough};

/// If a list has as many readers as both rings, each at the place of its number, it has all readers of both rings.
pub fn order_is_enough()
    ensures { OrderIsEnough }
{
    ring_ends::order_is_enough();
}
