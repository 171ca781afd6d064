//! What a feeder seals next.
use crate::answers::FeedEnd;

/// What is sealed next.
#[derive(Clone, Copy)]
pub(crate) enum Due {
    /// A full block.
    Full,
    /// The rest of a transfer's data.
    Last,
    /// Nothing more: the stream ends early.
    Stopped(FeedEnd),
}
