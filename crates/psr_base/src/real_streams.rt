// The descriptors of the standard streams.
use std::{fs, rt};

/// Keeps the descriptors 0, 1 and 2 occupied, so that no file that is opened later is taken for a standard stream that
/// was closed at the start. What is written to such a stream still fails.
#[derive(Drop)]
pub struct TakenStreams<F> {
    files: (Option<F>, Option<F>, Option<F>),
}

impl<F: Drop> TakenStreams<F> {
    /// Opens `/dev/null` for reading three times. If it can't be opened, nothing is occupied. If no stream is closed,
    /// three other descriptors are.
    pub fn take<R: rt::Files<File = F>>(rt: &R) -> TakenStreams<F> {
        TakenStreams {
            files: (null(rt), null(rt), null(rt)),
        }
    }
}

fn null<R: rt::Files>(rt: &R) -> Option<R::File> {
    fs::open(rt, "/dev/null").ok()
}
