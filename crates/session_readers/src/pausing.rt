//! A pause between two looks for a block.
use std::hint;

/// How often a pause tells the processor that a thread waits: together about a microsecond.
const HINTS: u32 = 20;

/// Waits for about a microsecond and keeps the core. A thread that lets others run has its core back only after some
/// milliseconds if other programs want it too.
pub fn pause() {
    for _ in 0..HINTS {
        hint::spin_loop();
    }
}
