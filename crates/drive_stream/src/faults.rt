//! Why a program does not open, begin or finish a stream.

/// Why a program does not open a stream: a refusal of its own, or want of memory.
#[derive(Clone, Copy, Debug, PartialEq, Eq)]
pub enum OpenFault<F> {
    Refused(F),
    Memory,
}

/// Why a program does not finish a stream whose data all came: a refusal of its own, or a fault of the output.
#[derive(Clone, Copy, Debug, PartialEq, Eq)]
pub enum FinishFault<F> {
    Refused(F),
    Failed,
}
