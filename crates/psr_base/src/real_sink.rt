// The standard streams of the system. Nothing is told of what they take.
ghost use Rattle.std.specs.Prelude.{◌≡◌, ◌≤◌, length};

use crate::calls::Faults;
use crate::faults::Failed;
use crate::sink::Sink;

#[derive(Clone, Copy, Debug, PartialEq, Eq)]
enum Stream {
    Output,
    Notes,
}

/// The standard output or the standard error of the system. Each error of the system is a fault.
#[derive(Drop)]
pub struct RealSink<'a, R> {
    rt: &'a R,
    stream: Stream,
    faults: Faults,
}

impl<'a, R: Print + Eprint> RealSink<'a, R> {
    /// The standard output.
    pub fn out(rt: &'a R) -> RealSink<'a, R>
        ensures { (⟦<RealSink<'a, R> as Sink>⟧.seen result).faults ≡ 0 }
    {
        RealSink {
            rt,
            stream: Stream::Output,
            faults: Faults::none(),
        }
    }

    /// The standard error, which takes only UTF-8.
    pub fn notes(rt: &'a R) -> RealSink<'a, R>
        ensures { (⟦<RealSink<'a, R> as Sink>⟧.seen result).faults ≡ 0 }
    {
        RealSink {
            rt,
            stream: Stream::Notes,
            faults: Faults::none(),
        }
    }
}

impl<R: Print + Eprint> Sink for RealSink<'_, R> {
    ghost use Rattle.std.specs.Prelude.{None};

    ghost seen = { λ sink. record { written = None; room = None; faults = sink.faults.count } };

    fn write(&mut self, bytes: &[u8]) -> Result<usize, Failed> {
        if bytes.is_empty() {
            return Ok(0);
        }
        let taken = match self.stream {
            Stream::Output => print_bytes(self.rt, bytes),
            Stream::Notes => print_text(self.rt, bytes),
        };
        match taken {
            0 => Err(self.faults.fault()),
            n => Ok(n),
        }
    }
}

// How many of the bytes the standard output took: 0 also if it refused them.
fn print_bytes(rt: &impl Print, bytes: &[u8]) -> usize
    ensures { result ≤ length bytes.now }
{
    rt.write_some(bytes).unwrap_or(0)
}

// How many of the bytes the standard error took: all of them if they are UTF-8, or none.
fn print_text(rt: &impl Eprint, bytes: &[u8]) -> usize
    ensures { result ≤ length bytes.now }
{
    match str::from_utf8(bytes) {
        Ok(text) if rt.eprint(text).is_ok() => bytes.len(),
        _ => 0,
    }
}
