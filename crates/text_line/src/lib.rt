//! A line of text that is put together in place, without an allocator.
#![tactic(auto)]

ghost use Rattle.std.specs.Prelude.{◌≡◌, ℕ, ◌+◌, ◌≤◌, List, [], ◌++◌, length, decimal};
ghost use Rattle.text_line.specs.declared.TheConstants.{ROOM};

use arrayvec::ArrayString;
use itoa::Buffer;
use std::marker::Model;

/// The largest number of bytes of a line.
pub const ROOM: usize = 256;

/// A line that is put together: up to `ROOM` bytes.
#[derive(Drop)]
pub struct Line {
    text: ArrayString<ROOM>,
}

impl Model for Line {
    ghost Value = { List ℕ };

    ghost view = { λ line. line.text.bytes };
}

impl Line {
    /// An empty line.
    pub fn new() -> Line
        ensures { result ≡ [] }
    {
        Line {
            text: ArrayString::new(),
        }
    }

    /// Appends a text, for which there must be room.
    pub fn push_str(&mut self, text: &str)
        requires { length self.old + length text.now ≤ ROOM }
        ensures { self.new ≡ self.old ++ text.now }
    {
        self.text.push_str(text);
    }

    /// Appends a number in decimal digits, which are at most 20.
    pub fn push_number(&mut self, number: u64)
        requires { length self.old + 20 ≤ ROOM }
        ensures text { self.new ≡ self.old ++ decimal number }
        ensures bound { length self.new ≤ length self.old + 20 }
    {
        let mut buffer = Buffer::new();
        self.text.push_str(buffer.format(number));
    }

    /// The bytes so far.
    pub fn as_bytes(&self) -> &[u8]
        ensures { result.now ≡ self.now }
    {
        self.text.as_str().as_bytes()
    }
}

impl Default for Line {
    fn default() -> Line {
        Line::new()
    }
}
