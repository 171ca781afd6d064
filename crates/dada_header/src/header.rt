// Headers: their size and their text, in a space that has room for the largest header.
ghost use Rattle.std.specs.Prelude.{◌≡◌, ◌≢◌, ℕ, ◌-◌, ◌<◌, ◌≤◌, List, [], ◌++◌, All, length, take, replicate, Ok, Err, Some, None, OnOk, IfOk, IfErr, option_copied, codes, position, ◌==◌};
ghost use Rattle.dada_model.specs.Fields.{least_header, most_header, HeaderText, fields_of, value_of, before_nul, header_size, header_of, header_bytes, is_above_ascii, allowed_size};
ghost use Rattle.dada_model.specs.Number.{number_value};
ghost use Rattle.dada_model.specs.Change.{IsWord};
ghost use Rattle.dada_model.specs.ChangeLaws.{StaysInPlace};
ghost use Rattle.dada_header.specs.Space.{header_in, IsHeaderSpace};
ghost use Rattle.dada_header.specs.Changes.{IsSet, IsOverfull};
ghost use Rattle.dada_header.specs.Faults.{IsSizeRefusal, IsHeaderRefusal, ExplainsHeader};

use crate::change::{edit, plan};
use crate::faults::{HeaderFault, SetFault};
use crate::words::Place;
// Laws: they do nothing when they run, and the proofs use what they ensure.
use dada_model::{
    blank_is_read_back, change_gives_value, change_keeps_others, change_stays_in_place,
    changed_is_read_back, headers_are_read_back, headers_are_text, headers_by_front,
};
use psr_base::{Fixed, Memory};
use std::alloc::{AllocError, Global};
use std::marker::Model;
use std::str;

/// The smallest size of a header, and its size if it has no HDR_SIZE.
const LEAST: usize = 4096;

/// The largest size of a header. Each header has this much space.
const MOST: usize = 65536;

/// A header: a size in bytes, and a text in ASCII without NUL that is at most as long.
#[derive(Drop)]
pub struct Header {
    space: Vec<u8>,
    len: usize,
    size: usize,
}

impl Model for Header {
    ghost Value = { HeaderText };

    ghost view = { λ header. header_in header.space.items header.len header.size };

    ghost invariant = { λ header. IsHeaderSpace header.space.items header.len header.size };
}

// The place of the first NUL.
fn first_nul(bytes: &[u8]) -> Option<usize>
    ensures { result ≡ position (λ byte. byte == 0) bytes.now }
{
    bytes.iter().position(|byte| *byte == 0)
}

// The bytes before the first NUL, or all bytes if there is none.
fn before_nul_of(bytes: &[u8]) -> &[u8]
    ensures { result.now ≡ before_nul bytes.now }
{
    match first_nul(bytes) {
        Some(end) => &bytes[..end],
        None => bytes,
    }
}

// The size that a value of HDR_SIZE gives, if it is one.
fn size_in(value: &[u8]) -> Option<usize>
    ensures { result ≡ allowed_size (number_value 0 value.now) }
{
    let size = Fixed::read(value, 0).ok()?;
    if LEAST as i64 <= size && size <= MOST as i64 {
        Some(size as usize)
    } else {
        None
    }
}

// The place of the first byte above 127.
fn first_above_ascii(bytes: &[u8]) -> Option<usize>
    ensures { result ≡ position is_above_ascii bytes.now }
{
    bytes.iter().position(|byte| *byte > 127)
}

// The text of a header of a known size.
fn text_of(bytes: &[u8], size: usize) -> Result<&[u8], HeaderFault>
    requires long { least_header ≤ length bytes.now }
    requires size { header_size bytes.now ≡ Some size }
    ensures ok { IfOk result (λ text.
        header_of bytes.now ≡ Ok (record { size = size; text = text.now })) }
    ensures len { IfOk result (λ text. length text.now ≤ size) }
    ensures fault { IfErr result (IsHeaderRefusal bytes.now) }
{
    if bytes.len() < size {
        return Err(HeaderFault::Short { had: bytes.len() });
    }
    let text = before_nul_of(&bytes[..size]);
    match first_above_ascii(text) {
        Some(place) => Err(HeaderFault::NotText { place }),
        None => Ok(text),
    }
}

// `len` zeros.
fn zeros(alloc: Global, len: usize) -> Result<Vec<u8>, AllocError>
    ensures len { IfOk result (λ zeros. length zeros.items ≡ len) }
    ensures zero { IfOk result (λ zeros. zeros.items ≡ replicate (length zeros.items) 0) }
{
    Vec::from_elem(alloc, 0, len)
}

// Writes a text into a space, and NUL after it up to `size`.
fn write_text(space: &mut [u8], text: &[u8], size: usize)
    requires fits { length text.now ≤ size }
    requires room { size ≤ length space.old }
    ensures { take size space.new ≡ text.now ++ replicate (size - length text.now) 0 }
{
    space[..text.len()].copy_from_slice(text);
    space[text.len()..size].fill(0);
}

// ASCII bytes as a text. It never fails for them.
fn ascii_text(bytes: &[u8]) -> Option<&str>
    requires { All (λ byte. byte < 128) bytes.now }
    ensures { option_copied result ≡ Some bytes.now }
{
    match str::from_utf8(bytes) {
        Ok(text) => Some(text),
        Err(_) => None,
    }
}

impl Header {
    /// A header of 4096 bytes with an empty text.
    pub fn blank(alloc: Global) -> Result<Header, Memory>
        ensures { IfOk result (λ header. header ≡ record { size = least_header; text = [] }) }
    {
        blank_is_read_back();
        let space = zeros(alloc, MOST)?;
        Ok(Header {
            space,
            len: 0,
            size: LEAST,
        })
    }

    /// The size in bytes of the header that `first` begins with: the value of HDR_SIZE in its first 4096 bytes, or 4096
    /// if there is no HDR_SIZE. `first` may be shorter than the header.
    pub fn size_of(first: &[u8]) -> Result<usize, HeaderFault>
        ensures ok { IfOk result (λ size. header_size first.now ≡ Some size) }
        ensures long { OnOk result (least_header ≤ length first.now) }
        ensures range { IfOk result (λ size. (least_header ≤ size) × (size ≤ most_header)) }
        ensures fault { IfErr result (IsSizeRefusal first.now) }
    {
        if first.len() < LEAST {
            return Err(HeaderFault::Short { had: first.len() });
        }
        let text = before_nul_of(&first[..LEAST]);
        match Place::of_first_value(text, b"HDR_SIZE") {
            None => Ok(LEAST),
            Some(place) => match size_in(&text[place.start..place.end]) {
                Some(size) => Ok(size),
                None => Err(HeaderFault::BadSize),
            },
        }
    }

    /// Reads the header that `bytes` begin with. Bytes past its size are ignored.
    pub fn read(alloc: Global, bytes: &[u8]) -> Result<Header, HeaderFault>
        ensures ok { IfOk result (λ header. header_of bytes.now ≡ Ok header) }
        ensures front { IfOk result (λ header. (file : List ℕ)
            → take header.size file ≡ take header.size bytes.now → header_of file ≡ Ok header) }
        ensures fault { IfErr result (ExplainsHeader bytes.now) }
    {
        headers_by_front();
        let mut header = Header::blank(alloc)?;
        header.read_again(bytes)?;
        Ok(header)
    }

    /// Reads a header in place of this one. If the bytes are refused, this header stays as it was. It takes no memory,
    /// and never answers `Memory`.
    pub fn read_again(&mut self, bytes: &[u8]) -> Result<(), HeaderFault>
        ensures ok { OnOk result (header_of bytes.now ≡ Ok self.new) }
        ensures fault { IfErr result (λ fault.
            IsHeaderRefusal bytes.now fault × (self.new ≡ self.old)) }
    {
        headers_are_read_back();
        headers_are_text();
        let size = match Header::size_of(bytes) {
            Ok(size) => size,
            Err(fault) => return Err(fault),
        };
        let text = match text_of(bytes, size) {
            Ok(text) => text,
            Err(fault) => return Err(fault),
        };
        write_text(self.space.as_mut_slice(), text, size);
        self.len = text.len();
        self.size = size;
        Ok(())
    }

    /// Makes this header equal to `other`.
    pub fn copy_from(&mut self, other: &Header)
        ensures { self.new ≡ other.now }
    {
        self.space.copy_from_slice(&other.space);
        self.len = other.len;
        self.size = other.size;
    }

    /// The value of a keyword: that of the first field with the keyword.
    pub fn get(&self, key: &str) -> Option<&str>
        ensures { option_copied result ≡ value_of key.now (fields_of self.now.text) }
    {
        headers_are_text();
        let text = &self.space[..self.len];
        let Some(place) = Place::of_first_value(text, key.as_bytes()) else {
            return None;
        };
        ascii_text(&text[place.start..place.end])
    }

    /// Gives a keyword a new value. If the value of its first field is at least as long, the new one overwrites it.
    /// Otherwise each field with the keyword becomes blank, and a line with the new value is appended. No other byte of
    /// the text moves.
    ///
    /// `key` and `value` are words of graphic ASCII without `#`, and `key` isn't HDR_SIZE. After a fault the header is
    /// as it was.
    pub fn set(&mut self, key: &str, value: &str) -> Result<(), SetFault>
        requires key { IsWord key.now }
        requires value { IsWord value.now }
        requires other_than_size { key.now ≢ codes "HDR_SIZE" }
        ensures ok { OnOk result (IsSet key.now value.now self.old self.new) }
        ensures full { IfErr result (λ fault.
            IsOverfull key.now value.now self.old fault × (self.new ≡ self.old)) }
        ensures value { OnOk result (value_of key.now (fields_of self.new.text) ≡ Some value.now) }
        ensures others { OnOk result ((other : List ℕ) → other ≢ key.now
            → value_of other (fields_of self.new.text) ≡ value_of other (fields_of self.old.text)) }
        ensures places { OnOk result (StaysInPlace key.now self.old.text self.new.text) }
    {
        change_gives_value();
        change_keeps_others();
        change_stays_in_place();
        changed_is_read_back();
        headers_are_text();
        let (key, value) = (key.as_bytes(), value.as_bytes());
        let (overwritten, need) = plan(&self.space[..self.len], key, value);
        if need >= self.size {
            return Err(SetFault::Overfull {
                need,
                size: self.size,
            });
        }
        let space = self.space.as_mut_slice();
        self.len = edit(space, self.len, overwritten, key, value);
        Ok(())
    }

    /// The size in bytes, from 4096 to 65536.
    pub fn size(&self) -> usize
        ensures size { result ≡ self.now.size }
        ensures least { least_header ≤ result }
        ensures most { result ≤ most_header }
    {
        self.size
    }

    /// The bytes of the header: its text, padded with NUL to its size. They are read back as this header.
    pub fn bytes(&self) -> &[u8]
        ensures bytes { result.now ≡ header_bytes self.now }
        ensures len { length result.now ≡ self.now.size }
        ensures read_back { header_of result.now ≡ Ok self.now }
    {
        &self.space[..self.size]
    }
}
