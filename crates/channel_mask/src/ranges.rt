// Reads the items of a mask text as ranges of channels.
ghost use Rattle.std.specs.Prelude.{◌≡◌, ◌==◌, ◌<◌, [], ◌∷◌, true, length, map, find, nat_le, codes, IfOk, IfSome, IfNone};
ghost use Rattle.std.specs.List.{flat_map, list_any, position, slice_split};
ghost use Rattle.std.specs.Str.{bytes_eq};
ghost use Rattle.std.specs.Str.Parse.{digits_value};
ghost use Rattle.channel_mask.specs.Texts.{is_mask_text, is_item, is_number, items_of};
ghost use Rattle.channel_mask.specs.Ranges.{range_of as range_of_item, ends_of, has_channel};

use std::alloc::{AllocError, Global};

// The channels from one number to the other, both included. Either may be the greater one.
#[derive(Clone, Copy)]
pub(crate) struct ChannelRange {
    from: u32,
    to: u32,
}

impl ChannelRange {
    // Whether the range contains a channel.
    fn has(&self, channel: u32) -> bool
        ensures { result ≡ has_channel self.now channel }
    {
        (self.from <= channel && channel <= self.to) || (self.to <= channel && channel <= self.from)
    }
}

// The number that 1 to 9 decimal digits write.
fn number(digits: &[u8]) -> u32
    requires { is_number digits.now ≡ true }
    ensures { result ≡ digits_value 10 digits.now }
{
    let mut number = 0;
    for digit in digits {
        number = number * 10 + u32::from(*digit - b'0');
    }
    number
}

// The place of the first `byte` in a text, or `None`.
fn place_of(byte: u8, text: &[u8]) -> Option<usize>
    ensures place { result ≡ position (λ b. b == byte) text.now }
    ensures within { IfSome result (λ at. at < length text.now) }
{
    text.iter().position(|b| *b == byte)
}

// The text before the first `byte`, and the text behind it; `None` if there is no such byte.
fn split_at_first(byte: u8, text: &[u8]) -> Option<(&[u8], &[u8])>
    ensures some { IfSome result (λ parts. slice_split (λ b. b == byte) text.now
        ≡ parts.0.now ∷ slice_split (λ b. b == byte) parts.1.now) }
    ensures shorter { IfSome result (λ parts. length parts.1.now < length text.now) }
    ensures none { IfNone result (slice_split (λ b. b == byte) text.now ≡ text.now ∷ []) }
{
    match place_of(byte, text) {
        Some(at) => Some((&text[..at], &text[at + 1..])),
        None => None,
    }
}

// The range of an item.
fn range(item: &[u8]) -> ChannelRange
    requires { is_item item.now ≡ true }
    ensures { result ≡ range_of_item item.now }
{
    match split_at_first(b'-', item) {
        Some((first, second)) => ChannelRange {
            from: number(first),
            to: number(second),
        },
        None => {
            let only = number(item);
            ChannelRange {
                from: only,
                to: only,
            }
        }
    }
}

// Whether a text is `none`.
fn is_none(text: &[u8]) -> bool
    ensures { result ≡ bytes_eq text.now (codes "none") }
{
    text == b"none".as_slice()
}

/// The ranges of all items of a mask text.
pub(crate) fn ranges(alloc: Global, text: &[u8]) -> Result<Vec<ChannelRange>, AllocError>
    requires { is_mask_text text.now ≡ true }
    ensures { IfOk result (λ ranges. ranges.items ≡ map range_of_item (items_of text.now)) }
{
    let mut ranges = Vec::new(alloc);
    if is_none(text) {
        return Ok(ranges);
    }
    let mut rest = text;
    while let Some((item, behind)) = split_at_first(b',', rest) {
        ranges.push(range(item))?;
        rest = behind;
    }
    ranges.push(range(rest))?;
    Ok(ranges)
}

/// The first number of the ranges that is not below `channels`, or `None`.
pub(crate) fn first_outside(ranges: &[ChannelRange], channels: u32) -> Option<u32>
    ensures { result ≡ find (λ n. nat_le channels n) (flat_map ends_of ranges.now) }
{
    for range in ranges {
        if range.from >= channels {
            return Some(range.from);
        }
        if range.to >= channels {
            return Some(range.to);
        }
    }
    None
}

/// Whether one of the ranges contains a channel.
pub(crate) fn are_naming(ranges: &[ChannelRange], channel: u32) -> bool
    ensures { result ≡ list_any (λ range. has_channel range channel) ranges.now }
{
    ranges.iter().any(|range| range.has(channel))
}
