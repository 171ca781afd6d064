// Finds where a text stops being a beginning of a mask text.
ghost use Rattle.std.specs.Prelude.{◌≡◌, true, false, IfNone, IfSome};
ghost use Rattle.channel_mask.specs.Texts.{is_mask_text};
ghost use Rattle.channel_mask.specs.Fronts.{StopsAt, one_digit_more, after_number as after_number_of, after_digits as after_digits_of, after_letters as after_letters_of, with_byte as with_byte_of, is_whole as is_whole_of};

// A law: it does nothing when it runs, and the proofs use what it ensures.
use crate::laws::fronts_are_read;

// The text of the mask of no channels.
const NONE: &[u8; 4] = b"none";

// The maximum number of digits of a number.
const MOST_DIGITS: u32 = 9;

// How far a beginning of a mask text has come.
#[derive(Clone, Copy)]
pub(crate) enum Front {
    // The text is empty.
    Start,
    // The first letters of `none`: this many.
    Letters(usize),
    // `count` digits of a number; `is_second` if it is the second number of its item.
    Digits { count: u32, is_second: bool },
}

// One digit more after `count` digits, or `None` if that is too many.
fn digit_more(count: u32, is_second: bool) -> Option<Front>
    ensures { result ≡ one_digit_more count is_second }
{
    if count < MOST_DIGITS {
        Some(Front::Digits {
            count: count + 1,
            is_second,
        })
    } else {
        None
    }
}

// One byte after a complete number, or `None` if no mask text goes on so.
fn after_number(is_second: bool, byte: u8) -> Option<Front>
    ensures { result ≡ after_number_of is_second byte }
{
    match byte {
        b',' => Some(Front::Digits {
            count: 0,
            is_second: false,
        }),
        b'-' if !is_second => Some(Front::Digits {
            count: 0,
            is_second: true,
        }),
        _ => None,
    }
}

// One byte after `count` digits of a number, or `None` if no mask text goes on so.
fn after_digits(count: u32, is_second: bool, byte: u8) -> Option<Front>
    ensures { result ≡ after_digits_of count is_second byte }
{
    if byte.is_ascii_digit() {
        return digit_more(count, is_second);
    }
    if count == 0 {
        return None;
    }
    after_number(is_second, byte)
}

// One byte after `count` letters of `none`, or `None` if no mask text goes on so.
fn after_letters(count: usize, byte: u8) -> Option<Front>
    ensures { result ≡ after_letters_of count byte }
{
    if count < NONE.len() && byte == NONE[count] {
        Some(Front::Letters(count + 1))
    } else {
        None
    }
}

impl Front {
    // The front extended by one byte, or `None` if no mask text begins so.
    fn with_byte(self, byte: u8) -> Option<Front>
        ensures { result ≡ with_byte_of self byte }
    {
        match self {
            Front::Start if byte == b'n' => Some(Front::Letters(1)),
            Front::Start => after_digits(0, false, byte),
            Front::Letters(count) => after_letters(count, byte),
            Front::Digits { count, is_second } => after_digits(count, is_second, byte),
        }
    }

    // Whether the front is a complete mask text.
    fn is_whole(self) -> bool
        ensures { result ≡ is_whole_of self }
    {
        match self {
            Front::Start => false,
            Front::Letters(count) => count >= NONE.len(),
            Front::Digits { count, .. } => count > 0,
        }
    }
}

/// `None` if the text is a mask text. Otherwise the place of the first byte at which it stops being a beginning of one,
/// or its length.
pub(crate) fn stop(text: &[u8]) -> Option<usize>
    ensures none { IfNone result (is_mask_text text.now ≡ true) }
    ensures some { IfSome result (λ place. (is_mask_text text.now ≡ false)
        × StopsAt text.now place) }
{
    fronts_are_read();
    let mut front = Front::Start;
    for (place, byte) in text.iter().enumerate() {
        match front.with_byte(*byte) {
            Some(next) => front = next,
            None => return Some(place),
        }
    }
    if front.is_whole() {
        None
    } else {
        Some(text.len())
    }
}
