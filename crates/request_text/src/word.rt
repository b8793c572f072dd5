//! What a word spells: a number or a payload.

ghost use Rattle.std.specs.Prelude.{◌≡◌, ◌==◌, ◌≤◌, ◌<◌, ◌^◌, ◌+◌, ◌∷◌, [], IfOk, IfSome, IfNone, length};
ghost use Rattle.std.specs.List.{slice_split, list_all};
ghost use Rattle.std.specs.Option.{option_map_or};
ghost use Rattle.request_text.specs.Words.{is_digit, is_decimal, is_lower_digit, is_hex_word, number_of, payload_of};

use graph_model::{NoMemory, Payload};
use std::alloc::Global;

/// The bytes before the first separator, and those after it where there is one.
pub fn cut(bytes: &[u8], separator: u8) -> (&[u8], Option<&[u8]>)
    ensures parts { slice_split (λ b. b == separator) bytes.now
        ≡ result.0.now ∷ option_map_or (λ rest. slice_split (λ b. b == separator) rest.now) result.1 [] }
    ensures length { length bytes.now
        ≡ length result.0.now + option_map_or (λ rest. length rest.now + 1) result.1 0 }
    ensures whole { IfNone result.1 (result.0.now ≡ bytes.now) }
{
    for (at, byte) in bytes.iter().enumerate() {
        if *byte == separator {
            return (&bytes[..at], Some(&bytes[at + 1..]));
        }
    }
    (bytes, None)
}

/// Whether a word has the form of a number: digits without a leading zero, or the one digit 0.
fn has_decimal_form(word: &[u8]) -> bool
    ensures { result ≡ is_decimal word.now }
{
    match word {
        [] => false,
        [only] => only.is_ascii_digit(),
        [first, ..] => *first > b'0' && are_decimal_digits(word),
    }
}

/// Whether all bytes are decimal digits.
fn are_decimal_digits(word: &[u8]) -> bool
    ensures { result ≡ list_all is_digit word.now }
{
    word.iter().all(|byte| byte.is_ascii_digit())
}

/// The number of at most `most` that a word spells; none where it spells none.
pub fn number(word: &[u8], most: u64) -> Option<u64>
    ensures value { number_of most word.now ≡ result }
    ensures within { IfSome result (λ n. n ≤ most) }
{
    if !has_decimal_form(word) {
        return None;
    }
    let mut value = 0u64;
    for byte in word {
        let digit = u64::from(byte - b'0');
        value = value.checked_mul(10)?.checked_add(digit)?;
    }
    if value <= most { Some(value) } else { None }
}

/// The payload that a word spells; none where it spells none. Time: one step for each byte.
pub fn payload(alloc: Global, word: &[u8]) -> Result<Option<Payload>, NoMemory>
    ensures { IfOk result (λ p. payload_of word.now ≡ p) }
{
    if word == b"-".as_slice() {
        return Ok(Some(Payload::from_vec(Vec::new(alloc))?));
    }
    if !has_hex_form(word) {
        return Ok(None);
    }
    // An even number of digits decodes, unless memory runs out.
    let Ok(bytes) = hex::decode(alloc, word) else {
        return Err(NoMemory);
    };
    Ok(Some(Payload::from_vec(bytes)?))
}

/// Whether a word has two digits for each byte of a payload of at least one byte.
fn has_hex_form(word: &[u8]) -> bool
    ensures { result ≡ is_hex_word word.now }
{
    !word.is_empty()
        && word.len() <= 2 * Payload::MOST
        && word.len() % 2 == 0
        && are_hex_digits(word)
}

/// Whether all bytes are lower-case hexadecimal digits.
fn are_hex_digits(word: &[u8]) -> bool
    ensures { result ≡ list_all is_lower_digit word.now }
{
    word.iter()
        .all(|byte| matches!(*byte, b'0'..=b'9' | b'a'..=b'f'))
}
