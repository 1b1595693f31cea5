ghost use Rattle.std.specs.Prelude.{◌≡◌, ◌<◌, ◌≤◌, ◌^◌, ◌-◌, List, ℕ, length, IfSome, IfNone};
ghost use Rattle.text_forms.specs.Numbers.{digit_value, value_from, Decimal, Places, weight_of};

use crate::bytes::{ByteKind, after_byte, span};

/// What a digit counts, in any base up to 16.
fn digit_value(b: u8) -> u8
    ensures value { result ≡ digit_value b }
    ensures small { result < 16 }
{
    match b {
        b'0'..=b'9' => b - b'0',
        b'A'..=b'F' => b - b'A' + 10,
        b'a'..=b'f' => b - b'a' + 10,
        _ => 0,
    }
}

/// The number that digits say after others with the value `first`, where it is below a limit.
pub fn value_below(first: u64, digits: &[u8], base: u64, limit: u64) -> Option<u64>
    requires based { 1 ≤ base }
    requires small { base ≤ 16 }
    requires limited { limit ≤ 2 ^ 32 }
    ensures value { IfSome result (λ n. n ≡ value_from base first digits.now) }
    ensures below { IfSome result (λ n. n < limit) }
    ensures none { IfNone result (limit ≤ value_from base first digits.now) }
{
    let mut value = first;
    if value >= limit {
        return None;
    }
    for b in digits {
        value = value * base + u64::from(digit_value(*b));
        if value >= limit {
            return None;
        }
    }
    Some(value)
}

/// The value of a decimal in ten-thousandths, where the text is one and the value is below 2^32.
pub fn decimal(text: &[u8]) -> Option<u32>
    ensures found { IfSome result (λ w. Decimal text.now w) }
    ensures none { IfNone result ((w : ℕ) → Decimal text.now w → 2 ^ 32 ≤ w) }
{
    let (digits, rest) = span(text, ByteKind::Digit);
    let places = places(rest)?;
    if digits.is_empty() && places.is_empty() {
        return None;
    }
    weight_of(digits, places)
}

/// The digits behind the point, at most four.
fn places(text: &[u8]) -> Option<&[u8]>
    ensures found { IfSome result (λ digits. Places text.now digits.now) }
    ensures none { IfNone result ((digits : List ℕ) → Places text.now digits → ⊥) }
{
    let Some(after) = after_byte(text, b'.') else {
        return if text.is_empty() { Some(text) } else { None };
    };
    let (digits, rest) = span(after, ByteKind::Digit);
    if rest.is_empty() && digits.len() <= 4 {
        Some(digits)
    } else {
        None
    }
}

/// Digits before and behind the point, in ten-thousandths.
fn weight_of(digits: &[u8], places: &[u8]) -> Option<u32>
    requires { length places.now ≤ 4 }
    ensures found { IfSome result (λ w. w ≡ weight_of digits.now places.now) }
    ensures none { IfNone result (2 ^ 32 ≤ weight_of digits.now places.now) }
{
    let whole = value_below(0, digits, 10, 1 << 32)?;
    let read = value_below(whole, places, 10, 1 << 32)?;
    let weight = read * scale(places.len());
    u32::try_from(weight).ok()
}

/// What a digit counts at a place behind the point, in ten-thousandths.
fn scale(places: usize) -> u64
    requires { places ≤ 4 }
    ensures value { result ≡ 10 ^ (4 - places) }
    ensures within { result ≤ 10000 }
{
    match places {
        0 => 10000,
        1 => 1000,
        2 => 100,
        3 => 10,
        _ => 1,
    }
}
