//! Canonical decimals: numbers as `{}` prints them.
#![tactic(auto)]

ghost use Rattle.std.specs.Prelude.{◌≡◌, ◌==◌, ◌^◌, ◌<◌, IfNone, IfSome, length, slice_index, true, false};
ghost use Rattle.std.specs.Fmt.{decimal};
ghost use Rattle.orc_decimal.specs.{Decimals.{IsDecimal}, Canonical.{IsCanonical}};

use std::str;

/// The number below 2^64 that a canonical decimal stands for: `0`, or digits without a zero in front.
pub fn number_of(text: &[u8]) -> Option<u64>
    ensures some { IfSome result (λ number. (number < 2 ^ 64) × (text.now ≡ decimal number)) }
    ensures none { IfNone result (¬ IsDecimal 64 text.now) }
{
    let Ok(utf8) = str::from_utf8(text) else {
        return None;
    };
    if !is_plain(text) {
        return None;
    }
    match utf8.parse::<u64>() {
        Ok(number) => Some(number),
        Err(_) => None,
    }
}

// No sign, and no zero in front of a digit.
fn is_plain(text: &[u8]) -> bool
    ensures plain { result ≡ true → IsCanonical text.now }
    ensures other { result ≡ false → ¬ IsCanonical text.now }
{
    match text {
        [] => false,
        [b'0', _, ..] => false,
        [b'+', ..] => false,
        [..] => true,
    }
}
