ghost use Rattle.std.specs.Prelude.{◌≡◌, ◌==◌, ◌^◌, ◌<◌, ◌≤◌, ◌↔◌, List, ℕ, IfNone, IfSome, IsTrue, length, sum, true, false};
ghost use Rattle.std.specs.Fmt.{decimal};
ghost use Rattle.orc_jobs.specs.Numbers.{IsNumber, IsNumberList, SpellsNumbers};

use crate::MOST_BYTES;

/// The number below 2^32 that a canonical decimal stands for.
pub fn number_of(text: &[u8]) -> Option<u32>
    ensures some { IfSome result (λ number. (number < 2 ^ 32) × (text.now ≡ decimal number)) }
    ensures none { IfNone result (¬ IsNumber text.now) }
{
    let number = orc_decimal::number_of(text)?;
    match u32::try_from(number) {
        Ok(number) => Some(number),
        Err(_) => None,
    }
}

fn is_space(byte: &u8) -> bool
    ensures { result ≡ (byte.now == 32) }
{
    *byte == b' '
}

/// Whether a text is empty, or canonical decimals below 2^32 with one space between two of them.
pub fn is_number_list(text: &[u8]) -> bool
    ensures { IsTrue result ↔ IsNumberList text.now }
{
    if text.is_empty() {
        return true;
    }
    for piece in text.split(is_space) {
        if number_of(piece).is_none() {
            return false;
        }
    }
    true
}

/// The sum of the numbers that a text spells.
pub fn sum_of(text: &[u8]) -> u64
    requires { length text.now ≤ MOST_BYTES }
    ensures sum { (numbers : List ℕ) → SpellsNumbers numbers text.now → result ≡ sum numbers }
    ensures small { result < 2 ^ 60 }
{
    let mut total = 0;
    for piece in text.split(is_space) {
        if let Some(number) = number_of(piece) {
            total += u64::from(number);
        }
    }
    total
}
