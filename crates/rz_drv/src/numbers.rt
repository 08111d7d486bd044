//! Words that are numbers.

ghost use Rattle.std.specs.Prelude.{◌≡◌, ◌≢◌, ℕ, ◌<◌, ◌^◌, List, All, Some, IfOk, IfSome, IfNone, IsTrue, ◌↔◌, EachIndex, slice_index, map};
ghost use Rattle.std.specs.Fmt.{decimal};
ghost use Rattle.std.specs.Int.{IsInRange};
ghost use Rattle.rz_drv.specs.Numeral.{IsNumeralWord};

use rz_rules::OutOfMemory;
use std::alloc::Global;

/// Whether each byte is a decimal digit.
fn are_digits(word: &[u8]) -> bool
    ensures { IsTrue result ↔ EachIndex word.now (λ i. IsInRange 48 57 (slice_index word.now i)) }
{
    word.iter().all(|b| (48..=57).contains(b))
}

/// Whether a word is decimal digits without leading zeros.
fn is_numeral(word: &[u8]) -> bool
    ensures { IsTrue result ↔ IsNumeralWord word.now }
{
    are_digits(word) && (word.len() == 1 || (word.len() > 1 && word[0] != b'0'))
}

/// The number that a word spells, in decimal digits without leading zeros.
pub fn number_of(word: &[u8]) -> Option<u64>
    ensures found { IfSome result (λ n. decimal n ≡ word.now) }
    ensures small { IfSome result (λ n. n < 2 ^ 64) }
    ensures only { (n : ℕ) → n < 2 ^ 64 → decimal n ≡ word.now → result ≡ Some n }
{
    if !is_numeral(word) {
        return None;
    }
    match str::from_utf8(word) {
        Ok(text) => text.parse::<u64>().ok(),
        Err(_) => None,
    }
}

/// The numbers that words spell, each one of them.
pub fn numbers_of(alloc: Global, words: &[&[u8]]) -> Result<Option<Vec<u64>>, OutOfMemory>
    ensures found { IfOk result (λ answer. IfSome answer (λ ns. map decimal ns.items
        ≡ map (λ w. w.now) words.now)) }
    ensures small { IfOk result (λ answer. IfSome answer (λ ns. All (λ n. n < 2 ^ 64) ns.items)) }
    ensures none { IfOk result (λ answer. IfNone answer
        ((ns : List ℕ) → All (λ n. n < 2 ^ 64) ns → map decimal ns ≢ map (λ w. w.now) words.now)) }
{
    let mut numbers = Vec::new(alloc);
    for word in words {
        let Some(number) = number_of(word) else {
            return Ok(None);
        };
        numbers.push(number)?;
    }
    Ok(Some(numbers))
}
