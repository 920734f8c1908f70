// Decimal numbers, as the words of a line have them.
ghost use Rattle.std.specs.Prelude.{◌≡◌};
ghost use Rattle.std.specs.Str.{all_ascii_digits};
ghost use Rattle.lines.specs.Numbers.{number_of};

use crate::faults::Fault;

fn all_digits(word: &[u8]) -> bool
    ensures { result ≡ all_ascii_digits word.now }
{
    word.iter().all(|b| b.is_ascii_digit())
}

#[tactic(auto, using(crate::proofs::Digits::digits_text), unfolding(crate::specs::Numbers::number_of))]
pub fn number(word: &[u8]) -> Result<u64, Fault>
    ensures { result ≡ number_of word.now }
{
    if word.is_empty() || !all_digits(word) {
        return Err(Fault::NoNumber);
    }
    // SAFETY: digits are ASCII, and so text; `from_utf8` would look at each once more.
    let digits = unsafe { str::from_utf8_unchecked(word) };
    digits.parse().or(Err(Fault::NumberTooLarge))
}
