// Numbers in a script.
ghost use Rattle.std.specs.Prelude.{◌≡◌, ◌≤◌, IfSome, true};
ghost use Rattle.std.specs.Char.{is_ascii_digit};
ghost use Rattle.std.specs.List.{list_all};
ghost use Rattle.script_lang.specs.Numbers.{is_number, number_of, value_after};

use crate::limits::MOST_DIGITS;

fn all_digits(word: &[u8]) -> bool
    ensures { result ≡ list_all is_ascii_digit word.now }
{
    word.iter().all(|b| b.is_ascii_digit())
}

fn is_number_word(word: &[u8]) -> bool
    ensures { result ≡ is_number word.now }
{
    1 <= word.len() && word.len() <= MOST_DIGITS && all_digits(word)
}

// Twenty digits fit 128 bits.
fn value_of(word: &[u8]) -> u128
    requires { is_number word.now ≡ true }
    ensures { result ≡ value_after 0 word.now }
{
    let mut value = 0u128;
    for digit in word {
        value = value * 10 + u128::from(digit.saturating_sub(b'0'));
    }
    value
}

/// The number that a word of 1 to `MOST_DIGITS` decimal digits is, where it is at most `most`; leading zeros are
/// read. `None` for every other word.
#[tactic(auto, unfolding(crate::specs::Numbers::number_of))]
pub fn read_number(word: &[u8], most: u64) -> Option<u64>
    ensures bound { IfSome result (λ n. n ≤ most) }
    ensures exact { result ≡ number_of most word.now }
{
    if !is_number_word(word) {
        return None;
    }
    let value = value_of(word);
    if value > u128::from(most) {
        return None;
    }
    Some(value as u64)
}
