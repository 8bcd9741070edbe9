//! Numbers in decimal digits, as other programs write them.
ghost use Rattle.std.specs.Prelude.{◌≡◌, ◌<◌, ◌≤◌, ◌-◌, ◌^◌, IsTrue, IfSome, min};
ghost use Rattle.std.specs.Str.{all_ascii_digits};
ghost use Rattle.std.specs.Str.Parse.{digits_value};
ghost use Rattle.text.specs.Digits.{is_decimal, decimal_in, number_up_to, is_number};

/// The number of a word of decimal digits, which may have leading zeros; `None` if the word isn't such. A
/// number above 32 bits is `u32::MAX`.
#[tactic(auto, unfolding(crate::specs::Digits::decimal_in))]
pub fn decimal(word: &[u8]) -> Option<u32>
    ensures { result ≡ decimal_in word.now }
{
    if !is_decimal(word) {
        return None;
    }
    Some(capped_value(word, u64::from(u32::MAX)) as u32)
}

/// The number of a word of decimal digits, which may have leading zeros; `None` if the word isn't such, or
/// its number is above `most`.
#[tactic(auto, unfolding(crate::specs::Digits::number_up_to))]
pub fn number_up_to(word: &[u8], most: u64) -> Option<u64>
    requires { most < 2 ^ 64 - 1 }
    ensures value { result ≡ number_up_to most word.now }
    ensures in_range { IfSome result (λ number. number ≤ most) }
{
    if !is_decimal(word) {
        return None;
    }
    let number = capped_value(word, most + 1);
    if number > most {
        return None;
    }
    Some(number)
}

/// Returns whether a word is a number in its one spelling: decimal digits, of any number, without leading
/// zeros.
#[tactic(auto, unfolding(crate::specs::Digits::is_number))]
pub fn is_number(word: &[u8]) -> bool
    ensures test { result ≡ is_number word.now }
    ensures digits { IsTrue result → IsTrue (all_ascii_digits word.now) }
{
    is_decimal(word) && (word[0] != b'0' || word.len() == 1)
}

// Returns whether a word is decimal digits, at least one.
fn is_decimal(word: &[u8]) -> bool
    ensures test { result ≡ is_decimal word.now }
    ensures digits { IsTrue result → IsTrue (all_ascii_digits word.now) }
{
    !word.is_empty() && all_digits(word)
}

// Returns whether each byte is a decimal digit.
fn all_digits(word: &[u8]) -> bool
    ensures { result ≡ all_ascii_digits word.now }
{
    for byte in word {
        if !byte.is_ascii_digit() {
            return false;
        }
    }
    true
}

/// The number of decimal digits, at most `cap`. It is 0 without digits.
pub fn capped_value(word: &[u8], cap: u64) -> u64
    requires { IsTrue (all_ascii_digits word.now) }
    ensures { result ≡ min (digits_value 10 word.now) cap }
{
    let mut value = 0;
    for byte in word {
        let next = u128::from(value) * 10 + u128::from(*byte - b'0');
        value = u128::from(cap).min(next) as u64;
    }
    value
}
