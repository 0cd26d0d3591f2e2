#![tactic(auto)]

// Numbers as a rulebook writes them: one to nine digits with no zero before another digit, and a minus in front where a
// negative number may stand.
ghost use Rattle.std.specs.Prelude.{◌≡◌, ℕ, ◌^◌, ◌<◌, ◌≤◌, length, ℤ, pos, neg_ℤ, ◌<ℤ◌, Decides, MatchOption};
ghost use Rattle.numerals.specs.Numerals.{AllDigits, Numeral, SignedNumeral, read_on};

// So many digits write a number below 10 ^ 9.
const MOST_DIGITS: usize = 9;

// Each byte is a digit.
fn all_digits(bytes: &[u8]) -> bool
    ensures { Decides result (AllDigits bytes.now) }
{
    bytes.iter().all(|byte| byte.is_ascii_digit())
}

// The number that at most nine digits write. (A loop, and no `fold`: that n has room for one more digit is known from how
// many digits were read, which a closure doesn't see.)
fn value(digits: &[u8]) -> u32
    requires few { length digits.now ≤ MOST_DIGITS }
    requires digits { AllDigits digits.now }
    ensures value { result ≡ read_on 0 digits.now }
    ensures small { result < 10 ^ 9 }
{
    let mut n = 0;
    for digit in digits {
        n = 10 * n + u32::from(digit - b'0');
    }
    n
}

// The number that the digits write, or none where they write no number.
pub fn unsigned(digits: &[u8]) -> Option<u32>
    ensures { MatchOption result ((n : ℕ) → Numeral digits.now n → ⊥) (λ n. Numeral digits.now n × (n < 10 ^ 9)) }
{
    match digits {
        [] | [b'0', _, ..] => None,
        _ if digits.len() > MOST_DIGITS || !all_digits(digits) => None,
        _ => Some(value(digits)),
    }
}

// The number that the text writes, with or without a minus, or none where it writes no number.
pub fn signed(text: &[u8]) -> Option<i32>
    ensures { MatchOption result
        ((z : ℤ) → SignedNumeral text.now z → ⊥)
        (λ z. SignedNumeral text.now z × (neg_ℤ (pos (10 ^ 9)) <ℤ z) × (z <ℤ pos (10 ^ 9))) }
{
    match text {
        [b'-', digits @ ..] => match unsigned(digits)? {
            0 => None,
            size => Some(-(size as i32)),
        },
        _ => Some(unsigned(text)? as i32),
    }
}
