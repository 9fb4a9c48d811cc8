//! Decimal digits, and numbers as module paths and versions write them: without a leading zero, below 2^64.

ghost use Rattle.std.specs.Prelude.{◌≡◌, ◌↔◌, ℕ, IfNone, IfSome, IsTrue};
ghost use Rattle.std.specs.Char.{is_ascii_digit};
ghost use Rattle.std.specs.List.{list_all};
ghost use Rattle.gm_version.specs.Number.{IsNumber, is_decimal, starts_as_no_number};

/// Whether the text is empty, or begins with a plus sign or with a zero before more digits.
fn starts_as_no_number(text: &[u8]) -> bool
    ensures { result ≡ starts_as_no_number text.now }
{
    text.is_empty() || text[0] == b'+' || (text[0] == b'0' && text.len() > 1)
}

/// Whether each byte is an ASCII digit, which is true of the empty text.
pub fn has_only_digits(text: &[u8]) -> bool
    ensures { result ≡ list_all is_ascii_digit text.now }
{
    text.iter().all(|b| b.is_ascii_digit())
}

/// Whether a text is one or more ASCII digits without a leading zero. The number may be of any size.
pub fn is_decimal(text: &[u8]) -> bool
    ensures { result ≡ is_decimal text.now }
{
    !starts_as_no_number(text) && has_only_digits(text)
}

/// The number in a text, or `None` if the text is empty, has a byte other than a digit, has a leading zero, or
/// is 2^64 or more.
pub fn read_number(text: &str) -> Option<u64>
    ensures some { IfSome result (IsNumber text.now) }
    ensures none { IfNone result ((n : ℕ) → ¬ (IsNumber text.now n)) }
{
    if starts_as_no_number(text.as_bytes()) {
        return None;
    }
    // `parse` also accepts a sign and leading zeros, which are refused above.
    text.parse::<u64>().ok()
}

/// Whether `read_number` finds a number in a text.
pub fn is_number(text: &str) -> bool
    ensures { IsTrue result ↔ ((n : ℕ) × IsNumber text.now n) }
{
    read_number(text).is_some()
}
