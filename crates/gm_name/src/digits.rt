//! Decimal digits at the end of a text.

ghost use Rattle.std.specs.Prelude.{◌≡◌};
ghost use Rattle.std.specs.Char.{is_ascii_digit};
ghost use Rattle.std.specs.List.{suffix_len};
ghost use Rattle.gm_name.specs.Tail.{head, tail};

/// How many digits are at the end of the text.
pub fn digits_at_end(text: &[u8]) -> usize
    ensures { result ≡ suffix_len is_ascii_digit text.now }
{
    text.iter().rev().take_while(|b| b.is_ascii_digit()).count()
}

/// Splits a text before the digits at its end.
pub fn split_digits(text: &str) -> (&str, &str)
    ensures head { result.0.now ≡ head is_ascii_digit text.now }
    ensures tail { result.1.now ≡ tail is_ascii_digit text.now }
{
    text.split_at(text.len() - digits_at_end(text.as_bytes()))
}
