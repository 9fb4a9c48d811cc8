//! The classes of the bytes of a path. One table has them all, since each byte of a path is looked up.

ghost use Rattle.std.specs.Prelude.{◌≡◌};
ghost use Rattle.gm_name.specs.Element.{is_path_byte};
ghost use Rattle.gm_name.specs.Private.Texts.{is_stem_byte};
ghost use Rattle.gm_name.specs.Path.{is_digit_or_dot};

/// The flag of the bytes that may be in an element.
const ELEMENT: u8 = 1;

/// The flag of those among them that may be before its first dot: all but the dot.
const STEM: u8 = 2;

/// The flag of the digits and the dot.
const DIGIT_OR_DOT: u8 = 4;

/// The classes of the bytes: for each byte a digit, which has these flags.
static CLASSES: [u8; 256] = *b"\
    00000000000000000000000000000000\
    00000000000003507777777777000000\
    03333333333333333333333333300003\
    03333333333333333333333333300030\
    00000000000000000000000000000000\
    00000000000000000000000000000000\
    00000000000000000000000000000000\
    00000000000000000000000000000000";

/// Whether a byte may be in an element: an ASCII letter or digit, `-`, `.`, `_` or `~`.
pub fn is_path_byte(byte: u8) -> bool
    ensures { result ≡ is_path_byte byte }
{
    CLASSES[byte as usize] & ELEMENT != 0
}

/// Whether a byte may be in an element before its first dot.
pub fn is_stem_byte(byte: u8) -> bool
    ensures { result ≡ is_stem_byte byte }
{
    CLASSES[byte as usize] & STEM != 0
}

/// Whether a byte is a digit or a dot.
pub fn is_digit_or_dot(byte: u8) -> bool
    ensures { result ≡ is_digit_or_dot byte }
{
    CLASSES[byte as usize] & DIGIT_OR_DOT != 0
}
