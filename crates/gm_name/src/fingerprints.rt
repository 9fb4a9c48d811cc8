//! Fingerprints of texts: hashes to look names up by, because numbers compare faster than texts.

ghost use Rattle.std.specs.Prelude.{◌≡◌, ◌≤◌, drop, length};
ghost use Rattle.gm_name.specs.Fingerprint.{by_bytes, fingerprint, first_eight, number_with_word, tag_of};

/// A 64-bit hash of a text's bytes, computed from the number `start`. To hash two texts in a row, pass the first one's
/// fingerprint as the `start` of the second.
///
/// It is multiplicative, eight bytes at a time. Equal texts have equal fingerprints. Different texts with equal
/// fingerprints are rare but easy to construct, so code that tells names apart by fingerprint must also compare the
/// names when these are equal. Takes time linear in the text's length, and allocates no memory.
pub fn fingerprint(start: u64, text: &str) -> u64
    ensures { result ≡ fingerprint start text.now }
{
    let mut number = start;
    let mut rest = text.as_bytes();
    'words: while rest.len() >= 8 {
        number = mixed(number, first_eight(rest));
        rest = after_eight(rest);
    }
    by_bytes(number, rest)
}

/// The tag of a fingerprint, under which an index has a name's place: the high half.
#[inline(always)]
pub fn tag_of(fingerprint: u64) -> u32
    ensures { result ≡ tag_of fingerprint }
{
    (fingerprint >> 32) as u32
}

/// The number of the first eight bytes, the first one lowest.
fn first_eight(bytes: &[u8]) -> u64
    requires { 8 ≤ length bytes.now }
    ensures { result ≡ first_eight bytes.now }
{
    u64::from_le_bytes([
        bytes[0], bytes[1], bytes[2], bytes[3], bytes[4], bytes[5], bytes[6], bytes[7],
    ])
}

/// What follows the first eight bytes.
fn after_eight(bytes: &[u8]) -> &[u8]
    requires { 8 ≤ length bytes.now }
    ensures { result.now ≡ drop 8 bytes.now }
{
    &bytes[8..]
}

/// The hash of a number and of each of these bytes as a word.
fn by_bytes(start: u64, bytes: &[u8]) -> u64
    ensures { result ≡ by_bytes start bytes.now }
{
    let mut number = start;
    for byte in bytes {
        number = mixed(number, u64::from(*byte));
    }
    number
}

/// The hash of a number and one more word. The product's high half is mixed into its low half, which would otherwise
/// depend on the low bytes of words alone.
fn mixed(number: u64, word: u64) -> u64
    ensures { result ≡ number_with_word number word }
{
    let product = (number ^ word).wrapping_mul(FACTOR);
    product ^ (product >> 32)
}

/// The odd number next to 2^64 divided by the golden ratio, whose multiples are spread evenly.
const FACTOR: u64 = 11_400_714_819_323_198_485;
