//! The hash of a go.mod, as a go.sum lists it.

ghost use Rattle.std.specs.Prelude.{◌≡◌, ◌++◌, codes, IfOk, string_bytes};
ghost use Rattle.base64.specs.Engines.{standard};
ghost use Rattle.base64.specs.GeneralPurpose.{encode_of};
ghost use Rattle.gm_store_sums.specs.Hash.{file_hash, summary_line};
ghost use Rattle.hex.specs.Hex.{encode_lower};
ghost use Rattle.sha2.specs.Sha256.{sha256};

use base64::engine::general_purpose::STANDARD;
use gm_name::NoMemory;
use sha2::{Digest, Sha256};
use std::alloc::Global;

/// The bytes of a hash: `h1:` and 32 bytes in base64.
const HASH_LEN: usize = 47;

/// A digest in lower-case hexadecimal.
fn digits_of(digest: &[u8; 32]) -> [u8; 64]
    ensures { result ≡ encode_lower digest.now }
{
    let mut digits = [0u8; 64];
    let Ok(()) = hex::encode_to_slice(digest.as_slice(), &mut digits) else {
        unreachable!();
    };
    digits
}

/// The digest of the line for a file with these bytes: their digest, and the name of the file.
fn summary_digest(content: &[u8]) -> [u8; 32]
    ensures { result ≡ sha256 (summary_line content.now) }
{
    let digits = digits_of(&Sha256::digest(content));
    let mut line = Sha256::new_with_prefix(digits.as_slice());
    line.update(b"  go.mod\n".as_slice());
    line.finalize()
}

/// `h1:` and a digest in base64. Fails only when memory runs out.
fn text_of(alloc: Global, digest: &[u8]) -> Result<String, NoMemory>
    ensures { IfOk result (λ hash. string_bytes hash ≡ codes "h1:" ++ encode_of standard digest.now) }
{
    let mut hash = String::with_capacity(alloc, HASH_LEN)?;
    hash.push_str("h1:")?;
    STANDARD.encode_string(digest, &mut hash)?;
    Ok(hash)
}

/// `h1:` and a digest in base64, as bytes.
fn bytes_of(digest: &[u8; 32]) -> [u8; HASH_LEN]
    ensures { result ≡ codes "h1:" ++ encode_of standard digest.now }
{
    let mut hash = [0u8; HASH_LEN];
    hash[..3].copy_from_slice(b"h1:".as_slice());
    let Ok(_) = STANDARD.encode_slice(digest.as_slice(), &mut hash[3..]) else {
        unreachable!();
    };
    hash
}

/// The bytes of the hash of the go.mod of a module with these bytes, as `mod_hash` returns it. Takes no memory.
pub(crate) fn hash_bytes(content: &[u8]) -> [u8; HASH_LEN]
    ensures { result ≡ file_hash content.now }
{
    bytes_of(&summary_digest(content))
}

/// The hash of the go.mod of a module with these bytes, in the form of a go.sum: `h1:` and the standard base64, with
/// padding, of the SHA-256 of a line; the line is the SHA-256 of the bytes in lower-case hexadecimal, two spaces and
/// `go.mod` (Go Modules Reference, go.sum files; FIPS 180-4; RFC 4648). Fails only when memory runs out.
pub fn mod_hash(alloc: Global, content: &[u8]) -> Result<String, NoMemory>
    ensures { IfOk result (λ hash. string_bytes hash ≡ file_hash content.now) }
{
    text_of(alloc, summary_digest(content).as_slice())
}
