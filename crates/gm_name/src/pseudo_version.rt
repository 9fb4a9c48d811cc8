//! The three forms of pseudo-versions.
//!
//! The form follows from the minor and patch numbers and from the text before the time. It says whether the
//! pseudo-version has a base version, and which.

ghost use Rattle.std.specs.Prelude.{ℕ, List, IfNone, IfSome};
ghost use Rattle.gm_name.specs.Pseudo.{IsFront, IsPseudo};

use crate::stamp::{Pseudo, read_stamp};
use gm_version::ModVersion;

/// The form of a pseudo-version with these numbers and this text before its time, or `None` if no form has them.
pub fn form_of(minor: u64, patch: u64, front: &[u8]) -> Option<u8>
    ensures some { IfSome result (λ form. IsFront form minor patch front.now) }
    ensures none { IfNone result ((form : ℕ) → ¬ (IsFront form minor patch front.now)) }
{
    if front.is_empty() {
        return if minor == 0 && patch == 0 {
            Some(1)
        } else {
            None
        };
    }
    if front == b"0.".as_slice() {
        return if patch > 0 { Some(3) } else { None };
    }
    if front.len() > 3 && front.ends_with(b".0.") {
        Some(2)
    } else {
        None
    }
}

/// What a pseudo-version says about its commit: its form, time and revision (Go Modules Reference, "Pseudo-versions").
///
/// `None` if the version isn't a pseudo-version. Each form may have the build `+incompatible`. Allocates no memory.
pub fn pseudo(version: &ModVersion) -> Option<Pseudo<'_>>
    ensures some { IfSome result (λ p. IsPseudo version.now p.form p.time.now p.revision.now) }
    ensures none { IfNone result ((form : ℕ) (time revision : List ℕ) → ¬ (IsPseudo version.now form time revision)) }
{
    let stamp = read_stamp(version.pre())?;
    let form = form_of(version.minor(), version.patch(), stamp.front.as_bytes())?;
    Some(Pseudo {
        form,
        time: stamp.time,
        revision: stamp.revision,
    })
}
