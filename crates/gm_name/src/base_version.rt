//! The base version of a pseudo-version: the tagged version that its commit comes after.

ghost use Rattle.std.specs.Prelude.{List, ℕ, IfNone, IfOk, IfSome};
ghost use Rattle.gm_name.specs.Pseudo.{IsBase};

use crate::pseudo_version::form_of;
use crate::stamp::read_stamp;
use gm_version::ModVersion;
use std::alloc::{AllocError, Global};

/// The base version of a pseudo-version (Go Modules Reference, "Pseudo-versions"): `vX.Y.Z-BEFORE` for
/// `vX.Y.Z-BEFORE.0.TIME-REVISION`, and the release `vX.Y.(Z-1)` for `vX.Y.Z-0.TIME-REVISION`. A build
/// `+incompatible` is kept.
///
/// `None` for the first form, `vX.0.0-TIME-REVISION`, and for a version that isn't a pseudo-version. Fails only
/// when memory runs out. The law `one_base` says that the base is unique, a version, and of lower precedence.
pub fn base(alloc: Global, version: &ModVersion) -> Result<Option<ModVersion>, AllocError>
    ensures some { IfOk result (λ base. IfSome base (IsBase version.now)) }
    ensures none { IfOk result (λ base. IfNone base ((text : List ℕ) → ¬ (IsBase version.now text))) }
{
    let Some(stamp) = read_stamp(version.pre()) else {
        return Ok(None);
    };
    let Some(form) = form_of(version.minor(), version.patch(), stamp.front.as_bytes()) else {
        return Ok(None);
    };
    // The text before the stamp determines the form; in the second form it ends in `.0.`.
    if form == 2 {
        let Some(before) = stamp.front.strip_suffix(".0.") else {
            return Ok(None);
        };
        return Ok(Some(version.with(alloc, version.patch(), before)?));
    }
    // The third form has a patch number above 0, so the subtraction can't underflow.
    if form == 3 {
        return Ok(Some(version.with(alloc, version.patch() - 1, "")?));
    }
    Ok(None)
}
