//! The places of files.

use std::alloc::{AllocError, Global};

/// The parts of a path that lead somewhere: not those that are empty or `.`, nor those that a later `..` undoes.
fn parts_of(alloc: Global, path: &str) -> Result<Vec<&str>, AllocError> {
    let mut parts = Vec::new(alloc);
    for part in path.split('/') {
        match part {
            "" | "." => {}
            ".." if !matches!(parts.last(), None | Some(&"..")) => {
                let _ = parts.pop();
            }
            _ => parts.push(part)?,
        }
    }
    Ok(parts)
}

/// A path without parts that lead nowhere. A leading `/` stays.
pub fn tidied(alloc: Global, path: &str) -> Result<String, AllocError> {
    let parts = parts_of(alloc, path)?;
    let below = parts.join(alloc, "/")?;
    let root = if path.starts_with('/') { "/" } else { "" };
    format!(in alloc; "{root}{below}")
}

/// Whether a path leads at most one folder up out of the folder of a case.
pub fn is_near(alloc: Global, path: &str) -> Result<bool, AllocError> {
    let parts = parts_of(alloc, path)?;
    // the parts that lead up come first
    Ok(parts.get(1) != Some(&".."))
}
