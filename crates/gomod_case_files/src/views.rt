//! The files of a case, one of which may be cut off.

use crate::cases::{Case, CaseFile, Content};

/// The files of a case, of which one may have other bytes.
#[derive(Clone, Copy)]
pub struct View<'a> {
    /// The case.
    pub case: &'a Case<'a>,
    /// The name of the file with other bytes, and these bytes.
    pub cut: Option<(&'a str, &'a [u8])>,
}

impl<'a> View<'a> {
    /// The files as the case has them.
    pub fn whole(case: &'a Case<'a>) -> View<'a> {
        View { case, cut: None }
    }

    /// The bytes of a file, if it is one.
    pub fn bytes(&self, file: &'a CaseFile) -> Option<&'a [u8]> {
        if let Some((name, bytes)) = self.cut {
            if name == file.name.as_str() {
                return Some(bytes);
            }
        }
        match &file.content {
            Content::Bytes(bytes) => Some(bytes.as_slice()),
            Content::Folder | Content::Link(_) | Content::Copy(_) => None,
        }
    }

    /// The bytes of the file of this name.
    pub fn named(&self, name: &str) -> Option<&'a [u8]> {
        self.bytes(self.case.file(name)?)
    }
}
