//! The text of a name.
//!
//! Most names are short. A short text lies beside what else is known of its name, so that it needs no memory of its
//! own.

ghost use Rattle.std.specs.Prelude.{◌≡◌, IfOk};
ghost use Rattle.gm_version.specs.NameText.{text_bytes};

use arrayvec::ArrayString;
use std::alloc::{AllocError, Global};

/// The text of a path or a version. Most have at most 40 bytes, those of pseudo-versions too.
#[derive(Drop)]
pub enum NameText {
    /// A text of at most 40 bytes.
    Short(ArrayString<40>),
    /// A longer text.
    Long(String),
}

impl NameText {
    /// A copy of a text. Fails only when memory runs out.
    pub fn new(alloc: Global, text: &str) -> Result<NameText, AllocError>
        ensures { IfOk result (λ copy. text_bytes copy ≡ text.now) }
    {
        match ArrayString::from(text) {
            Ok(short) => Ok(NameText::Short(short)),
            Err(_) => Ok(NameText::Long(String::from_str(alloc, text)?)),
        }
    }

    /// The text itself. Takes no memory.
    pub fn as_str(&self) -> &str
        ensures { result.now ≡ text_bytes self.now }
    {
        match self {
            NameText::Short(text) => text.as_str(),
            NameText::Long(text) => text.as_str(),
        }
    }
}
