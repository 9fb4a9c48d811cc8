//! The words of a line of a go.mod: scanning, words with their spans, and reading a line into its words and its comment.
//!
//! Lines, documents and their layout are in the crate above, gm_syntax, whose users have `Token`, the kinds of words and
//! the faults from there. What only gm_syntax calls is public as well: `read_line`, tests of a text's first byte, and
//! the parts of the layout that look at no line.
#![tactic(auto)]

mod fault;
mod layout_parts;
mod reader;
mod scan;
mod spell;
mod token;
mod word;

pub use crate::fault::{LineSyntaxFault, SyntaxFault, SyntaxKind};
pub use crate::layout_parts::{LayoutState, after_blank, push_suffix};
pub use crate::reader::{LineParts, is_bare, read_line};
pub use crate::scan::{Piece, bare_len, begins_blank, begins_opening, begins_plain, ends_line};
pub use crate::token::Token;
pub use crate::word::{Kind, Punct, Span};
