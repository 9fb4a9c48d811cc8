//! The parts of the layout that look at no line: a comment after words, and what is kept from line to line.

ghost use Rattle.std.specs.Prelude.{◌≡◌, ◌++◌, true, OnOk};
ghost use Rattle.std.specs.String.{string_bytes};
ghost use Rattle.gm_syntax_words.specs.Tokens.{comment_of};
ghost use Rattle.gm_syntax_words.specs.LayoutParts.{suffix_text};

use std::alloc::AllocError;
use std::borrow::CowStr;
use std::marker::Model;

/// Appends the comment after the words of a line, if there is one, with a space before it.
pub fn push_suffix(out: &mut String, suffix: &Option<CowStr<'_>>) -> Result<(), AllocError>
    ensures { OnOk result (string_bytes out.new ≡ string_bytes out.old ++ suffix_text (comment_of suffix.now)) }
{
    if let Some(text) = suffix {
        out.push_str(" ")?;
        out.push_str(text.as_str())?;
    }
    Ok(())
}

/// The state of the layout after a line.
#[derive(Clone, Copy)]
pub struct LayoutState {
    /// Whether a blank line may come next. It may not at the start of the document or directly after an
    /// opening.
    pub gap_allowed: bool,
    /// Whether the document has blank lines after the last line that was written. They become one blank line,
    /// written with the next line, because a closing or the end of the document drops them.
    pub gap_pending: bool,
    /// Whether a block is open.
    pub inside: bool,
}

impl Model for LayoutState {
    ghost use Rattle.gm_syntax_words.specs.LayoutParts.{LayoutState as LayoutStateOf};

    ghost Value = { LayoutStateOf };

    ghost view = { λ s. record { gap_allowed = s.gap_allowed; gap_pending = s.gap_pending; inside = s.inside } };

    ghost inverse = { λ s. record { gap_allowed = s.gap_allowed; gap_pending = s.gap_pending; inside = s.inside } };
}

/// The state after a blank line, which is only noted.
pub fn after_blank(behind: LayoutState) -> LayoutState
    ensures { result ≡ record behind { gap_pending = true } }
{
    LayoutState {
        gap_pending: true,
        ..behind
    }
}
