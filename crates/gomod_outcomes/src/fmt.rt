//! `fmt`: `gm_syntax` parses and lays out, and this file makes the text or the report of the result.

ghost use Rattle.gomod_texts.specs.Outcome.{OrNoMemory};
ghost use Rattle.gomod_outcomes.specs.Private.Ended.{outcome_view};
ghost use Rattle.gomod_outcomes.specs.Fmt.{FmtEnds};

use gm_syntax::Doc;
use gomod_texts::Report;
use std::alloc::Global;

/// What `fmt` ends with over the bytes of a file: their layout, or the report of their fault.
pub(crate) fn fmt_outcome<'r>(alloc: Global, file: &[u8]) -> Result<String, Report<'r>>
    ensures { OrNoMemory (FmtEnds file.now) (outcome_view result) }
{
    let doc = Doc::parse(alloc, file)?;
    Ok(doc.format()?)
}
