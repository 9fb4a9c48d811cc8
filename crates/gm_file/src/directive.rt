//! Reading one line, which both ways of reading files and the edits of files share.

ghost use Rattle.std.specs.Option.{option_map};
ghost use Rattle.gm_syntax_words.specs.Tokens.{words_of};
ghost use Rattle.gm_syntax.specs.LineViews.{line_of, plain};
ghost use Rattle.gm_file.specs.Directives.{directive_of, item_at, one_of, Opening, Saying};
ghost use Rattle.gm_file.specs.Faults.{path_kinds, malformed_entry_kind};
ghost use Rattle.gm_file.specs.Private.Reading.{KeepsNames, IsPartRead};
ghost use Rattle.gm_file.specs.Reading.{own_kinds};
ghost use Rattle.gm_file.specs.DirectiveViews.{IsLineRead, directive_view};
ghost use Rattle.gm_file.specs.VerbViews.{mode_view};

use crate::fault::{DirectiveKind, LineFault};
use crate::part::{borrowed_one, is_empty_block, one_value, read_interval, read_pair, read_path};
use crate::replace::{Interval, Replace};
use crate::sides::read_replace;
use crate::verb::{Mode, Verb, verb_in};
use gm_name::{ModPath, ModVer};
use gm_name_table::KnownNames;
use gm_syntax::{Line, Token};
use std::alloc::Global;

/// The directive of one entry.
#[derive(Drop)]
pub enum Directive {
    /// `module`: the path of the module.
    Module(ModPath),
    /// `go`: the text of the version. It is parsed only when it is added to the fields of its file, since a second `go`
    /// is `Repeated` even if its version is invalid.
    Go(String),
    /// `require`: a module at its minimum version.
    Require(ModVer),
    /// `exclude`: a module at the excluded version.
    Exclude(ModVer),
    /// `replace`: both sides.
    Replace(Replace),
    /// `retract`: the retracted interval.
    Retract(Interval),
    /// An entry that is kept in the document but has no effect.
    Kept,
}

/// The path of a `module` entry with these arguments.
fn read_module(alloc: Global, names: &mut KnownNames, words: &[Token]) -> Result<ModPath, LineFault>
    ensures kept { KeepsNames names.old names.new }
    ensures read { IsPartRead (λ path. path) DirectiveKind.WrongArguments path_kinds
        (one_of (words_of words.now)) result }
{
    let path = borrowed_one(alloc, words)?;
    read_path(names, path.as_str())
}

/// The directive of an entry with this verb and these arguments, or the first fault that it has by itself.
#[tactic(auto, unfolding(crate::specs::Directives::directive_of))]
fn read_entry(
    alloc: Global,
    names: &mut KnownNames,
    verb: Verb,
    words: &[Token],
) -> Result<Directive, LineFault>
    ensures kept { KeepsNames names.old names.new }
    ensures read { IsPartRead directive_view (malformed_entry_kind verb) own_kinds
        (directive_of verb (words_of words.now)) result }
{
    match verb {
        Verb::Module => Ok(Directive::Module(read_module(alloc, names, words)?)),
        Verb::Go => Ok(Directive::Go(one_value(alloc, words)?)),
        Verb::Require => Ok(Directive::Require(read_pair(alloc, names, words)?)),
        Verb::Exclude => Ok(Directive::Exclude(read_pair(alloc, names, words)?)),
        Verb::Replace => Ok(Directive::Replace(read_replace(alloc, names, words)?)),
        Verb::Retract => Ok(Directive::Retract(read_interval(alloc, names, words)?)),
        Verb::Nothing => Ok(Directive::Kept),
        Verb::Unknown => Err(LineFault::Kind(DirectiveKind::UnknownVerb)),
    }
}

/// The directive of an entry with this verb and these arguments, if the verb is still a word.
// Inlined, so that the wide result is made in its place.
#[inline(always)]
fn read_verb_entry(
    alloc: Global,
    names: &mut KnownNames,
    mode: Mode,
    verb: &Token,
    words: &[Token],
) -> Result<Option<Directive>, LineFault>
    ensures kept { KeepsNames names.old names.new }
    ensures read { IsLineRead (mode_view mode) (Saying verb.now.word.spelling (words_of words.now)) result }
{
    Ok(Some(read_entry(alloc, names, verb_in(mode, verb.spelling()), words)?))
}

/// Checks the verb of a block that opens: no block opens for `go`, nor for an unknown verb. The opening itself has no
/// directive.
fn read_block_start(mode: Mode, verb: &Token) -> Result<Option<Directive>, LineFault>
    ensures { IsLineRead (mode_view mode) (Opening verb.now.word.spelling) result }
{
    match verb_in(mode, verb.spelling()) {
        Verb::Go => Err(LineFault::Kind(DirectiveKind::WrongArguments)),
        Verb::Unknown => Err(LineFault::Kind(DirectiveKind::UnknownVerb)),
        _ => Ok(None),
    }
}

/// The directive of a line, as `read_line` gives it. Names are looked up in `names` and added to it, so that equal
/// names share memory.
#[tactic(auto, unfolding(crate::specs::Directives::item_at))]
// Inlined, so that the wide result is made in its place.
#[inline(always)]
pub(crate) fn read_line_with_names(
    alloc: Global,
    names: &mut KnownNames,
    mode: Mode,
    block: Option<&Token>,
    line: &Line,
) -> Result<Option<Directive>, LineFault>
    ensures kept { KeepsNames names.old names.new }
    ensures read { IsLineRead (mode_view mode)
        (item_at (option_map (λ t. t.now.word) block.entry, plain (line_of line.now))) result }
{
    match line {
        Line::Blank | Line::Comment(_) | Line::Close(_) => Ok(None),
        Line::Open(verb, _) => read_block_start(mode, verb),
        Line::Entry(words, _) => match block {
            Some(verb) => read_verb_entry(alloc, names, mode, verb, words.as_slice()),
            None => match words.as_slice() {
                [] => Ok(None),
                [verb, arguments @ ..] => {
                    if is_empty_block(arguments) {
                        read_block_start(mode, verb)
                    } else {
                        read_verb_entry(alloc, names, mode, verb, arguments)
                    }
                }
            },
        },
    }
}

/// The directive of a line, or `None` if the line has none: a blank line, a comment, or the start or end of a block.
///
/// `block` is the verb of the block that is open before the line, if any. A whole block without entries, `VERB ()`, is
/// treated as the start of a block. The line is refused with `LineFault::Kind`, with the first kind in the order of
/// `DirectiveKind`, if it has a fault whatever lines come before it; the version of a `go` is not checked, since
/// `Repeated` comes before `BadGo`. It is refused with `LineFault::NoMemory` if memory runs out.
pub fn read_line(
    alloc: Global,
    mode: Mode,
    block: Option<&Token>,
    line: &Line,
) -> Result<Option<Directive>, LineFault>
    ensures { IsLineRead (mode_view mode)
        (item_at (option_map (λ t. t.now.word) block.entry, plain (line_of line.now))) result }
{
    let mut names = KnownNames::new(alloc, 0);
    read_line_with_names(alloc, &mut names, mode, block, line)
}
