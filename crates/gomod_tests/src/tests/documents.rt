//! Documents: copies, and lines that are inserted and removed.

ghost use Rattle.std.specs.Prelude.{◌≡◌};
ghost use Rattle.gm_syntax_words.specs.Lines.{HasNoLineFeed};
ghost use Rattle.gm_syntax.specs.Document.{is_level};
ghost use Rattle.gm_syntax.specs.LineViews.{line_of, plain};

use super::{OUT_OF_MEMORY, assert_same};
use gm_syntax::{Doc, Line, Token};
use std::alloc::{AllocError, Global};
use std::process::Abort;

/// A document with a comment, a block and a quoted word. It is already in its layout.
const TEXT: &str = "a // c\nb (\n\t\"c d\"\n)\n";

/// Inserts an entry of one new word before the last line. If memory runs out, the document stays as it is.
fn add_entry(alloc: Global, doc: &mut Doc<'_>, value: &str) -> Result<(), AllocError>
    requires { HasNoLineFeed value.now }
{
    let word = Token::spell(alloc, value)?;
    let mut words = Vec::new(alloc);
    words.push(word)?;
    let last = doc.lines().len().saturating_sub(1);
    doc.insert_line(last, Line::Entry(words, None))
}

/// Whether a line neither opens nor closes a block.
fn is_level(line: &Line<'_>) -> bool
    ensures { result ≡ is_level (plain (line_of line.now)) }
{
    match line {
        Line::Blank => true,
        Line::Comment(_) => true,
        Line::Open(_, _) => false,
        Line::Close(_) => false,
        Line::Entry(_, _) => true,
    }
}

/// Removes the first line if it neither opens nor closes a block. Says whether it did.
fn drop_first(doc: &mut Doc<'_>) -> bool {
    if doc.lines().is_empty() || !is_level(&doc.lines()[0]) {
        return false;
    }
    doc.remove_lines(0, 1);
    true
}

/// A document.
fn doc<'a>(rt: &impl Abort, alloc: Global, text: &'a str) -> Doc<'a> {
    Doc::parse(alloc, text.as_bytes()).expect(rt, text)
}

/// Compares the layout of a copy of a document with a text.
fn assert_layout(rt: &impl Abort, title: &str, doc: &Doc<'_>, wanted: &str) {
    let copy = doc.copy().expect(rt, OUT_OF_MEMORY);
    let text = copy.format().expect(rt, OUT_OF_MEMORY);
    assert_same(rt, title, &text.as_str(), &wanted);
}

#[test]
fn lines_go_in_and_out(rt: HostRuntime) {
    let doc = doc(&rt, rt.alloc(), TEXT);
    let mut copy = doc.copy().expect(&rt, OUT_OF_MEMORY);
    add_entry(rt.alloc(), &mut copy, "x y").expect(&rt, OUT_OF_MEMORY);
    let drops = (drop_first(&mut copy), drop_first(&mut copy));
    assert_same(&rt, "drops", &drops, &(true, false));
    assert_layout(&rt, "changed", &copy, "b (\n\t\"c d\"\n\t\"x y\"\n)\n");
    assert_layout(&rt, "as it was", &doc, TEXT);
}
