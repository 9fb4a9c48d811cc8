//! Faults as a program that uses the libraries shows them. No command prints these words.

use super::{OUT_OF_MEMORY, assert_same};
use gm_file_edit::EditFault;
use gm_graph::Class;
use gm_syntax::{Doc, SyntaxFault};
use std::alloc::Global;
use std::fmt::Display;
use std::process::Abort;

/// Compares how a fault is shown with a text.
fn assert_shown(rt: &impl Abort, alloc: Global, fault: &impl Display, wanted: &str) {
    let shown = format!(in alloc; "{fault}").expect(rt, OUT_OF_MEMORY);
    assert_same(rt, "shown", &shown.as_str(), &wanted);
}

/// The fault of a text that is not a document.
fn syntax_fault(rt: &impl Abort, alloc: Global, text: &str) -> SyntaxFault {
    Doc::parse(alloc, text.as_bytes()).err().expect(rt, text)
}

#[test]
fn faults_are_shown(rt: HostRuntime) {
    let open = syntax_fault(&rt, rt.alloc(), "module example.com/hello\nrequire (\n");
    assert_shown(&rt, rt.alloc(), &open, "line 2: a block that isn't closed");
    assert_shown(
        &rt,
        rt.alloc(),
        &EditFault::Misfit,
        "the version doesn't fit the path",
    );
    assert_shown(&rt, rt.alloc(), &Class::Missing, "missing");
}
