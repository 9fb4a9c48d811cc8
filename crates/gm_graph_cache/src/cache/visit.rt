//! What a visit of a vertex gets from the cache.

ghost use Rattle.std.specs.Prelude.{◌≡◌};

use crate::cache::lent::Lent;
use gm_graph_files::Class;

/// What a cache says of a vertex.
#[derive(Clone, Copy)]
pub(crate) enum Verdict {
    /// The vertex has this fault.
    Fault(Class),
    /// The vertex has no fault.
    Sound {
        /// The place in the cache of the file that has its list: its own, or an earlier one with the same requirements.
        file: u32,
        /// Whether the visit also opens what the vertex requires.
        leads: bool,
    },
}

impl Verdict {
    ghost use Rattle.gm_graph_cache.specs.Private.CacheVisits.{file_of_verdict};

    /// The place of the file that has the vertex's list, if the vertex has no fault.
    pub(crate) fn file(self) -> Option<u32>
        ensures { result ≡ file_of_verdict self }
    {
        match self {
            Verdict::Fault(_) => None,
            Verdict::Sound { file, .. } => Some(file),
        }
    }
}

/// What a vertex without a fault requires.
#[derive(Clone, Copy)]
pub struct Required<'a> {
    /// The place in the cache of the file that has its list.
    pub file: u32,
    /// Whether the visit also opens what the vertex requires.
    pub leads: bool,
    /// What its file requires, without the excluded ones.
    pub list: Lent<'a>,
}

/// What a visit gets of a vertex.
#[derive(Clone, Copy)]
pub enum Visit<'a> {
    /// The vertex has this fault, and requires nothing.
    Fault(Class),
    /// The vertex has no fault, and requires this.
    Required(Required<'a>),
}

impl<'a> Visit<'a> {
    ghost use Rattle.gm_graph_cache.specs.Private.CacheVisits.{visit_of};

    /// What a visit gets of a vertex, from what the cache says of it, and what it lent.
    pub(crate) fn of(verdict: Verdict, list: Lent<'a>) -> Visit<'a>
        ensures { result ≡ visit_of verdict list.entry }
    {
        match verdict {
            Verdict::Fault(class) => Visit::Fault(class),
            Verdict::Sound { file, leads } => Visit::Required(Required { file, leads, list }),
        }
    }
}
