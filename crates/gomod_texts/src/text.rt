//! The texts that commands print.

ghost use Rattle.std.specs.Prelude.{◌≡◌, [], drop};
ghost use Rattle.std.specs.String.{string_bytes};
ghost use Rattle.gomod_texts.specs.ChainQuery.{chain_text};
ghost use Rattle.gomod_texts.specs.GraphQuery.{graph_text};
ghost use Rattle.gomod_texts.specs.ListQuery.{list_text, up_to};
ghost use Rattle.gomod_texts.specs.Taking.{Took};

use crate::edges::write_edges;
use crate::rows::{part_of, write_rows};
use crate::steps::write_steps;
use gm_graph::Loaded;
use gm_graph_select::Step;
use gm_name::ModPath;
use gm_store::{Sink, WriteFault, write_all};
use std::marker::Model;

/// A text to print. A clause sees it as its bytes.
///
/// It holds what its lines are made of, and they are made when they are written: the lines of a graph can take a
/// thousand times the memory of the graph.
#[derive(Drop)]
pub struct Text {
    /// What it is made of.
    source: Source,
}

impl Model for Text {
    ghost use Rattle.std.specs.Prelude.{List, ℕ};
    ghost use Rattle.gomod_texts.specs.Sources.{CanBeWritten, source_text};

    ghost Value = { List ℕ };

    ghost view = { λ text. source_text text.source };

    ghost invariant = { λ text. CanBeWritten text.source };
}

/// What a text is made of.
#[derive(Drop)]
pub(crate) enum Source {
    /// This text.
    Whole(String),
    /// A line for each edge of a graph, as `write_edges` writes them.
    Edges {
        /// The main module's path.
        main: ModPath,
        /// The graph.
        loaded: Loaded,
    },
    /// A line for each row of a build list but the first `from`, up to the limit, as `write_rows` writes them.
    Rows {
        /// The main module's path.
        main: ModPath,
        /// The graph whose build list it is, without faults.
        loaded: Loaded,
        /// How many rows are left out.
        from: usize,
        /// How many are written at most, if there is a limit.
        limit: Option<u32>,
    },
    /// A line for each step of a chain, as `write_steps` writes them.
    Steps {
        /// The main module's path.
        main: ModPath,
        /// The steps.
        steps: Vec<Step>,
    },
}

impl Text {
    /// This text.
    pub fn whole(text: String) -> Text
        ensures { result ≡ string_bytes text }
    {
        Text {
            source: Source::Whole(text),
        }
    }

    /// The edges of a graph, where `main` is the main module's path.
    pub fn edges(main: ModPath, loaded: Loaded) -> Text
        ensures { result ≡ graph_text main loaded.edges }
    {
        Text {
            source: Source::Edges { main, loaded },
        }
    }

    /// The rows of the build list but the first `from`, up to the limit if there is one. No opened vertex may have a
    /// fault, since the list would otherwise be incomplete.
    pub fn rows(main: ModPath, loaded: Loaded, from: usize, limit: Option<u32>) -> Text
        requires { loaded.faults ≡ [] }
        ensures { result ≡ list_text main (up_to limit (drop from loaded.rows)) }
    {
        Text {
            source: Source::Rows {
                main,
                loaded,
                from,
                limit,
            },
        }
    }

    /// The steps of a chain.
    pub fn steps(main: ModPath, steps: Vec<Step>) -> Text
        ensures { result ≡ chain_text main steps.items }
    {
        Text {
            source: Source::Steps { main, steps },
        }
    }

    /// Writes the text to a sink, up to the first failure of the sink. It takes no memory. Of a text of lines whole
    /// lines are written, as many at once as 16,384 bytes hold; a longer line is written in pieces.
    pub fn write<O: Sink>(&self, sink: &mut O) -> Result<(), WriteFault>
        ensures { Took (O.state sink.old) (O.state sink.new) self.now result }
    {
        match &self.source {
            Source::Whole(text) => write_whole(sink, text.as_str()),
            Source::Edges { main, loaded } => write_edges(sink, main, loaded.edges()),
            Source::Rows {
                main,
                loaded,
                from,
                limit,
            } => write_rows(sink, main, part_of(loaded.build_list(), *from, *limit)),
            Source::Steps { main, steps } => write_steps(sink, main, steps.as_slice()),
        }
    }
}

/// Writes a text that is one string to a sink, up to the first failure of the sink. It takes no memory.
pub fn write_whole<O: Sink>(sink: &mut O, text: &str) -> Result<(), WriteFault>
    ensures { Took (O.state sink.old) (O.state sink.new) text.now result }
{
    write_all(sink, text.as_bytes())
}
