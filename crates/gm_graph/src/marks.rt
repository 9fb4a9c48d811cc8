//! Marks of vertices: the depths at which they have turns.

ghost use Rattle.std.specs.Prelude.{◌≡◌, ◌||◌};
ghost use Rattle.gm_graph.specs.Private.Marks.{is_marked, no_marks};
ghost use Rattle.gm_graph_files.specs.Turns.{same_depth};
ghost use Rattle.gm_graph_files.specs.declared.depth.Depth.{Depth};

use gm_graph_cache::Depth;

/// The depths at which a vertex has a turn.
#[derive(Clone, Copy)]
pub(crate) struct Marks {
    /// Whether it has one at the top.
    pub(crate) top: bool,
    /// Whether it has one at full depth.
    pub(crate) deep: bool,
}

impl Marks {
    /// The marks of a vertex without turns.
    pub(crate) fn none() -> Marks
        ensures { result ≡ no_marks }
    {
        Marks {
            top: false,
            deep: false,
        }
    }

    /// Whether the vertex has a turn at this depth.
    pub(crate) fn has(self, depth: Depth) -> bool
        ensures { result ≡ is_marked self depth }
    {
        match depth {
            Depth::Top => self.top,
            Depth::Deep => self.deep,
        }
    }

    /// Whether the vertex has a turn at any depth.
    pub(crate) fn has_any(self) -> bool
        ensures { result ≡ (self.top || self.deep) }
    {
        self.top || self.deep
    }

    /// The marks with that of this depth.
    pub(crate) fn with(self, depth: Depth) -> Marks
        ensures { (d : Depth) → is_marked result d ≡ (same_depth d depth || is_marked self d) }
    {
        match depth {
            Depth::Top => Marks {
                top: true,
                deep: self.deep,
            },
            Depth::Deep => Marks {
                top: self.top,
                deep: true,
            },
        }
    }
}
