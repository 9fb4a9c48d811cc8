//! The requirements that a cache returns.

ghost use Rattle.gm_name_table.specs.Listed.{modules_of};
ghost use Rattle.gm_graph_files.specs.KeptFiles.{IsWithinList};

use gm_graph_files::ListSpan;
use gm_name_table::{ModuleList, Modules};

/// Requirements that a cache returned: a part of its list of modules.
#[derive(Clone, Copy)]
pub struct Lent<'a> {
    /// The list of modules.
    modules: &'a ModuleList,
    /// Where the requirements are in it.
    span: ListSpan,
    ghost within: { IsWithinList (modules_of modules.now) span },
}

impl<'a> Lent<'a> {
    ghost use Rattle.std.specs.Prelude.{◌≡◌, length};
    ghost use Rattle.std.specs.List.{IsDistinct};
    ghost use Rattle.gm_name.specs.ModuleVersion.{pair_eq};
    ghost use Rattle.gm_name_table.specs.Listed.{AreModuleNumbers, modules_at};
    ghost use Rattle.gm_graph_cache.specs.Lent.{lent_modules, lent_table};
    ghost use Rattle.gm_graph_files.specs.Summaries.{at_span};

    /// The part of a list of modules at a span.
    pub(crate) fn at(modules: &'a ModuleList, span: ListSpan) -> Lent<'a>
        requires { IsWithinList (modules_of modules.now) span }
        ensures modules { lent_modules result ≡ at_span (modules_of modules.now) span }
        ensures table { lent_table result ≡ modules.now.modules }
    {
        Lent { modules, span }
    }

    /// How many modules have numbers.
    pub fn module_count(self) -> usize
        ensures count { result ≡ length (lent_table self.entry) }
        ensures distinct { IsDistinct pair_eq (lent_table self.entry) }
    {
        self.modules.module_count()
    }

    /// The numbers of the requirements, in order.
    pub fn numbers(self) -> &'a [u32]
        ensures below { AreModuleNumbers (lent_table self.entry) result.now }
        ensures modules { modules_at (lent_table self.entry) result.now ≡ lent_modules self.entry }
    {
        self.modules.numbers(self.span.start, self.span.end)
    }

    /// The requirements, in order.
    pub fn modules(self) -> Modules<'a>
        ensures { result ≡ lent_modules self.entry }
    {
        self.modules.part(self.span.start, self.span.end)
    }
}
