//! What the main module's file says, which all of a module graph depends on.

ghost use Rattle.std.specs.Prelude.{◌≡◌};
ghost use Rattle.std.specs.Option.{option_map};
ghost use Rattle.gm_file.specs.Indexes.{AreIndexed, IsSetOfLines};
ghost use Rattle.gm_file.specs.Main.{is_excluded, is_pruned_by, replacement_in};
ghost use Rattle.gm_file.specs.Views.{replace_views, right_view};

use crate::exclusions::Exclusions;
use crate::go_version::is_pruned;
use crate::replace::{Replace, Right};
use crate::replacements::Replacements;
use gm_name::{ModPath, ModVer};
use std::marker::Model;

/// What the main module's file says, other than its retractions. It borrows nothing, and keeps no document.
#[derive(Drop)]
pub struct MainModule {
    /// The path of the `module` directive.
    declared: ModPath,
    /// The first two numbers of the go version, or 1 and 16.
    go: (u32, u32),
    /// The modules of the `require` lines, in order.
    requirements: Vec<ModVer>,
    /// The modules of the `exclude` lines, in order, with their index.
    excludes: Exclusions,
    /// The `replace` lines, in order, with their index.
    replaces: Replacements,
}

impl Model for MainModule {
    ghost use Rattle.gm_file.specs.Indexes.{AreIndexed, IsSetOfLines};
    ghost use Rattle.gm_file.specs.Main.{Main};
    ghost use Rattle.gm_file.specs.Views.{replace_views};

    ghost Value = { Main };

    ghost view = { λ m. record {
      path = m.declared;
      go = m.go;
      requirements = m.requirements.items;
      excludes = m.excludes.lines.items;
      replaces = replace_views m.replaces.lines.items;
    } };

    ghost invariant = { λ m. IsSetOfLines m.excludes × AreIndexed m.replaces };
}

impl MainModule {
    /// What a file with these fields says.
    pub(crate) fn new(
        declared: ModPath,
        go: (u32, u32),
        requirements: Vec<ModVer>,
        excludes: Exclusions,
        replaces: Replacements,
    ) -> MainModule
        requires excludes { IsSetOfLines excludes }
        requires replaces { AreIndexed replaces }
        ensures { result ≡ record {
          path = declared;
          go = go;
          requirements = requirements.items;
          excludes = excludes.lines.items;
          replaces = replace_views replaces.lines.items;
        } }
    {
        MainModule {
            declared,
            go,
            requirements,
            excludes,
            replaces,
        }
    }

    /// The path of the `module` directive.
    pub fn path(&self) -> &ModPath
        ensures { result.now ≡ self.now.path }
    {
        &self.declared
    }

    /// The first two numbers of the `go` directive's version, or 1 and 16 if the file has no `go` directive (Go
    /// Modules Reference, go directive).
    pub fn go(&self) -> (u32, u32)
        ensures { result ≡ self.now.go }
    {
        self.go
    }

    /// Whether the file is pruned by its go version, that is, whether the first two numbers are 1.17 or higher (Go
    /// Modules Reference, "Module graph pruning").
    pub fn is_pruned(&self) -> bool
        ensures { result ≡ is_pruned_by self.now.go }
    {
        is_pruned(self.go)
    }

    /// The modules of the `require` lines, in the order of the lines and with duplicates.
    pub fn requirements(&self) -> &[ModVer]
        ensures { result.now ≡ self.now.requirements }
    {
        self.requirements.as_slice()
    }

    /// The modules of the `exclude` lines, in the order of the lines and with duplicates.
    pub fn excludes(&self) -> &[ModVer]
        ensures { result.now ≡ self.now.excludes }
    {
        self.excludes.as_slice()
    }

    /// The `replace` lines, in order and with duplicates.
    pub fn replaces(&self) -> &[Replace]
        ensures { replace_views result.now ≡ self.now.replaces }
    {
        self.replaces.as_slice()
    }

    /// The replacement of a module at a version, or `None` if no `replace` applies to it.
    ///
    /// This is the right side of the `replace` that names the version, otherwise of the one that names only the path
    /// (Go Modules Reference, replace directive). The lookup allocates nothing and takes logarithmic time in the
    /// number of lines.
    pub fn replacement(&self, pair: &ModVer) -> Option<&Right>
        ensures { option_map (λ right. right_view right.now) result ≡ replacement_in self.now pair.now }
    {
        self.replaces.replacement(pair)
    }

    /// Whether an `exclude` line names that path and version (Go Modules Reference, exclude directive).
    ///
    /// The lookup allocates nothing and takes logarithmic time in the number of lines.
    pub fn excluded(&self, pair: &ModVer) -> bool
        ensures { result ≡ is_excluded self.now pair.now }
    {
        self.excludes.contains(pair)
    }
}
