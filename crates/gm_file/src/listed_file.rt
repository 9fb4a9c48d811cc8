//! A dependency's file whose requirements were put into a list of modules.
//!
//! Files that name the same modules then share them: a requirement takes the four bytes of its number.

ghost use Rattle.std.specs.Prelude.{◌≡◌, Some, unwrap_or};
ghost use Rattle.std.specs.Option.{option_copied};
ghost use Rattle.gm_name_table.specs.Listed.{Appends, NumberedList};
ghost use Rattle.gm_file.specs.Main.{is_pruned_by};

use crate::fields::Fields;
use crate::go_version::is_pruned;
use gm_name::ModPath;
use gm_name_table::ModuleList;
use std::marker::Model;

/// What a build needs of a dependency's file, read laxly, other than its requirements, which are in a list of modules.
/// It has no retractions.
#[derive(Drop)]
pub struct ListedFile {
    /// The path of the `module` directive, if there is one.
    declared: Option<ModPath>,
    /// The first two numbers of the go version, or 1 and 16.
    go: (u32, u32),
}

impl Model for ListedFile {
    ghost use Rattle.gm_file.specs.Listed.{Head};

    ghost Value = { Head };

    ghost view = { λ f. record { declared = f.declared; go = f.go } };
}

impl ListedFile {
    /// The file with these fields. The list of modules that its requirements went to the end of is put
    /// instead of this one.
    pub(crate) fn of_fields(fields: Fields, modules: &mut ModuleList) -> ListedFile
        ensures file { result ≡ record {
          declared = fields.declared;
          go = unwrap_or fields.go (1, 16);
        } }
        ensures modules { (before : NumberedList) → fields.requirements.before ≡ Some before
            → Appends before modules.new fields.requirements.items }
    {
        let Fields {
            declared,
            go,
            requirements,
            ..
        } = fields;
        requirements.give_back(modules);
        ListedFile {
            declared,
            go: go.unwrap_or((1, 16)),
        }
    }

    /// The path of the `module` directive, if there is one.
    pub fn module(&self) -> Option<&ModPath>
        ensures { option_copied result ≡ self.now.declared }
    {
        self.declared.as_ref()
    }

    /// The first two numbers of the `go` directive's version, or 1 and 16 if the file has no `go` directive (Go
    /// Modules Reference, go directive).
    pub fn go(&self) -> (u32, u32)
        ensures { result ≡ self.now.go }
    {
        self.go
    }

    /// Whether the file is pruned by its go version, that is, whether the first two numbers are 1.17 or higher (Go
    /// Modules Reference, "Module graph pruning").
    pub fn is_pruned(&self) -> bool
        ensures { result ≡ is_pruned_by self.now.go }
    {
        is_pruned(self.go)
    }
}
