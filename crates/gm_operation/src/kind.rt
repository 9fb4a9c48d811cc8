//! The operations of `gomod edit`, and what each is called.

ghost use Rattle.std.specs.Prelude.{◌≡◌};
ghost use Rattle.gm_operation.specs.Operations.{operation_named};

/// What the name of an operation says.
#[derive(Clone, Copy)]
pub enum OperationKind {
    /// `module`: set the module path.
    Module,
    /// `go`: set the go version.
    Go,
    /// `require`: set the required version of a path.
    Require,
    /// `droprequire`: drop the requirements of a path.
    DropRequire,
    /// `exclude`: add an exclusion.
    Exclude,
    /// `dropexclude`: drop the exclusions of a version of a path.
    DropExclude,
    /// `replace`: set a replacement.
    Replace,
    /// `dropreplace`: drop the replacements with a left side.
    DropReplace,
    /// `retract`: add a retraction.
    Retract,
    /// `dropretract`: drop the retractions of an interval.
    DropRetract,
}

impl OperationKind {
    /// The kind of the operation with this name, or `None` if no operation has it.
    #[tactic(auto, unfolding(crate::specs::Operations::operation_named))]
    pub fn named(name: &str) -> Option<OperationKind>
        ensures { result ≡ operation_named name.now }
    {
        match name {
            "module" => Some(OperationKind::Module),
            "go" => Some(OperationKind::Go),
            "require" => Some(OperationKind::Require),
            "droprequire" => Some(OperationKind::DropRequire),
            "exclude" => Some(OperationKind::Exclude),
            "dropexclude" => Some(OperationKind::DropExclude),
            "replace" => Some(OperationKind::Replace),
            "dropreplace" => Some(OperationKind::DropReplace),
            "retract" => Some(OperationKind::Retract),
            "dropretract" => Some(OperationKind::DropRetract),
            _ => None,
        }
    }
}
