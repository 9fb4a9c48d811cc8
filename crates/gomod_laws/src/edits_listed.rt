//! A law of `edit` and `list` together: what an edit replaces, the list shows.

ghost use Rattle.gomod_laws.specs.EditListLaws.{ReplacedPathIsShown, ReplacedVersionIsShown};

/// What replaces is shown. If the last operation of `edit` is a `replace=`, and `list` prints over what `edit` printed,
/// a row that it is about goes on with ` => ` and its right side.
pub fn the_replacement_is_shown()
    // after `replace=PATH@VERSION=RIGHT`, the row of that version, if it is listed
    ensures version { ReplacedVersionIsShown }
    // after `replace=PATH=RIGHT`, the row of that path, if it is listed
    ensures path { ReplacedPathIsShown }
{}
