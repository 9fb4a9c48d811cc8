//! The definition of what an operation of `edit` leaves, tried on small files: a definition that meant something else
//! than its comment says would fail here.

ghost use Rattle.gomod_laws.specs.ExampleEdits.{AdditionGoesIntoTheBlock, CommentKeepsABlock, DropEmptiesABlock, FirstRequirementIsLast, GoGoesAfterTheBlock, SettingRewritesTheFirst};

/// `widened_from`: the drop of the only entry of a block takes the block, and one blank line after it.
pub fn drop_empties_a_block()
    ensures { DropEmptiesABlock }
{}

/// `empties`: a comment in a block keeps it.
pub fn comment_keeps_a_block()
    ensures { CommentKeepsABlock }
{}

/// `renewing_from`: the first requirement of the path gets the version and keeps its comment. The later one goes
/// with its block.
pub fn setting_rewrites_the_first()
    ensures { SettingRewritesTheFirst }
{}

/// `with_addition`: a new exclusion stands after the last one, in its block; a first requirement after a blank line at
/// the end.
pub fn additions_have_a_place()
    ensures block { AdditionGoesIntoTheBlock }
    ensures end { FirstRequirementIsLast }
{}

/// `after_first_of`: a new go directive stands after the block of the module directive.
pub fn go_goes_after_the_block()
    ensures { GoGoesAfterTheBlock }
{}
