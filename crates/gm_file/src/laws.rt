//! Laws over the definitions of directives and their faults. The functions do nothing: each contract is a law.

ghost use Rattle.gm_file.specs.Pairwise.{ClashIsMutual, FaultlessIsPairwise};

/// Strict reading finds no fault in lines exactly if each line is right by itself, the directives at no two places
/// clash, and one declares the module. So the order of lines doesn't matter.
pub fn faultless_is_pairwise()
    ensures { FaultlessIsPairwise }
{}

/// Two directives clash whichever comes first.
pub fn clash_is_mutual()
    ensures { ClashIsMutual }
{}
