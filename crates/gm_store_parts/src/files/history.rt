//! Lists of pairs that only proofs read.

ghost use Rattle.std.specs.Prelude.{◌≡◌, List, [], ◌∷◌, ◌++◌};
ghost use Rattle.std.specs.Borrow.{ftrue};

use std::marker::{Model, PhantomData};

/// A list of pairs that only proofs read, such as requests with their answers. It takes no memory, and its calls do
/// nothing when they run.
///
/// Nothing in memory has to agree with it but what its owner ties to it, as `LastAnswer` does the last answer. So a
/// clause about it says less than one about a list in memory, since no call gives an earlier pair: it binds code that is
/// generic over a trait and can't tell such an owner from one that keeps a list.
#[derive(Drop)]
pub struct History<A, B> {
    /// What the pairs are of.
    of: PhantomData<(A, B)>,
    // The pairs, in order.
    pub ghost items: { List (A × B) },
}

impl<A, B> Model for History<A, B> {
    // A history owns nothing.
    ghost also_owns = { λ _. ftrue };
}

impl<A, B> History<A, B> {
    /// No pairs.
    pub fn new() -> History<A, B>
        ensures { result.items ≡ [] }
    {
        History { of: PhantomData }
    }

    /// These pairs, and one more after them.
    pub fn with(&self, first: &A, second: &B) -> History<A, B>
        ensures { result.items ≡ self.now.items ++ (first.now, second.now) ∷ [] }
    {
        History { of: PhantomData }
    }
}
