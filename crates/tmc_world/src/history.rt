//! A history that only proofs read.

ghost use Rattle.std.specs.Prelude.{◌≡◌, List, [], ◌∷◌, ◌++◌};
ghost use Rattle.std.specs.Borrow.{ftrue};

use std::marker::{Model, PhantomData};

/// What a value was at some moments, in order. It takes no memory, and its calls do nothing when they run.
#[derive(Drop)]
pub(crate) struct History<A> {
    of: PhantomData<A>,
    pub(crate) ghost moments: { List A },
}

impl<A> Model for History<A> {
    ghost also_owns = { λ _. ftrue };
}

// It owns nothing.
unsafe impl<A: Send> Send for History<A> {}

impl<A> History<A> {
    /// No moment.
    pub(crate) fn new() -> History<A>
        ensures { result.moments ≡ [] }
    {
        History { of: PhantomData }
    }

    /// The same moments, and what the value is now.
    pub(crate) fn and(&self, now: &A) -> History<A>
        ensures { result.moments ≡ self.now.moments ++ now.now ∷ [] }
    {
        History { of: PhantomData }
    }
}
