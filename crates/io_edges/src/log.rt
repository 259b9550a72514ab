//! A history that only proofs read. It takes no memory, and its methods do nothing at run time.
ghost use Rattle.std.specs.Prelude.{◌≡◌, List, [], ◌∷◌, ◌++◌};
ghost use Rattle.std.specs.Borrow.{ftrue};

use std::marker::{Model, PhantomData};

/// What happened so far, in order. A clause reads it as `items`.
#[derive(Drop)]
pub(crate) struct Log<A> {
    of: PhantomData<A>,
    pub ghost items: { List A },
}

impl<A> Model for Log<A> {
    ghost also_owns = { λ _. ftrue };
}

impl<A> Log<A> {
    /// Nothing so far.
    pub(crate) fn new() -> Log<A>
        ensures { result.items ≡ [] }
    {
        Log { of: PhantomData }
    }

    /// One item more.
    pub(crate) fn and(&self, item: &A) -> Log<A>
        ensures { result.items ≡ self.now.items ++ item.now ∷ [] }
    {
        Log { of: PhantomData }
    }
}
