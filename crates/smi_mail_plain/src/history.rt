//! A history that only contracts read. It takes no memory, and its functions do nothing when run.
//!
//! No code computes what it holds, so its two functions are proved by hand. The code that keeps one ties it to
//! what is real: a mailbox adds each letter that is taken of it, and nothing else.
ghost use Rattle.std.specs.Prelude.{◌≡◌, List, [], ◌∷◌, ◌++◌};
ghost use Rattle.std.specs.Borrow.{ftrue};

use std::marker::{Model, PhantomData};

/// What was added, in order.
#[derive(Drop)]
pub struct History<T> {
    of: PhantomData<T>,
    pub ghost items: { List T },
}

impl<T> Model for History<T> {
    ghost also_owns = { λ _. ftrue };
}

impl<T> History<T> {
    /// The history in which nothing was added.
    pub fn new() -> History<T>
        ensures { result.items ≡ [] }
    {
        History { of: PhantomData }
    }

    /// The history with one item more.
    pub fn and(&self, item: &T) -> History<T>
        ensures { result.items ≡ self.now.items ++ item.now ∷ [] }
    {
        History { of: PhantomData }
    }
}
