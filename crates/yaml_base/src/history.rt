//! What has gone by, as a list that only contracts read. It takes no memory, and its functions do nothing when they
//! run.

ghost use Rattle.std.specs.Prelude.{◌≡◌, List, [], ◌∷◌, ◌++◌};
ghost use Rattle.std.specs.Borrow.{ftrue};

use std::marker::{Model, PhantomData};

/// Items that no byte stores, in the order in which they went by. Clauses read them as `items`.
#[derive(Drop)]
pub struct History<T> {
    of: PhantomData<T>,
    pub ghost items: { List T },
}

impl<T> Model for History<T> {
    ghost also_owns = { λ _. ftrue };
}

impl<T> History<T> {
    /// No item.
    pub fn new() -> History<T>
        ensures { result.items ≡ [] }
    {
        History { of: PhantomData }
    }

    /// The items of this history.
    pub fn copy(_of: &History<T>) -> History<T>
        ensures { result.items ≡ _of.now.items }
    {
        History { of: PhantomData }
    }

    /// The items of this history, and one more behind them.
    pub fn with(_before: &History<T>, _item: &T) -> History<T>
        ensures { result.items ≡ _before.now.items ++ _item.now ∷ [] }
    {
        History { of: PhantomData }
    }
}
