//! Items in order.

ghost use Rattle.std.specs.Prelude.{◌≡◌};

use std::alloc::AllocError;
use std::marker::Model;

/// Items in order, which contracts see as a list.
#[derive(Debug, Drop)]
pub struct Items<T> {
    items: Vec<T>,
}

impl<T> Model for Items<T> {
    ghost use Rattle.std.specs.Prelude.{List};
    ghost use Rattle.std.specs.Coded.{coded_list};

    ghost Value = { List T };

    ghost coded = { coded_list T.code };

    ghost view = { λ list. list.items.items };
}

impl<T> Items<T> {
    ghost use Rattle.std.specs.Borrow.{sem};
    ghost use Rattle.cam_units.specs.Lending.{LendsItems};

    /// The items of a vector, in order.
    pub fn from_vec(items: Vec<T>) -> Items<T>
        ensures { result ≡ items.items }
    {
        Items { items }
    }

    /// The vector of the items, in order.
    pub fn into_vec(self) -> Vec<T>
        ensures { result.items ≡ self }
    {
        let Items { items } = self;
        items
    }

    /// The items, in order.
    pub fn as_slice(&self) -> &[T]
        ensures { result.now ≡ self.now }
    {
        self.items.as_slice()
    }

    /// The items, in order, to be changed in their places.
    pub fn as_mut_slice(&mut self) -> &mut [T]
        ensures* list { sem 𝓛 (LendsItems T.row self.entry result) }
        ensures items { result.now ≡ self.old }
    {
        self.items.as_mut_slice()
    }
}

impl<T: Clone> Clone for Items<T> {
    // Where each clone of an item is the same item, the clone is the same list.
    ghost is_clone = { λ list copy. ((x y : T) → T.is_clone x y → y ≡ x) → copy ≡ list };

    fn clone(&self) -> Result<Items<T>, AllocError> {
        let items = self.items.clone()?;
        Ok(Items { items })
    }
}
