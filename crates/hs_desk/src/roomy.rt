//! A list that takes room beforehand.
ghost use Rattle.std.specs.Prelude.{◌≡◌, ◌∷◌, ◌++◌, [], length, if◌then◌else◌, OnOk, OnErr};
ghost use Rattle.hs_desk.specs.Roomy.{option_list};

use hs_limits::ListOf;
use std::alloc::{AllocError, Global};
use std::marker::Model;

/// A list that can take the room for its next item beforehand. Contracts see the list of the items.
#[derive(Debug, Drop)]
pub struct RoomyList<T> {
    items: Vec<T>,
}

impl<T> Model for RoomyList<T> {
    ghost use Rattle.std.specs.Prelude.{List};

    ghost Value = { List T };

    ghost view = { λ a. a.items.items };
}

impl<T> RoomyList<T> {
    /// The empty list. It takes no memory.
    pub fn new(alloc: Global) -> Self
        ensures { result ≡ [] }
    {
        RoomyList {
            items: Vec::new(alloc),
        }
    }

    /// The items as a list. It takes no memory.
    pub fn into_list(self) -> ListOf<T>
        ensures { result ≡ self }
    {
        let RoomyList { items } = self;
        ListOf::from_vec(items)
    }

    /// The items in order.
    pub fn as_slice(&self) -> &[T]
        ensures { result.now ≡ self.now }
    {
        self.items.as_slice()
    }

    /// The number of items.
    pub fn len(&self) -> usize
        ensures { result ≡ length self.now }
    {
        self.items.len()
    }

    /// Takes the room for one item more, where there is none yet.
    pub fn reserve_one(&mut self) -> Result<(), AllocError>
        ensures { self.new ≡ self.old }
    {
        self.items.reserve(1)
    }
}

impl<T: Drop> RoomyList<T> {
    /// Adds an item at the end where there is room for it, and tells whether there was. It takes no memory.
    pub fn push_in_room(&mut self, item: T) -> bool
        ensures { self.new ≡ (if result then self.old ++ item ∷ [] else self.old) }
    {
        if self.items.len() == self.items.capacity() {
            return false;
        }
        self.items.push(item).is_ok()
    }
}

/// Adds an item to a list, and to another one where there is one, or leaves both as they were.
pub(crate) fn push_both<T: Drop, S: Drop>(
    list: &mut RoomyList<T>,
    item: T,
    other: &mut RoomyList<S>,
    more: Option<S>,
) -> Result<(), AllocError>
    ensures list { OnOk result (list.new ≡ list.old ++ item ∷ []) }
    ensures other { OnOk result (other.new ≡ other.old ++ option_list more) }

    ensures same_list { OnErr result (list.new ≡ list.old) }
    ensures same_other { OnErr result (other.new ≡ other.old) }
{
    let Some(more) = more else {
        list.items.push(item)?;
        return Ok(());
    };
    other.items.reserve(1)?;
    list.items.push(item)?;
    if other.items.push(more).is_err() {
        unreachable!();
    }
    Ok(())
}
