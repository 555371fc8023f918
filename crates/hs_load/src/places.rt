//! Places, each with an item or with none.
ghost use Rattle.std.specs.Prelude.{◌≡◌, ◌<◌, ◌∷◌, ◌++◌, [], IfOk, None, OnErr, OnOk, Some, replicate, slice_index_or, slice_set, vec_len};

use std::alloc::{AllocError, Global};

/// So many places with nothing in them.
pub(crate) fn nothing_at<T: Drop>(alloc: Global, count: usize) -> Result<Vec<Option<T>>, AllocError>
    ensures items { IfOk result (λ places. places.items ≡ replicate count None) }
    ensures count { IfOk result (λ places. vec_len places ≡ count) }
{
    let mut places = Vec::new(alloc);
    for _place in 0..count {
        places.push(None)?;
    }
    Ok(places)
}

/// Puts an item at a place, where there is one.
pub(crate) fn put_at<T: Drop>(
    places: &mut Vec<Option<T>>,
    place: u8,
    item: T,
) -> Result<(), AllocError>
    ensures ok { OnOk result (places.new.items ≡ slice_set places.old.items place (Some item)) }
    ensures same { OnErr result (places.new.items ≡ places.old.items) }
    ensures count { vec_len places.new ≡ vec_len places.old }
{
    let place = usize::from(place);
    if place >= places.len() {
        return Err(AllocError);
    }
    places[place] = Some(item);
    Ok(())
}

/// Takes the item at a place, where there is one.
pub(crate) fn take_at<T>(places: &mut Vec<Option<T>>, place: usize) -> Option<T>
    requires { place < vec_len places.old }
    ensures item { result ≡ slice_index_or places.old.items place None }
    ensures rest { places.new.items ≡ slice_set places.old.items place None }
    ensures count { vec_len places.new ≡ vec_len places.old }
{
    places[place].take()
}

/// Adds an item at the end.
pub(crate) fn add<T: Drop>(items: &mut Vec<T>, item: T) -> Result<(), AllocError>
    ensures ok { OnOk result (items.new.items ≡ items.old.items ++ item ∷ []) }
{
    match items.push(item) {
        Ok(()) => Ok(()),
        Err(_) => Err(AllocError),
    }
}
