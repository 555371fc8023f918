//! The disks of two stores, which one list has.
ghost use Rattle.std.specs.Prelude.{◌≡◌, ◌+◌, ◌≤◌, ◌++◌, [], IfOk, OnErr, OnOk, drop, take, vec_capacity, vec_len};

use std::alloc::AllocError;

/// The disks of the first store, and of the second.
#[derive(Drop)]
pub(crate) struct Two<D> {
    pub(crate) first: Vec<D>,
    pub(crate) second: Vec<D>,
}

/// Takes the first so many disks, and the others, out of a list, which has room for all of them
/// afterwards. Where memory is wanting it has them still.
pub(crate) fn take_two<D: Drop>(disks: &mut Vec<D>, count: usize) -> Result<Two<D>, AllocError>
    requires { count ≤ vec_len disks.old }
    ensures first { IfOk result (λ two. two.first.items ≡ take count disks.old.items) }
    ensures second { IfOk result (λ two. two.second.items ≡ drop count disks.old.items) }
    ensures taken { OnOk result (disks.new.items ≡ []) }
    ensures room { OnOk result (vec_len disks.old ≤ vec_capacity disks.new) }
    ensures same { OnErr result (disks.new.items ≡ disks.old.items) }
{
    let mut second = disks.split_off(count)?;
    match disks.split_off(0) {
        Ok(first) => Ok(Two { first, second }),
        Err(_) => match disks.append(&mut second) {
            Ok(()) => Err(AllocError),
            Err(_) => unreachable!(),
        },
    }
}

/// Hands the disks of both stores back, those of the first in front.
pub(crate) fn hand_back<D: Drop>(disks: &mut Vec<D>, two: Two<D>)
    requires none { disks.old.items ≡ [] }
    requires room { vec_len two.first + vec_len two.second ≤ vec_capacity disks.old }
    ensures { disks.new.items ≡ two.first.items ++ two.second.items }
{
    let Two {
        mut first,
        mut second,
    } = two;
    match disks.append(&mut first) {
        Ok(()) => {}
        Err(_) => unreachable!(),
    }
    match disks.append(&mut second) {
        Ok(()) => {}
        Err(_) => unreachable!(),
    }
}
