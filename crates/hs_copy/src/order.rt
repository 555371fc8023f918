//! Ordering blocks, each behind those that it points to.
ghost use Rattle.std.specs.Prelude.{◌≡◌, ◌<◌, ℕ, List, [], length, map, replicate, slice_get, slice_set, true, IfErr, IfOk, OnOk, Some};
ghost use Rattle.hs_copy.specs.Placing.{ArePlacedSoFar, EndsWithFirst, IsOrdered, Places, StaysMarked};
ghost use Rattle.hs_copy.specs.declared.fault.PartFault.TheVariants.{NoMemory};
ghost use Rattle.hs_copy.specs.declared.order.Mark.TheVariants as mark;

use crate::fault::PartFault;
use crate::list::Listed;
use crate::pushing::push_to;
use hs_limits::ListOf;
use hs_shared::SharedBytes;
use std::alloc::{AllocError, Global};

/// A block in its place: the number by which it was listed, its bytes, and for each of its pointers the
/// place of that block, which is before its own.
#[derive(Debug, Drop)]
pub(crate) struct Placed {
    pub number: u32,
    pub bytes: SharedBytes,
    pub below: ListOf<u32>,
}

/// A block on the way down from the first one, and how many of its pointers were followed.
#[derive(Clone, Copy, Debug, PartialEq, Eq)]
pub(crate) struct Step {
    pub number: u32,
    pub followed: usize,
}

/// Whether a block was come to, and where it stands.
#[derive(Clone, Copy, Debug, PartialEq, Eq)]
pub(crate) enum Mark {
    New,
    Entered,
    At(u32),
}

/// Where a block stands. One that doesn't stand yet counts as want of memory: it would lead back to
/// itself.
fn place_at(marks: &[Mark], number: u32) -> Result<u32, PartFault>
    ensures ok { IfOk result (λ place. slice_get marks.now number ≡ Some (mark.At place)) }
    ensures err { IfErr result (λ f. f ≡ NoMemory) }
{
    match marks.get(number as usize) {
        Some(Mark::At(place)) => Ok(*place),
        _ => Err(PartFault::NoMemory),
    }
}

/// Where the blocks of these numbers stand.
fn places_of(alloc: Global, marks: &[Mark], numbers: &[u32]) -> Result<ListOf<u32>, PartFault>
    ensures ok { IfOk result (λ places. map (λ n. slice_get marks.now n) numbers.now
        ≡ map (λ p. Some (mark.At p)) places) }
    ensures err { IfErr result (λ f. f ≡ NoMemory) }
{
    let mut places = Vec::new(alloc);
    for number in numbers {
        let place = place_at(marks, *number)?;
        push_to(&mut places, place)?;
    }
    Ok(ListOf::from_vec(places))
}

/// Writes the mark of a number.
fn set_mark(marks: &mut Vec<Mark>, number: u32, to: Mark)
    requires { number < length marks.old.items }
    ensures { marks.new.items ≡ slice_set marks.old.items number to }
{
    marks[number as usize] = to;
}

/// Whether a block was come to, and stands nowhere yet.
fn is_entered(marks: &[Mark], number: u32) -> bool
    ensures { result ≡ true → slice_get marks.now number ≡ Some mark.Entered }
{
    match marks.get(number as usize) {
        Some(Mark::Entered) => true,
        _ => false,
    }
}

/// Whether a block was not come to.
fn is_new(marks: &[Mark], number: u32) -> bool
    ensures { result ≡ true → slice_get marks.now number ≡ Some mark.New }
{
    match marks.get(number as usize) {
        Some(Mark::New) => true,
        _ => false,
    }
}

/// Puts a block at the end, behind all those that it points to.
fn place_block(
    alloc: Global,
    block: &Listed,
    number: u32,
    marks: &mut Vec<Mark>,
    placed: &mut Vec<Placed>,
) -> Result<(), PartFault>
    ensures ok { OnOk result (Places block.now number marks.old.items marks.new.items
        placed.old.items placed.new.items) }
    ensures err { IfErr result (λ f. f ≡ NoMemory) }
{
    if !is_entered(marks, number) {
        return Err(PartFault::NoMemory);
    }
    let below = places_of(alloc, marks, block.pointers.as_slice())?;
    let bytes = block.bytes.copy()?;
    let Ok(place) = u32::try_from(placed.len()) else {
        return Err(PartFault::NoMemory);
    };
    set_mark(marks, number, Mark::At(place));
    let block = Placed {
        number,
        bytes,
        below,
    };
    push_to(placed, block)?;
    Ok(())
}

/// Comes to a block, unless it was come to before.
fn enter(number: u32, marks: &mut Vec<Mark>, path: &mut Vec<Step>) -> Result<(), PartFault>
    ensures ok { OnOk result (StaysMarked marks.old.items marks.new.items) }
    ensures err { IfErr result (λ f. f ≡ NoMemory) }
{
    if !is_new(marks, number) {
        return Ok(());
    }
    set_mark(marks, number, Mark::Entered);
    let step = Step {
        number,
        followed: 0,
    };
    push_to(path, step)?;
    Ok(())
}

/// Follows the next pointer of the block at the end of the path, or puts the block in its place where
/// all of them were followed.
fn take_step(
    alloc: Global,
    listed: &[Listed],
    step: Step,
    marks: &mut Vec<Mark>,
    path: &mut Vec<Step>,
    placed: &mut Vec<Placed>,
) -> Result<(), PartFault>
    ensures ok { OnOk result (
        ArePlacedSoFar listed.now marks.old.items placed.old.items →
        ArePlacedSoFar listed.now marks.new.items placed.new.items) }
    ensures err { IfErr result (λ f. f ≡ NoMemory) }
{
    let Some(block) = listed.get(step.number as usize) else {
        return Err(PartFault::NoMemory);
    };
    match block.pointers.as_slice().get(step.followed) {
        Some(below) => {
            let more = Step {
                number: step.number,
                followed: step.followed + 1,
            };
            push_to(path, more)?;
            enter(*below, marks, path)
        }
        None => place_block(alloc, block, step.number, marks, placed),
    }
}

/// So many marks of blocks that were not come to.
fn new_marks(alloc: Global, count: usize) -> Result<Vec<Mark>, AllocError>
    ensures { IfOk result (λ marks. marks.items ≡ replicate count mark.New) }
{
    let marks = vec![in alloc; Mark::New; count]?;
    Ok(marks)
}

/// How many steps there are: each pointer is followed once, and each block put in its place.
fn steps_of(listed: &[Listed]) -> usize {
    let mut steps = 0_usize;
    for block in listed {
        steps = steps.saturating_add(block.pointers.len()).saturating_add(1);
    }
    steps
}

/// Whether so many blocks are in their places, and the first one that was listed is the last.
fn is_whole(count: usize, placed: &[Placed]) -> bool
    ensures { result ≡ true → (length placed.now ≡ count) × EndsWithFirst placed.now }
{
    match placed.split_last() {
        Some((last, _)) => last.number == 0 && placed.len() == count,
        None => false,
    }
}

/// The listed blocks, each behind those that it points to: depth first from the first one, which comes
/// last, with pointers in order. All have to be reached from it, and none may lead back to itself.
pub(crate) fn order_blocks(alloc: Global, listed: &[Listed]) -> Result<Vec<Placed>, PartFault>
    ensures ok { IfOk result (λ placed. IsOrdered listed.now placed.items) }
    ensures err { IfErr result (λ f. f ≡ NoMemory) }
{
    let mut marks = new_marks(alloc, listed.len())?;
    let mut path = Vec::new(alloc);
    let mut placed = Vec::new(alloc);
    enter(0, &mut marks, &mut path)?;
    'steps: for _ in 0..steps_of(listed) {
        let Some(step) = path.pop() else {
            break 'steps;
        };
        take_step(alloc, listed, step, &mut marks, &mut path, &mut placed)?;
    }
    if !is_whole(listed.len(), &placed) {
        return Err(PartFault::NoMemory);
    }
    Ok(placed)
}
