//! Storing a file under a key.
ghost use Rattle.std.specs.Prelude.{◌≡◌, ◌++◌, ◌+◌, ◌<◌, ◌≤◌, ℕ, List, [], length, IfOk, IfErr, IfSome, OnErr, OnOk, None};
ghost use Rattle.hs_asking.specs.Shown.{IfTold, Shown};
ghost use Rattle.hs_ports.specs.Source.{IsEnded};
ghost use Rattle.hs_tree.specs.Calls.{IsAskFault, IsPartFault, IsStoringFault};
ghost use Rattle.hs_tree.specs.Growing.{HasTop, IsGrown, IsHalted, IsStopped};
ghost use Rattle.hs_tree.specs.Storing.{HasAdded, HasGathered, HasHalted, HasStored, HasTaken, IsGathered, IsIdle, IsTaking, IsUnderWay, IsUnfinished, IsUnwritten, IsWhole, our_session};
ghost use Rattle.hs_tree.specs.Trees.{stored_cut, tree_of};

use crate::TreeFault;
use crate::calls::{open, root};
use crate::grow::{Node, add_piece, close_run};
use crate::session::session_name;
use crate::sizes::{MOST_FILE, RUN_BYTES};
use crate::taking::{is_at_end, take_piece};
use hs_asking::Asker;
use hs_block::Addresser;
use hs_limits::{Key, MOST_BYTES, MOST_POINTERS, Name};
use hs_ports::Source;
use std::alloc::Global;

/// Adds a piece, behind a run that is closed first where it is whole.
fn add_next<B: Asker, A: Addresser>(
    alloc: Global,
    asker: &mut B,
    naming: &A,
    session: &Name,
    bytes: u64,
    piece: Vec<u8>,
    upper: &mut Vec<Node>,
    lower: &mut Vec<Node>,
) -> Result<(), TreeFault>
    requires going { (B.shows asker.old).ended ≡ None }
    requires taking { IsUnderWay (A.name naming.now) session.now
        (B.shows asker.old) upper.old.items lower.old.items bytes }
    requires short { length piece.items ≤ 65536 }
    requires some { length piece.items ≡ 0 → bytes ≡ 0 }
    ensures ok { OnOk result ((start : Shown B.tells) (file : List ℕ) →
        IsTaking (A.name naming.now) session.now start (B.shows asker.old)
        upper.old.items lower.old.items file → bytes ≡ length file →
        HasAdded (A.name naming.now) session.now start (B.shows asker.new)
        upper.new.items lower.new.items file piece.items) }
    ensures going { OnOk result ((B.shows asker.new).ended ≡ None) }
    ensures kind { IfErr result IsAskFault }
    ensures err { IfErr result (λ f. (key : List ℕ) (start : Shown B.tells) (file : List ℕ) →
        IsTaking (A.name naming.now) session.now start (B.shows asker.old)
        upper.old.items lower.old.items file → bytes ≡ length file →
        IsHalted (A.name naming.now) session.now key start (B.shows asker.new)
        (tree_of stored_cut (A.name naming.now) (file ++ piece.items)) f) }
{
    if lower.len() < MOST_POINTERS {
        return add_piece(alloc, asker, naming, session, piece, lower);
    }
    close_run(alloc, asker, naming, session, RUN_BYTES, lower, upper)?;
    add_piece(alloc, asker, naming, session, piece, lower)
}

/// Takes the next piece of a source, adds it, and answers how many bytes it has. An empty one is added
/// where it is the first.
fn take_next<B: Asker, S: Source, A: Addresser>(
    alloc: Global,
    asker: &mut B,
    naming: &A,
    session: &Name,
    source: &mut S,
    bytes: u64,
    upper: &mut Vec<Node>,
    lower: &mut Vec<Node>,
) -> Result<u64, TreeFault>
    requires going { (B.shows asker.old).ended ≡ None }
    requires taking { IsUnderWay (A.name naming.now) session.now
        (B.shows asker.old) upper.old.items lower.old.items bytes }
    ensures ok { IfOk result (λ taken. (start : Shown B.tells) (file : List ℕ) →
        IsTaking (A.name naming.now) session.now start (B.shows asker.old)
        upper.old.items lower.old.items file → bytes ≡ length file →
        HasTaken (A.name naming.now) session.now start (B.shows asker.new)
        (S.left source.old) (S.left source.new)
        upper.new.items lower.new.items file taken) }
    ensures bound { IfOk result (λ taken. taken ≤ 65536) }
    ensures going { OnOk result ((B.shows asker.new).ended ≡ None) }
    ensures cause { IfErr result (IsPartFault (S.faults source.old) (S.faults source.new)) }
    ensures later { S.faults source.old ≤ S.faults source.new }
    ensures err { IfErr result (λ f. (key : List ℕ) (start : Shown B.tells) (file : List ℕ) →
        IsTaking (A.name naming.now) session.now start (B.shows asker.old)
        upper.old.items lower.old.items file → bytes ≡ length file →
        HasHalted (A.name naming.now) session.now key start (B.shows asker.new)
        (S.left source.old) (S.left source.new) file f) }
{
    let piece = take_piece(alloc, source, MOST_BYTES)?;
    let taken = piece.len() as u64;
    if taken == 0 && bytes > 0 {
        return Ok(0);
    }
    add_next(alloc, asker, naming, session, bytes, piece, upper, lower)?;
    Ok(taken)
}

/// Takes a source to its end, piece by piece, and answers how many bytes it gave.
fn gather<B: Asker, S: Source, A: Addresser>(
    alloc: Global,
    asker: &mut B,
    naming: &A,
    session: &Name,
    source: &mut S,
    upper: &mut Vec<Node>,
    lower: &mut Vec<Node>,
) -> Result<u64, TreeFault>
    requires going { (B.shows asker.old).ended ≡ None }
    requires begun { IsUnderWay (A.name naming.now) session.now
        (B.shows asker.old) upper.old.items lower.old.items 0 }
    ensures ok { IfOk result (λ bytes. (start : Shown B.tells) →
        IsTaking (A.name naming.now) session.now start (B.shows asker.old)
        upper.old.items lower.old.items [] →
        HasGathered (A.name naming.now) session.now start (B.shows asker.new)
        (S.left source.old) (S.left source.new)
        upper.new.items lower.new.items bytes) }
    ensures going { OnOk result ((B.shows asker.new).ended ≡ None) }
    ensures cause { IfErr result (IsStoringFault (S.faults source.old) (S.faults source.new)
        (S.left source.old)) }
    ensures later { S.faults source.old ≤ S.faults source.new }
    ensures err { IfErr result (λ f. (key : List ℕ) (start : Shown B.tells) →
        IsTaking (A.name naming.now) session.now start (B.shows asker.old)
        upper.old.items lower.old.items [] →
        HasHalted (A.name naming.now) session.now key start (B.shows asker.new)
        (S.left source.old) (S.left source.new) [] f) }
{
    let mut bytes = 0;
    while bytes < MOST_FILE {
        let taken = take_next(alloc, asker, naming, session, source, bytes, upper, lower)?;
        bytes += taken;
        if taken < MOST_BYTES as u64 {
            return Ok(bytes);
        }
    }
    if is_at_end(alloc, source)? {
        Ok(bytes)
    } else {
        Err(TreeFault::InputFull)
    }
}

/// Closes what is open, and answers the top.
fn finish<B: Asker, A: Addresser>(
    alloc: Global,
    asker: &mut B,
    naming: &A,
    session: &Name,
    bytes: u64,
    upper: &mut Vec<Node>,
    lower: &mut Vec<Node>,
) -> Result<Node, TreeFault>
    requires going { (B.shows asker.old).ended ≡ None }
    requires whole { IsWhole (A.name naming.now) session.now
        (B.shows asker.old) upper.old.items lower.old.items bytes }
    ensures ok { IfOk result (λ top. (start : Shown B.tells) (file : List ℕ) →
        IsGathered (A.name naming.now) session.now start (B.shows asker.old)
        upper.old.items lower.old.items file → bytes ≡ length file →
        HasTop (A.name naming.now) session.now start (B.shows asker.new) top file) }
    ensures going { OnOk result ((B.shows asker.new).ended ≡ None) }
    ensures kind { IfErr result IsAskFault }
    ensures err { IfErr result (λ f. (key : List ℕ) (start : Shown B.tells) (file : List ℕ) →
        IsGathered (A.name naming.now) session.now start (B.shows asker.old)
        upper.old.items lower.old.items file → bytes ≡ length file →
        IsHalted (A.name naming.now) session.now key start (B.shows asker.new)
        (tree_of stored_cut (A.name naming.now) file) f) }
{
    if upper.is_empty() && lower.len() == 1 {
        return Ok(lower[0]);
    }
    let below = bytes - upper.len() as u64 * RUN_BYTES;
    close_run(alloc, asker, naming, session, below, lower, upper)?;
    if upper.len() == 1 {
        return Ok(upper[0]);
    }
    let mut highest = Vec::new(alloc);
    close_run(alloc, asker, naming, session, bytes, upper, &mut highest)?;
    Ok(highest[0])
}

/// Opens the session of a storing.
fn begin<B: Asker, A: Addresser>(
    alloc: Global,
    asker: &mut B,
    _naming: &A,
    session: &Name,
) -> Result<(), TreeFault>
    requires going { (B.shows asker.old).ended ≡ None }
    requires ours { session.now ≡ our_session }
    requires idle { IfTold (B.shows asker.old) (λ b.
        IsIdle (A.name _naming.now) b (B.shows asker.old)) }
    ensures ok { OnOk result (IsGrown (A.name _naming.now) our_session
        (B.shows asker.old) (B.shows asker.new) [] []) }
    ensures kind { IfErr result IsAskFault }
    ensures err { IfErr result (λ f. (key : List ℕ) →
        IsStopped our_session key (B.shows asker.old) (B.shows asker.new) f) }
    ensures unwritten { OnErr result (IsUnwritten (B.shows asker.old) (B.shows asker.new)) }
{
    asker.known();
    open(alloc, asker, session)
}

/// Stores what a source gives as a file under a key, and answers the number of its bytes: at most
/// 67,108,864. The pieces are written as they come, and the root is put last.
pub fn store_file<B: Asker, S: Source, A: Addresser>(
    alloc: Global,
    asker: &mut B,
    naming: &A,
    source: &mut S,
    key: &Key,
) -> Result<u64, TreeFault>
    requires going { (B.shows asker.old).ended ≡ None }
    requires idle { IfTold (B.shows asker.old) (λ b.
        IsIdle (A.name naming.now) b (B.shows asker.old)) }
    ensures stored { IfOk result (λ bytes. HasStored (A.name naming.now) key.now
        (B.shows asker.old) (B.shows asker.new) (S.left source.old) (S.left source.new) bytes) }
    ensures stopped { IfErr result (λ f.
        IsStopped our_session key.now (B.shows asker.old) (B.shows asker.new) f) }
    ensures unfinished { OnErr result (IsUnfinished (A.name naming.now)
        (B.shows asker.old) (B.shows asker.new) (S.left source.old) (S.left source.new)) }
    // A fault of the source is counted, and a file is too long only where another byte came.
    ensures cause { IfErr result (IsStoringFault (S.faults source.old) (S.faults source.new)
        (S.left source.old)) }
    ensures later { S.faults source.old ≤ S.faults source.new }
{
    let session = session_name(alloc)?;
    begin(alloc, asker, naming, &session)?;
    let mut upper = Vec::new(alloc);
    let mut lower = Vec::new(alloc);
    let bytes = gather(
        alloc, asker, naming, &session, source, &mut upper, &mut lower,
    )?;
    let top = finish(
        alloc, asker, naming, &session, bytes, &mut upper, &mut lower,
    )?;
    root(alloc, asker, &session, key, top.handle)?;
    Ok(bytes)
}
