//! What a log amounts to, read entry by entry.
ghost use Rattle.std.specs.Prelude.{◌≡◌, ◌↔◌, ◌<◌, ℕ, List, true, IfErr, IfOk, IsOkUnless, IsTrue};
ghost use Rattle.hs_entry.specs.declared.entry.Entry.{Entry};
ghost use Rattle.hs_limits.specs.Shape.{IsShape};
ghost use Rattle.hs_memory.specs.Forget.{apply_all, named};
ghost use Rattle.hs_peerlog.specs.Caused.{IsCalm, IsCaused, IsOutside};
ghost use Rattle.hs_peerlog.specs.Views.{HasView};
ghost use Rattle.hs_ports.specs.declared.disk.Side.{Side};
ghost use Rattle.hs_shard.specs.Apply.{MayTake, apply};
ghost use Rattle.hs_shard.specs.declared.fault.ShardFault.TheVariants.{NoMemory};
ghost use Rattle.hs_shard.specs.Facts.{empty_catalogue};
ghost use Rattle.hs_side.specs.Standing.{Stands};
ghost use Rattle.hs_taking.specs.Loaded.{IsLoaded};

use hs_block::Addresser;
use hs_entry::{Entry, Rank};
use hs_limits::{Address, Limits, Shape};
use hs_peerlog::{LogFault, PeerView};
use hs_ports::Disk;
use hs_shard::{Catalogue, ShardFault};
use std::alloc::Global;

/// What a list amounts to: the catalogue of its shard, and its rank.
#[derive(Drop)]
pub struct Loaded {
    pub catalogue: Catalogue,
    pub rank: Rank,
}

/// Applies the entries of a view, one after another; no more than one is held. What is read under a
/// number that is no entry of it makes the disk no log, and so do entries that come to another rank
/// than the view's: a disk that tells its contents never gives that. An entry that its catalogue can't take counts as want of memory.
pub fn load<A: Addresser, D: Disk>(
    alloc: Global,
    naming: &A,
    view: &PeerView,
    disk: &mut D,
    shape: Shape,
    limits: Limits,
    shard: u8,
) -> Result<Loaded, LogFault>
    requires shape { IsShape shape }
    requires shard { shard < shape.shards }
    requires stands { Stands D.tells view.now.log (D.size disk.old view.now.log.side)
        (D.stands disk.old) }
    ensures loaded { IfOk result (IsLoaded D.tells
        (apply_all (A.name naming.now) (empty_catalogue shape shard))
        (HasView view.now (D.stands disk.old).seen)) }
    ensures ranked { IfOk result (λ loaded. loaded.rank ≡ view.now.rank) }
    ensures refused { D.tells → (list : List (ℕ × Entry))
        → HasView view.now (D.stands disk.old).seen list → IfErr result IsOutside }
    ensures same { D.tells → D.stands disk.new ≡ D.stands disk.old }
    ensures same_size { (s : Side) → D.size disk.new s ≡ D.size disk.old s }
    ensures calm { IsCalm (D.faults disk.old) (D.faults disk.new) result }
    ensures cause { IsCaused (D.faults disk.old) (D.faults disk.new) result }
{
    let mut catalogue = Catalogue::new(alloc, shape, shard, limits);
    let mut rank = Rank { view: 0, number: 0 };
    'entries: for index in 0..view.last() {
        let number = index + 1;
        let found = match view.entry(disk, number) {
            Ok(found) => found,
            Err(fault) => return Err(fault),
        };
        let entry = match found {
            Some(entry) => entry,
            None => return Err(LogFault::NotALog { at: number }),
        };
        match take_entry(naming, &mut catalogue, number, &entry) {
            Ok(true) => {}
            // No sound list has such an entry.
            Ok(false) | Err(_) => return Err(LogFault::NoMemory),
        }
        rank = rank.after(number, &entry);
    }
    if rank != view.rank() {
        return Err(LogFault::NotALog { at: view.last() });
    }
    Ok(Loaded { catalogue, rank })
}

/// An entry takes effect, where its catalogue can take it: whether it can.
fn take_entry<A: Addresser>(
    naming: &A,
    catalogue: &mut Catalogue,
    number: u64,
    entry: &Entry,
) -> Result<bool, ShardFault>
    ensures may { IfOk result (λ may. IsTrue may
        ↔ MayTake number entry.now (named (A.name naming.now) entry.now) catalogue.old) }
    ensures taken { IfOk result (λ may. may ≡ true → catalogue.new
        ≡ (apply number entry.now (named (A.name naming.now) entry.now) catalogue.old).catalogue) }
    ensures only { IsOkUnless result NoMemory }
{
    let named = name_of(naming, entry);
    if !catalogue.may_take(number, entry, named) {
        return Ok(false);
    }
    match catalogue.apply(number, entry, named) {
        Ok(_) => Ok(true),
        Err(fault) => Err(fault),
    }
}

/// The address that comes with an entry: of a Block that of its bytes.
fn name_of<A: Addresser>(naming: &A, entry: &Entry) -> Option<Address>
    ensures { result ≡ named (A.name naming.now) entry.now }
{
    match entry {
        Entry::Block { bytes, .. } => Some(naming.address(bytes.as_slice())),
        Entry::View { .. }
        | Entry::Mark { .. }
        | Entry::Root { .. }
        | Entry::Drop { .. }
        | Entry::Enter { .. }
        | Entry::Got { .. }
        | Entry::Base { .. }
        | Entry::KeptBlock { .. }
        | Entry::KeptRoot { .. }
        | Entry::KeptRound { .. } => None,
    }
}
