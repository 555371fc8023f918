//! Comparing the list of a peer with the taken one.
ghost use Rattle.std.specs.Prelude.{◌≡◌, ◌↔◌, ◌+◌, ◌<◌, ◌≤◌, ℕ, Some, IfErr, IfOk, IsTrue, OnOk, length, map};
ghost use Rattle.std.proofs.Common.{◌≢◌};
ghost use Rattle.hs_fold.specs.Shards.Setting.{Numbered};
ghost use Rattle.hs_peerlog.specs.Caused.{IsCalm, IsCaused, IsOutside};
ghost use Rattle.hs_peerlog.specs.Lists.{numbered_entry};
ghost use Rattle.hs_peerlog.specs.Views.{HasView, IsAsViewed};
ghost use Rattle.hs_ports.specs.declared.disk.Side.{Side};
ghost use Rattle.hs_taking.specs.Disks.{seen_as, seen_at};
ghost use Rattle.hs_taking.specs.Pairs.{HasCompared, IsPairFault, IsStill};

use crate::pair::{PairFault, other_fault, taken_fault};
use hs_entry::Entry;
use hs_peerlog::{LogFault, PeerView};
use hs_ports::Disk;

/// Whether the list of a peer is the taken one, whose disk is at the place `from`.
pub(crate) fn compare_at<D: Disk>(
    view: &PeerView,
    other: &PeerView,
    disks: &mut [D],
    from: usize,
    place: usize,
) -> Result<bool, PairFault>
    requires from { from < length disks.old }
    requires place { place < length disks.old }
    requires apart { from ≢ place }
    requires taken { IsAsViewed D.tells view.now
        ((seen_at (map (λ disk. seen_as (D.size disk) (D.stands disk) (D.faults disk)) disks.old)
        from).size view.now.log.side)
        (seen_at (map (λ disk. seen_as (D.size disk) (D.stands disk) (D.faults disk)) disks.old)
        from).stands }
    requires other { IsAsViewed D.tells other.now
        ((seen_at (map (λ disk. seen_as (D.size disk) (D.stands disk) (D.faults disk)) disks.old)
        place).size other.now.log.side)
        (seen_at (map (λ disk. seen_as (D.size disk) (D.stands disk) (D.faults disk)) disks.old)
        place).stands }
    ensures compared { HasCompared D.tells
        (seen_at (map (λ disk. seen_as (D.size disk) (D.stands disk) (D.faults disk)) disks.old)
        from)
        (seen_at (map (λ disk. seen_as (D.size disk) (D.stands disk) (D.faults disk)) disks.new)
        from)
        (seen_at (map (λ disk. seen_as (D.size disk) (D.stands disk) (D.faults disk)) disks.old)
        place)
        (seen_at (map (λ disk. seen_as (D.size disk) (D.stands disk) (D.faults disk)) disks.new)
        place) result }
    ensures rest { (peer : ℕ) → peer ≢ from → peer ≢ place
        → seen_at (map (λ disk. seen_as (D.size disk) (D.stands disk) (D.faults disk)) disks.new)
        peer
        ≡ seen_at (map (λ disk. seen_as (D.size disk) (D.stands disk) (D.faults disk)) disks.old)
        peer }
    ensures count { length disks.new ≡ length disks.old }
{
    if from < place {
        let (low, high) = disks.split_at_mut(place);
        compare_lists(view, other, &mut low[from], &mut high[0])
    } else {
        let (low, high) = disks.split_at_mut(from);
        compare_lists(view, other, &mut high[0], &mut low[place])
    }
}

/// Whether the list of a view is the taken one: entry by entry, of which no more than two are held.
fn compare_lists<D: Disk>(
    view: &PeerView,
    other: &PeerView,
    source: &mut D,
    disk: &mut D,
) -> Result<bool, PairFault>
    requires source { IsAsViewed D.tells view.now (D.size source.old view.now.log.side)
        (D.stands source.old) }
    requires disk { IsAsViewed D.tells other.now (D.size disk.old other.now.log.side)
        (D.stands disk.old) }
    ensures { HasCompared D.tells
        (seen_as (D.size source.old) (D.stands source.old) (D.faults source.old))
        (seen_as (D.size source.new) (D.stands source.new) (D.faults source.new))
        (seen_as (D.size disk.old) (D.stands disk.old) (D.faults disk.old))
        (seen_as (D.size disk.new) (D.stands disk.new) (D.faults disk.new)) result }
{
    if other.rank() != view.rank() {
        return Ok(false);
    }
    'entries: for index in 0..view.last() {
        match compare_entry(view, other, source, disk, index + 1) {
            Ok(true) => {}
            Ok(false) => return Ok(false),
            Err(fault) => return Err(fault),
        }
    }
    Ok(true)
}

/// Whether two lists have the same entry of a number.
fn compare_entry<D: Disk>(
    view: &PeerView,
    other: &PeerView,
    source: &mut D,
    disk: &mut D,
    number: u64,
) -> Result<bool, PairFault>
    requires source { IsAsViewed D.tells view.now (D.size source.old view.now.log.side)
        (D.stands source.old) }
    requires disk { IsAsViewed D.tells other.now (D.size disk.old other.now.log.side)
        (D.stands disk.old) }
    requires some { 0 < number }
    requires within { number ≤ view.now.rank.number }
    requires both { number ≤ other.now.rank.number }
    ensures same { D.tells → (whole own : Numbered) → HasView view.now (D.stands source.old).seen whole
        → HasView other.now (D.stands disk.old).seen own → IfOk result (λ same.
        IsTrue same ↔ (numbered_entry own number ≡ numbered_entry whole number)) }
    ensures source { IsStill D.tells
        (seen_as (D.size source.old) (D.stands source.old) (D.faults source.old))
        (seen_as (D.size source.new) (D.stands source.new) (D.faults source.new)) }
    ensures disk { IsStill D.tells
        (seen_as (D.size disk.old) (D.stands disk.old) (D.faults disk.old))
        (seen_as (D.size disk.new) (D.stands disk.new) (D.faults disk.new)) }
    ensures calm { OnOk result ((D.faults source.new ≡ D.faults source.old)
        × (D.faults disk.new ≡ D.faults disk.old)) }
    ensures cause { IfErr result (IsPairFault D.tells
        (seen_as (D.size source.old) (D.stands source.old) (D.faults source.old))
        (seen_as (D.size source.new) (D.stands source.new) (D.faults source.new))
        (seen_as (D.size disk.old) (D.stands disk.old) (D.faults disk.old))
        (seen_as (D.size disk.new) (D.stands disk.new) (D.faults disk.new))) }
{
    let entry = match view_entry(view, source, number) {
        Ok(entry) => entry,
        Err(fault) => return Err(taken_fault(fault)),
    };
    let found = match view_entry(other, disk, number) {
        Ok(found) => found,
        Err(fault) => return Err(other_fault(fault)),
    };
    Ok(entry.is_same(&found))
}

/// The entry of a number of a view, which has so many.
fn view_entry<D: Disk>(view: &PeerView, disk: &mut D, number: u64) -> Result<Entry, LogFault>
    requires viewed { IsAsViewed D.tells view.now (D.size disk.old view.now.log.side)
        (D.stands disk.old) }
    requires some { 0 < number }
    requires within { number ≤ view.now.rank.number }
    ensures found { D.tells → (list : Numbered) → HasView view.now (D.stands disk.old).seen list
        → IfOk result (λ entry. numbered_entry list number ≡ Some entry) }
    ensures refused { D.tells → IfErr result IsOutside }
    ensures same { D.tells → D.stands disk.new ≡ D.stands disk.old }
    ensures same_size { (side : Side) → D.size disk.new side ≡ D.size disk.old side }
    ensures calm { IsCalm (D.faults disk.old) (D.faults disk.new) result }
    ensures cause { IsCaused (D.faults disk.old) (D.faults disk.new) result }
{
    match view.entry(disk, number) {
        Ok(Some(entry)) => Ok(entry),
        Ok(None) => Err(LogFault::NotALog { at: number }),
        Err(fault) => Err(fault),
    }
}
