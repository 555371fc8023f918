//! Opening a cluster.
ghost use Rattle.std.specs.Prelude.{◌≡◌, ◌*◌, ◌++◌, ◌<◌, ◌≤◌, ℕ, None, false, flat_map, is_some, length, map, IfErr, IfOk, OnErr, OnOk};
ghost use Rattle.hs_cluster.specs.Begins.{Begins, HasOpened, IsClosed, bad_of, begun_course, good_of, is_took, of_taking, opened_with, took_of};
ghost use Rattle.hs_cluster.specs.Counts.{NoneFalls};
ghost use Rattle.hs_cluster.specs.Disks.{AreReady, log_at, seen_as, seen_at};
ghost use Rattle.hs_cluster.specs.Opens.{Opens};
ghost use Rattle.hs_cluster.specs.Unopened.{LeavesAsTaken};
ghost use Rattle.hs_core_words.specs.Looking.{status_of};
ghost use Rattle.hs_core_words.specs.Opening.{open_core};
ghost use Rattle.hs_limits.specs.Shape.{IsShape};
ghost use Rattle.hs_members.specs.Members.{IsPeer, all_peers, is_joining};
ghost use Rattle.hs_side.specs.declared.header.Header.{Header};
ghost use Rattle.hs_side.specs.Headers.{own_header};
ghost use Rattle.hs_taking.specs.Headed.{KeepsItsHeader};
ghost use Rattle.hs_taking.specs.Opening.{LeavesShard};
ghost use Rattle.hs_taking.specs.Spared.{SparesDisks};
ghost use Rattle.hs_taking.specs.Viewed.{IsOnlyRead};

use crate::{Cluster, ClusterFault};
use hs_block::Addresser;
use hs_core::Core;
use hs_limits::{Limits, Shape};
use hs_members::home_of;
use hs_model::CourseItem;
use hs_peerlog::PeerLog;
use hs_ports::{Disk, Watch};
use hs_shard::Catalogue;
use hs_taking::{Share, TakeFault, Taking, read_store};
use std::alloc::{AllocError, Global};

impl From<TakeFault> for ClusterFault {
    ghost from_gives = { λ taken fault. fault ≡ of_taking taken };

    fn from(taken: TakeFault) -> ClusterFault {
        match taken {
            TakeFault::WrongShape { peer, found } => ClusterFault::WrongShape { peer, found },
            TakeFault::NoMemory => ClusterFault::NoMemory,
        }
    }
}

/// A cluster that was opened, and whether its core goes on: else why it has ended, or that memory ran
/// out on the turns, so that the cluster is of use no more.
#[derive(Drop)]
pub struct Opened {
    pub cluster: Cluster,
    pub done: Result<(), ClusterFault>,
}

impl Cluster {
    /// Opens a cluster: reads every disk, takes the log of each shard, opens the core over them, and
    /// does turns until nobody has one. A disk that fails, or is no log, is out of use. A disk of
    /// another store, or of another peer, ends it before anything is written. Where the core has ended,
    /// or memory ran out on the turns, the cluster has what was answered so far. It has no cache yet.
    pub fn open<A: Addresser, D: Disk>(
        alloc: Global,
        shape: Shape,
        limits: Limits,
        naming: &A,
        disks: &mut [D],
        watch: &mut Watch,
    ) -> Result<Opened, ClusterFault>
        requires shape { IsShape shape }
        requires count { length disks.old ≡ shape.shards * shape.copies }
        ensures opens { IfOk result (λ opened. Opens D.tells
            (record { name = A.name naming.now; limits = limits; shape = shape })
            (record {
              before = watch.old;
              now = watch.new;
              old = map (λ disk. seen_as (D.size disk) (D.stands disk) (D.faults disk)) disks.old;
              new = map (λ disk. seen_as (D.size disk) (D.stands disk) (D.faults disk)) disks.new;
            }) opened.cluster opened.done) }
        ensures opened { IfOk result (λ opened. HasOpened D.tells
            (record { name = A.name naming.now; limits = limits; shape = shape })
            (record {
              before = watch.old;
              now = watch.new;
              old = map (λ disk. seen_as (D.size disk) (D.stands disk) (D.faults disk)) disks.old;
              new = map (λ disk. seen_as (D.size disk) (D.stands disk) (D.faults disk)) disks.new;
            }) opened.cluster opened.done) }
        ensures closed { IfErr result (IsClosed D.tells shape
            (map (λ disk. seen_as (D.size disk) (D.stands disk) (D.faults disk)) disks.old)
            (map (λ disk. seen_as (D.size disk) (D.stands disk) (D.faults disk)) disks.new)) }
        ensures unwritten { IfErr result (λ fault. (at : ℕ) (found : Header)
            → fault ≡ ClusterFault.WrongShape at found → (peer : ℕ) → peer < length disks.old
            → IsOnlyRead D.tells watch.old watch.new
            (seen_at (map (λ disk. seen_as (D.size disk) (D.stands disk) (D.faults disk))
            disks.old) peer)
            (seen_at (map (λ disk. seen_as (D.size disk) (D.stands disk) (D.faults disk))
            disks.new) peer)) }
        // And where a disk of another store did not fail none was written, memory wanting or not.
        ensures spares { OnErr result (SparesDisks D.tells shape (record {
          before = watch.old;
          now = watch.new;
          old = map (λ disk. seen_as (D.size disk) (D.stands disk) (D.faults disk)) disks.old;
          new = map (λ disk. seen_as (D.size disk) (D.stands disk) (D.faults disk)) disks.new;
        })) }
        // Where no core was opened, with one copy a shard, the list of each disk is as it was, and its
        // past.
        ensures unopened { shape.copies ≡ 1 → OnErr result (LeavesAsTaken D.tells (record {
          before = watch.old;
          now = watch.new;
          old = map (λ disk. seen_as (D.size disk) (D.stands disk) (D.faults disk)) disks.old;
          new = map (λ disk. seen_as (D.size disk) (D.stands disk) (D.faults disk)) disks.new;
        })) }
        // And, with any number of copies, what a stop leaves of each shard's disks meanwhile.
        ensures shards { OnErr result ((shard : ℕ) → shard < shape.shards
            → LeavesShard D.tells shape (record {
              before = watch.old;
              now = watch.new;
              old = map (λ disk. seen_as (D.size disk) (D.stands disk) (D.faults disk)) disks.old;
              new = map (λ disk. seen_as (D.size disk) (D.stands disk) (D.faults disk)) disks.new;
            }) shard) }
        // And a stop leaves no header on the disk of a peer but its own, where it left none before.
        ensures headed { OnErr result ((peer : ℕ) → peer < length disks.old
            → KeepsItsHeader D.tells (own_header shape peer) watch.old watch.new
            (seen_at (map (λ disk. seen_as (D.size disk) (D.stands disk) (D.faults disk))
            disks.old) peer)
            (seen_at (map (λ disk. seen_as (D.size disk) (D.stands disk) (D.faults disk))
            disks.new) peer)) }
        // Nobody is joining behind it.
        ensures joins { IfOk result (λ opened. OnOk opened.done
            ((peer : ℕ) → is_joining (status_of peer opened.cluster.core) ≡ false)) }
        ensures ready { IfOk result (λ opened. OnOk opened.done (AreReady D.tells
            opened.cluster.logs
            (map (λ disk. seen_as (D.size disk) (D.stands disk) (D.faults disk)) disks.new))) }
        ensures shape { IfOk result (λ opened. opened.cluster.core.members.shape ≡ shape) }
        ensures moment { IfOk result (λ opened. OnOk opened.done
            (opened.cluster.core.moment ≤ watch.new)) }
        ensures counted { NoneFalls
            (map (λ disk. seen_as (D.size disk) (D.stands disk) (D.faults disk)) disks.old)
            (map (λ disk. seen_as (D.size disk) (D.stands disk) (D.faults disk)) disks.new) }
        ensures count { length disks.new ≡ length disks.old }
        ensures ticks { watch.old ≤ watch.new }
    {
        let mut cluster = match Cluster::begin(alloc, shape, limits, naming, disks, watch) {
            Ok(cluster) => cluster,
            Err(fault) => return Err(fault),
        };
        match cluster.ended() {
            Some(fault) => {
                return Ok(Opened {
                    cluster,
                    done: Err(ClusterFault::from(fault)),
                });
            }
            None => {}
        }
        let done = cluster.settle(disks, watch, 0, false);
        Ok(Opened { cluster, done })
    }

    /// Opens the core over the logs of the disks, before the first turn.
    fn begin<A: Addresser, D: Disk>(
        alloc: Global,
        shape: Shape,
        limits: Limits,
        naming: &A,
        disks: &mut [D],
        watch: &mut Watch,
    ) -> Result<Cluster, ClusterFault>
        requires shape { IsShape shape }
        requires count { length disks.old ≡ shape.shards * shape.copies }
        ensures begins { IfOk result (Begins D.tells
            (record { name = A.name naming.now; limits = limits; shape = shape })
            (record {
              before = watch.old;
              now = watch.new;
              old = map (λ disk. seen_as (D.size disk) (D.stands disk) (D.faults disk)) disks.old;
              new = map (λ disk. seen_as (D.size disk) (D.stands disk) (D.faults disk)) disks.new;
            })) }
        ensures closed { IfErr result (IsClosed D.tells shape
            (map (λ disk. seen_as (D.size disk) (D.stands disk) (D.faults disk)) disks.old)
            (map (λ disk. seen_as (D.size disk) (D.stands disk) (D.faults disk)) disks.new)) }
        ensures unwritten { IfErr result (λ fault. (at : ℕ) (found : Header)
            → fault ≡ ClusterFault.WrongShape at found → (peer : ℕ) → peer < length disks.old
            → IsOnlyRead D.tells watch.old watch.new
            (seen_at (map (λ disk. seen_as (D.size disk) (D.stands disk) (D.faults disk))
            disks.old) peer)
            (seen_at (map (λ disk. seen_as (D.size disk) (D.stands disk) (D.faults disk))
            disks.new) peer)) }
        ensures spares { SparesDisks D.tells shape (record {
          before = watch.old;
          now = watch.new;
          old = map (λ disk. seen_as (D.size disk) (D.stands disk) (D.faults disk)) disks.old;
          new = map (λ disk. seen_as (D.size disk) (D.stands disk) (D.faults disk)) disks.new;
        }) }
        ensures headed { (peer : ℕ) → peer < length disks.old
            → KeepsItsHeader D.tells (own_header shape peer) watch.old watch.new
            (seen_at (map (λ disk. seen_as (D.size disk) (D.stands disk) (D.faults disk))
            disks.old) peer)
            (seen_at (map (λ disk. seen_as (D.size disk) (D.stands disk) (D.faults disk))
            disks.new) peer) }
        ensures ready { IfOk result (λ cluster. AreReady D.tells cluster.logs
            (map (λ disk. seen_as (D.size disk) (D.stands disk) (D.faults disk)) disks.new)) }
        ensures shape { IfOk result (λ cluster. cluster.core.members.shape ≡ shape) }
        ensures moment { IfOk result (λ cluster. cluster.core.moment ≡ watch.new) }
        ensures counted { NoneFalls
            (map (λ disk. seen_as (D.size disk) (D.stands disk) (D.faults disk)) disks.old)
            (map (λ disk. seen_as (D.size disk) (D.stands disk) (D.faults disk)) disks.new) }
        ensures shards { (shard : ℕ) → shard < shape.shards → LeavesShard D.tells shape (record {
          before = watch.old;
          now = watch.new;
          old = map (λ disk. seen_as (D.size disk) (D.stands disk) (D.faults disk)) disks.old;
          new = map (λ disk. seen_as (D.size disk) (D.stands disk) (D.faults disk)) disks.new;
        }) shard }
        ensures keeps { shape.copies ≡ 1 → LeavesAsTaken D.tells (record {
          before = watch.old;
          now = watch.new;
          old = map (λ disk. seen_as (D.size disk) (D.stands disk) (D.faults disk)) disks.old;
          new = map (λ disk. seen_as (D.size disk) (D.stands disk) (D.faults disk)) disks.new;
        }) }
        ensures count { length disks.new ≡ length disks.old }
        ensures ticks { watch.old ≤ watch.new }
    {
        let entry = watch.now();
        let taking = match read_store(alloc, naming, disks, watch, shape, limits) {
            Ok(taking) => taking,
            Err(fault) => return Err(ClusterFault::from(fault)),
        };
        begun(alloc, shape, limits, taking, entry, watch.now())
    }
}

/// The core over the logs that were taken.
fn begun(
    alloc: Global,
    shape: Shape,
    limits: Limits,
    taking: Taking,
    entry: u64,
    moment: u64,
) -> Result<Cluster, ClusterFault>
    requires shape { IsShape shape }
    requires logs { length taking.logs.items ≡ shape.shards * shape.copies }
    requires shares { length taking.shares.items ≡ shape.shards }
    ensures core { IfOk result (λ cluster. cluster.core ≡ open_core shape limits (opened_with
        (record { logs = taking.logs.items; shares = taking.shares.items })) moment) }
    ensures logs { IfOk result (λ cluster. cluster.logs ≡ taking.logs.items) }
    ensures uncached { IfOk result (λ cluster. cluster.cache ≡ None) }
    ensures course { IfOk result (λ cluster. cluster.course ≡ begun_course shape entry moment
        (record { logs = taking.logs.items; shares = taking.shares.items })) }
    ensures shape { IfOk result (λ cluster. cluster.core.members.shape ≡ shape) }
    ensures moment { IfOk result (λ cluster. cluster.core.moment ≡ moment) }
    ensures only { IfErr result (λ fault. fault ≡ ClusterFault.NoMemory) }
{
    let Taking { logs, shares } = taking;
    let course = first_course(
        alloc,
        shape,
        shares.as_slice(),
        logs.as_slice(),
        entry,
        moment,
    )?;
    let good = goods_in(alloc, logs.as_slice())?;
    let views = views_in(alloc, shares.as_slice())?;
    let lengths = lengths_in(alloc, shares.as_slice())?;
    let catalogues = catalogues_in(alloc, shares)?;
    let core = Core::open(
        alloc, shape, limits, catalogues, views, lengths, good, moment,
    )?;
    Ok(Cluster {
        alloc,
        core,
        logs,
        course,
        cache: None,
    })
}

/// Which peers are good: those whose log is in use.
fn goods_in(alloc: Global, logs: &[Option<PeerLog>]) -> Result<Vec<bool>, AllocError>
    ensures { IfOk result (λ goods. goods.items ≡ map (λ log. is_some log) logs.now) }
{
    logs.iter().map(|log| log.is_some()).collect(alloc)
}

/// The views of the taken logs.
fn views_in(alloc: Global, shares: &[Share]) -> Result<Vec<u64>, AllocError>
    ensures { IfOk result (λ views. views.items ≡ map (λ share. share.rank.view) shares.now) }
{
    let mut views = Vec::new(alloc);
    for share in shares {
        views.push(share.rank.view)?;
    }
    Ok(views)
}

/// The numbers of their last entries.
fn lengths_in(alloc: Global, shares: &[Share]) -> Result<Vec<u64>, AllocError>
    ensures { IfOk result (λ lengths. lengths.items
        ≡ map (λ share. share.rank.number) shares.now) }
{
    let mut lengths = Vec::new(alloc);
    for share in shares {
        lengths.push(share.rank.number)?;
    }
    Ok(lengths)
}

/// Their catalogues.
fn catalogues_in(alloc: Global, shares: Vec<Share>) -> Result<Vec<Catalogue>, AllocError>
    ensures { IfOk result (λ catalogues. catalogues.items
        ≡ map (λ share. share.catalogue) shares.items) }
{
    shares
        .into_iter()
        .map(|share| share.catalogue)
        .collect(alloc)
}

/// How a course begins: with the taken logs, then the peers of these that were lost, and then each
/// other peer whose log is in use as the core opens.
fn first_course(
    alloc: Global,
    shape: Shape,
    shares: &[Share],
    logs: &[Option<PeerLog>],
    entry: u64,
    opened: u64,
) -> Result<Vec<CourseItem>, AllocError>
    requires shape { IsShape shape }
    ensures { IfOk result (λ course. course.items ≡ begun_course shape entry opened
        (record { logs = logs.now; shares = shares.now })) }
{
    let mut course = Vec::new(alloc);
    'tooks: for share in shares {
        note_took(share, entry, &mut course)?;
    }
    'losses: for share in shares {
        note_lost(share, &mut course)?;
    }
    note_others(shape, shares, logs, opened, &mut course)?;
    Ok(course)
}

/// Notes each peer whose log is in use and was not taken.
fn note_others(
    shape: Shape,
    shares: &[Share],
    logs: &[Option<PeerLog>],
    opened: u64,
    course: &mut Vec<CourseItem>,
) -> Result<(), AllocError>
    requires shape { IsShape shape }
    ensures { IfOk result (λ done. course.new.items ≡ course.old.items
        ++ flat_map (good_of shape (record { logs = logs.now; shares = shares.now }) opened)
        (all_peers shape)) }
{
    for peer in 0..shape.shards * shape.copies {
        note_other(shape, shares, logs, opened, peer, course)?;
    }
    Ok(())
}

/// Notes a peer where its log is in use and was not taken.
fn note_other(
    shape: Shape,
    shares: &[Share],
    logs: &[Option<PeerLog>],
    opened: u64,
    peer: u8,
    course: &mut Vec<CourseItem>,
) -> Result<(), AllocError>
    requires shape { IsShape shape }
    requires peer { IsPeer shape peer }
    ensures { IfOk result (λ done. course.new.items ≡ course.old.items
        ++ good_of shape (record { logs = logs.now; shares = shares.now }) opened peer) }
{
    if is_in_use(logs, peer) && !is_took(shape, shares, peer) {
        course.push(CourseItem::Good {
            peer,
            moment: opened,
        })?;
    }
    Ok(())
}

/// Whether the log of a peer is in use.
fn is_in_use(logs: &[Option<PeerLog>], peer: u8) -> bool
    ensures { result ≡ is_some (log_at logs.now peer) }
{
    match logs.get(usize::from(peer)) {
        Some(log) => log.is_some(),
        None => false,
    }
}

/// Whether the log of a peer was taken.
fn is_took(shape: Shape, shares: &[Share], peer: u8) -> bool
    requires shape { IsShape shape }
    requires peer { IsPeer shape peer }
    ensures { result ≡ is_took shape shares.now peer }
{
    match shares.get(usize::from(home_of(peer, shape))) {
        Some(share) => share.took.is_some() && share.peer == peer,
        None => false,
    }
}

/// Notes the log that was taken of a shard, where there was one.
fn note_took(share: &Share, entry: u64, course: &mut Vec<CourseItem>) -> Result<(), AllocError>
    ensures { IfOk result (λ done. course.new.items ≡ course.old.items ++ took_of entry share.now) }
{
    if let Some(number) = share.took {
        course.reserve(2)?;
        course.push_reserved(CourseItem::Good {
            peer: share.peer,
            moment: entry,
        });
        course.push_reserved(CourseItem::Took {
            shard: share.shard,
            number,
            moment: entry,
        });
    }
    Ok(())
}

/// Notes that a log was lost, where it was.
fn note_lost(share: &Share, course: &mut Vec<CourseItem>) -> Result<(), AllocError>
    ensures { IfOk result (λ done. course.new.items ≡ course.old.items ++ bad_of share.now) }
{
    if let Some(moment) = share.lost {
        course.push(CourseItem::Bad {
            peer: share.peer,
            moment,
        })?;
    }
    Ok(())
}
