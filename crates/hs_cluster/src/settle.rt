//! Turns and nudges, one after another.
ghost use Rattle.std.specs.List.{list_any};
ghost use Rattle.std.specs.Prelude.{◌≡◌, ◌*◌, ◌<◌, ◌≤◌, ℕ, None, false, length, map, nat_lt, slice_index_or, IfSome, OnOk};
ghost use Rattle.hs_events.specs.declared.due.Due.TheVariants.{Reporting};
ghost use Rattle.hs_cluster.specs.Disks.{AreReady, seen_as};
ghost use Rattle.hs_cluster.specs.Growing.{GoesOn};
ghost use Rattle.hs_cluster.specs.Kept.{Shows};
ghost use Rattle.hs_events.specs.Due.{place_after, raises_known};
ghost use Rattle.hs_cluster.specs.Settling.{DoesDue, RunsWalk, due_with};
ghost use Rattle.hs_events.specs.Due.{IsDueOf, peer_due};
ghost use Rattle.hs_cluster.specs.Jobs.{StandsBeside};
ghost use Rattle.hs_core_words.specs.Looking.{first_job, known_of, status_of};
ghost use Rattle.hs_members.specs.Members.{IsPeer, all_peers, is_joining};

use crate::recall::do_first;
use crate::{Cluster, ClusterFault};
use hs_core::Core;
use hs_core_words::Event;
use hs_events::{Due, Place, knowns_of, next_due, next_turn, peers_of, place_after, raises_known};
use hs_ports::{Disk, Watch};

impl Cluster {
    /// Does turns until nobody has one, and with `nudges` nudges too, until nothing is due. Each
    /// turn is a step towards an end that no run of a machine passes: counting the steps to
    /// `u64::MAX` counts as want of memory.
    pub(crate) fn settle<D: Disk>(
        &mut self,
        disks: &mut [D],
        watch: &mut Watch,
        line: u64,
        nudges: bool,
    ) -> Result<(), ClusterFault>
        requires going { self.old.core.ended ≡ None }
        requires moment { self.old.core.moment ≤ watch.old }
        requires count { length disks.old
            ≡ self.old.core.members.shape.shards * self.old.core.members.shape.copies }
        requires ready { AreReady D.tells self.old.logs
            (map (λ disk. seen_as (D.size disk) (D.stands disk) (D.faults disk)) disks.old) }
        ensures walks { RunsWalk nudges line watch.old watch.new self.old self.new result
            (Shows D.tells (record {
              before = watch.old;
              now = watch.new;
              old = self.old;
              new = self.new;
              disks = map (λ disk. seen_as (D.size disk) (D.stands disk) (D.faults disk)) disks.old;
              left = map (λ disk. seen_as (D.size disk) (D.stands disk) (D.faults disk)) disks.new;
            }) result) }
        ensures goes_on { D.tells → (p : ℕ) → is_joining (status_of p self.old.core) ≡ false
            → GoesOn self.old.logs
            (map (λ disk. seen_as (D.size disk) (D.stands disk) (D.faults disk)) disks.old)
            self.new.logs
            (map (λ disk. seen_as (D.size disk) (D.stands disk) (D.faults disk)) disks.new) p }
        ensures joins { (p : ℕ) → is_joining (status_of p self.old.core) ≡ false
            → OnOk result (is_joining (status_of p self.new.core) ≡ false) }
        ensures ready { OnOk result (AreReady D.tells self.new.logs
            (map (λ disk. seen_as (D.size disk) (D.stands disk) (D.faults disk)) disks.new)) }
        ensures count { length disks.new ≡ length disks.old }
        ensures shape { self.new.core.members.shape ≡ self.old.core.members.shape }
        ensures moment { OnOk result (self.new.core.moment ≤ watch.new) }
        ensures ticks { watch.old ≤ watch.new }
    {
        let mut place = Place {
            peer: 0,
            nudger: 0,
            progress: false,
        };
        for _step in 0..u64::MAX {
            let Some(due) = due_of(&self.core, place, nudges) else {
                return Ok(());
            };
            self.move_on(disks, watch, line, due, &mut place)?;
        }
        Err(ClusterFault::NoMemory)
    }

    /// Does what is due, and tells where passes and nudges stand then.
    #[tactic(auto, using(crate::proofs::WalkLemmas::nothing_due))]
    fn move_on<D: Disk>(
        &mut self,
        disks: &mut [D],
        watch: &mut Watch,
        line: u64,
        due: Due,
        place: &mut Place,
    ) -> Result<(), ClusterFault>
        requires going { self.old.core.ended ≡ None }
        requires due { IsDueOf self.old.core due }
        requires moment { self.old.core.moment ≤ watch.old }
        requires count { length disks.old
            ≡ self.old.core.members.shape.shards * self.old.core.members.shape.copies }
        requires ready { AreReady D.tells self.old.logs
            (map (λ disk. seen_as (D.size disk) (D.stands disk) (D.faults disk)) disks.old) }
        ensures does { DoesDue line due watch.old watch.new self.old self.new result
            (Shows D.tells (record {
              before = watch.old;
              now = watch.new;
              old = self.old;
              new = self.new;
              disks = map (λ disk. seen_as (D.size disk) (D.stands disk) (D.faults disk)) disks.old;
              left = map (λ disk. seen_as (D.size disk) (D.stands disk) (D.faults disk)) disks.new;
            }) result) }
        ensures place { OnOk result (place.new
            ≡ place_after due (raises_known self.old.core self.new.core) place.old) }
        ensures goes_on { D.tells → (p : ℕ) → is_joining (status_of p self.old.core) ≡ false
            → GoesOn self.old.logs
            (map (λ disk. seen_as (D.size disk) (D.stands disk) (D.faults disk)) disks.old)
            self.new.logs
            (map (λ disk. seen_as (D.size disk) (D.stands disk) (D.faults disk)) disks.new) p }
        ensures joins { (p : ℕ) → is_joining (status_of p self.old.core) ≡ false
            → OnOk result (is_joining (status_of p self.new.core) ≡ false) }
        ensures ready { OnOk result (AreReady D.tells self.new.logs
            (map (λ disk. seen_as (D.size disk) (D.stands disk) (D.faults disk)) disks.new)) }
        ensures count { length disks.new ≡ length disks.old }
        ensures shape { self.new.core.members.shape ≡ self.old.core.members.shape }
        ensures moment { OnOk result (self.new.core.moment ≤ watch.new) }
        ensures ticks { watch.old ≤ watch.new }
    {
        let Ok(knowns) = knowns_of(self.alloc, &self.core, peers_of(&self.core)) else {
            return Err(ClusterFault::NoMemory);
        };
        self.do_due(disks, watch, line, due)?;
        let raised = raises_known(&self.core, knowns.as_slice());
        *place = place_after(due, raised, *place);
        Ok(())
    }

    /// Does what is due for a line: a job with its report, the handling of a message, or a nudge.
    pub(crate) fn do_due<D: Disk>(
        &mut self,
        disks: &mut [D],
        watch: &mut Watch,
        line: u64,
        due: Due,
    ) -> Result<(), ClusterFault>
        requires going { self.old.core.ended ≡ None }
        requires due { IsDueOf self.old.core due }
        requires moment { self.old.core.moment ≤ watch.old }
        requires count { length disks.old
            ≡ self.old.core.members.shape.shards * self.old.core.members.shape.copies }
        requires ready { AreReady D.tells self.old.logs
            (map (λ disk. seen_as (D.size disk) (D.stands disk) (D.faults disk)) disks.old) }
        ensures does { DoesDue line due watch.old watch.new self.old self.new result
            (Shows D.tells (record {
              before = watch.old;
              now = watch.new;
              old = self.old;
              new = self.new;
              disks = map (λ disk. seen_as (D.size disk) (D.stands disk) (D.faults disk)) disks.old;
              left = map (λ disk. seen_as (D.size disk) (D.stands disk) (D.faults disk)) disks.new;
            }) result) }
        ensures beside { StandsBeside D.tells (peer_due due) (first_job (peer_due due) self.old.core)
            (map (λ disk. seen_as (D.size disk) (D.stands disk) (D.faults disk)) disks.old)
            (map (λ disk. seen_as (D.size disk) (D.stands disk) (D.faults disk)) disks.new) }
        ensures goes_on { D.tells → (p : ℕ) → is_joining (status_of p self.old.core) ≡ false
            → GoesOn self.old.logs
            (map (λ disk. seen_as (D.size disk) (D.stands disk) (D.faults disk)) disks.old)
            self.new.logs
            (map (λ disk. seen_as (D.size disk) (D.stands disk) (D.faults disk)) disks.new) p }
        ensures joins { (p : ℕ) → is_joining (status_of p self.old.core) ≡ false
            → OnOk result (is_joining (status_of p self.new.core) ≡ false) }
        ensures ready { OnOk result (AreReady D.tells self.new.logs
            (map (λ disk. seen_as (D.size disk) (D.stands disk) (D.faults disk)) disks.new)) }
        ensures count { length disks.new ≡ length disks.old }
        ensures shape { self.new.core.members.shape ≡ self.old.core.members.shape }
        ensures moment { OnOk result (self.new.core.moment ≤ watch.new) }
        ensures ticks { watch.old ≤ watch.new }
    {
        match due {
            Due::Reporting { peer } => self.report(disks, watch, peer),
            Due::Handling { message, .. } => {
                self.step(Event::Deliver { line, message }, watch.now())
            }
            Due::Nudging { peer } => self.step(Event::Nudge { line, peer }, watch.now()),
        }
    }

    /// Does the first job of a peer, and reports what it came to.
    #[tactic(auto, using(crate::proofs::WalkLemmas::nothing_due))]
    fn report<D: Disk>(
        &mut self,
        disks: &mut [D],
        watch: &mut Watch,
        peer: u8,
    ) -> Result<(), ClusterFault>
        requires going { self.old.core.ended ≡ None }
        requires peer { IsPeer self.old.core.members.shape peer }
        requires moment { self.old.core.moment ≤ watch.old }
        requires count { length disks.old
            ≡ self.old.core.members.shape.shards * self.old.core.members.shape.copies }
        requires ready { AreReady D.tells self.old.logs
            (map (λ disk. seen_as (D.size disk) (D.stands disk) (D.faults disk)) disks.old) }
        ensures does { (line : ℕ) → DoesDue line (Reporting peer) watch.old watch.new
            self.old self.new result
            (Shows D.tells (record {
              before = watch.old;
              now = watch.new;
              old = self.old;
              new = self.new;
              disks = map (λ disk. seen_as (D.size disk) (D.stands disk) (D.faults disk)) disks.old;
              left = map (λ disk. seen_as (D.size disk) (D.stands disk) (D.faults disk)) disks.new;
            }) result) }
        ensures beside { StandsBeside D.tells peer (first_job peer self.old.core)
            (map (λ disk. seen_as (D.size disk) (D.stands disk) (D.faults disk)) disks.old)
            (map (λ disk. seen_as (D.size disk) (D.stands disk) (D.faults disk)) disks.new) }
        ensures goes_on { D.tells → (p : ℕ) → is_joining (status_of p self.old.core) ≡ false
            → GoesOn self.old.logs
            (map (λ disk. seen_as (D.size disk) (D.stands disk) (D.faults disk)) disks.old)
            self.new.logs
            (map (λ disk. seen_as (D.size disk) (D.stands disk) (D.faults disk)) disks.new) p }
        ensures joins { (p : ℕ) → is_joining (status_of p self.old.core) ≡ false
            → OnOk result (is_joining (status_of p self.new.core) ≡ false) }
        ensures ready { OnOk result (AreReady D.tells self.new.logs
            (map (λ disk. seen_as (D.size disk) (D.stands disk) (D.faults disk)) disks.new)) }
        ensures count { length disks.new ≡ length disks.old }
        ensures shape { self.new.core.members.shape ≡ self.old.core.members.shape }
        ensures moment { OnOk result (self.new.core.moment ≤ watch.new) }
        ensures ticks { watch.old ≤ watch.new }
    {
        let done = do_first(
            self.alloc,
            &self.core,
            &mut self.logs,
            &mut self.cache,
            disks,
            watch,
            peer,
        );
        let Ok(done) = done else {
            return Err(ClusterFault::NoMemory);
        };
        self.step(Event::Report { peer, done }, watch.now())
    }
}

/// What is due of turns, and with `nudges` of nudges too.
fn due_of(core: &Core, place: Place, nudges: bool) -> Option<Due>
    requires peer { place.peer ≤ core.now.members.shape.shards * core.now.members.shape.copies }
    requires nudger { place.nudger
        ≤ core.now.members.shape.shards * core.now.members.shape.copies }
    ensures value { result ≡ due_with nudges place core.now }
    ensures due { IfSome result (IsDueOf core.now) }
{
    if nudges {
        next_due(core, place)
    } else {
        next_turn(core, place)
    }
}
