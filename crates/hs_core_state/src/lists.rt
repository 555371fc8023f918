//! The lists of all shards, as a core opens.
ghost use Rattle.std.specs.Prelude.{◌≡◌, [], length, map, IfOk, IfSome, OnOk};
ghost use Rattle.hs_core_state.specs.Anew.{AreOfAll, view_tasks, viewed_anew, with_lists};
ghost use Rattle.hs_core_state.specs.Keeping.{IsOf};
ghost use Rattle.hs_core_words.specs.Opening.{begin_views};
ghost use Rattle.hs_core_words.specs.State.{Core};
ghost use Rattle.hs_core_words.specs.Views.{change_view};
ghost use Rattle.hs_members.specs.Members.{IsPeer, IsShard, lead_by};
ghost use Rattle.hs_replica.specs.Group.{last_number, on_view, send_all, view_messages};

use crate::leads::lead_of;
use crate::no_memory::NoMemory;
use crate::queue::Queue;
use hs_core_words::Task;
use hs_desk::Job;
use hs_entry::Entry;
use hs_members::Members;
use hs_post::Pool;
use hs_replica::Group;

/// The members, the lists of all shards with how many of their entries have taken effect, whether
/// the View of each shard's view has, the messages under way, and the jobs of all peers.
#[derive(Drop)]
pub(crate) struct Lists {
    pub(crate) members: Members,
    pub(crate) groups: Vec<Group>,
    pub(crate) fronts: Vec<u64>,
    pub(crate) viewed: Vec<bool>,
    pub(crate) pool: Pool,
    pub(crate) tasks: Vec<Queue>,
}

impl Lists {
    /// Each shard with a good peer begins its view, where no operation is without an answer.
    #[tactic(auto, using(crate::proofs::RangeLemmas::each_range_end, crate::proofs::RangeLemmas::each_range_begin))]
    pub(crate) fn begin_views(&mut self) -> Result<(), NoMemory>
        requires { AreOfAll self.old }
        ensures ok { (core : Core) → core.operations ≡ [] → OnOk result
            (with_lists self.new core ≡ begin_views (with_lists self.old core)) }
        ensures all { OnOk result (AreOfAll self.new) }
        ensures members { OnOk result (self.new.members ≡ self.old.members) }
    {
        for shard in 0..self.members.shape().shards {
            self.change_view(shard)?;
        }
        Ok(())
    }

    /// A shard with a good peer begins its view, where no operation is without an answer.
    #[tactic(auto, using(crate::proofs::ViewLemmas::begin_view_anew))]
    pub fn change_view(&mut self, shard: u8) -> Result<(), NoMemory>
        requires shard { IsShard self.old.members.shape shard }
        requires all { AreOfAll self.old }
        ensures ok { (core : Core) → core.operations ≡ [] → OnOk result
            (with_lists self.new core ≡ change_view shard (with_lists self.old core)) }
        ensures all { OnOk result (AreOfAll self.new) }
        ensures members { self.new.members ≡ self.old.members }
    {
        if self.members.has_good(shard) {
            self.begin_view(shard)?;
        }
        Ok(())
    }

    /// A shard begins its view, where no operation is without an answer: the copies are told, and a
    /// View is proposed.
    #[tactic(auto, using(crate::proofs::ViewLemmas::anew_of_all, crate::proofs::ViewLemmas::of_in_all, crate::proofs::ViewLemmas::front_in_all))]
    fn begin_view(&mut self, shard: u8) -> Result<(), NoMemory>
        requires shard { IsShard self.old.members.shape shard }
        requires all { AreOfAll self.old }
        ensures ok { (core : Core) → core.operations ≡ [] → OnOk result
            (with_lists self.new core ≡ viewed_anew shard (with_lists self.old core)) }
        ensures all { OnOk result (AreOfAll self.new) }
        ensures members { self.new.members ≡ self.old.members }
    {
        let place = usize::from(shard);
        let front = self.fronts[place];
        let group = &mut self.groups[place];
        let (lead, number) = renew_group(group, &mut self.pool, &self.members, shard, front)?;
        self.viewed[place] = false;
        if let Some(lead) = lead {
            let view = self.members.view(shard);
            add_view_tasks(&mut self.tasks[usize::from(lead)], number, view)?;
        }
        Ok(())
    }
}

/// A new view of a shard: its copies are told, and a View is proposed. The lead, and the number of
/// the View.
#[tactic(auto, using(crate::proofs::ViewLemmas::front_anew))]
fn renew_group(
    group: &mut Group,
    pool: &mut Pool,
    members: &Members,
    shard: u8,
    front: u64,
) -> Result<(Option<u8>, u64), NoMemory>
    requires of { IsOf members.now.shape shard group.old }
    requires front { front ≡ group.old.front }
    ensures group { OnOk result (group.new ≡ on_view members.now group.old) }
    ensures pool { OnOk result (pool.new
        ≡ send_all (view_messages members.now group.old) pool.old) }
    ensures lead { IfOk result (λ x. x.0
        ≡ lead_by shard (map (λ copy. length copy.stamps) group.old.copies) members.now) }
    ensures peer { IfOk result (λ x. IfSome x.0 (IsPeer members.now.shape)) }
    ensures number { IfOk result (λ x. x.1 ≡ last_number (on_view members.now group.old)) }
{
    let lead = lead_of(members, group, shard);
    group.on_view(pool, members)?;
    let Some(number) = front.checked_add(group.waiting().len() as u64) else {
        return Err(NoMemory);
    };
    Ok((lead, number))
}

/// A View makes two jobs: it is appended, then sealed.
fn add_view_tasks(tasks: &mut Queue, number: u64, view: u64) -> Result<(), NoMemory>
    ensures { OnOk result (tasks.new ≡ view_tasks number view tasks.old) }
{
    let entry = Entry::View { view };
    tasks.push(Task {
        job: Job::Append { number, entry },
        line: 0,
    })?;
    tasks.push(Task {
        job: Job::Seal { number },
        line: 0,
    })?;
    Ok(())
}
