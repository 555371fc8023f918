//! A new view of a shard.
ghost use Rattle.std.specs.Prelude.{◌≡◌, IfOk, OnOk};
ghost use Rattle.hs_core_state.specs.Anew.{group_anew, told_anew};
ghost use Rattle.hs_core_state.specs.Keeping.{KeepsCore};
ghost use Rattle.hs_core_words.specs.Looking.{group_of};
ghost use Rattle.hs_core_words.specs.Views.{begin_view, change_view, restart_at};
ghost use Rattle.hs_members.specs.Members.{IsShard};
ghost use Rattle.hs_replica.specs.Group.{last_number, renew};

use crate::State;
use crate::no_memory::NoMemory;
use crate::steps::renew_steps;
use hs_entry::Entry;

impl State {
    /// Where a good peer is left the shard begins its view.
    pub fn change_view(&mut self, shard: u8) -> Result<(), NoMemory>
        requires { IsShard self.old.members.shape shard }
        ensures ok { OnOk result (self.new ≡ change_view shard self.old) }
        ensures kept { KeepsCore self.old self.new }
    {
        if self.members.has_good(shard) {
            self.begin_view(shard)?;
        }
        Ok(())
    }

    /// A shard begins its view: the copies are told, operations start again, each good peer is sent what
    /// it lacks, and a View is proposed.
    pub(crate) fn begin_view(&mut self, shard: u8) -> Result<(), NoMemory>
        requires { IsShard self.old.members.shape shard }
        ensures ok { OnOk result (self.new ≡ begin_view shard self.old) }
        ensures kept { KeepsCore self.old self.new }
    {
        let lead = self.lead(shard);
        let view = self.members.view(shard);
        let number = self.tell_view(shard)?;
        if let Some(lead) = lead {
            self.add_entry_tasks(lead, number, Entry::View { view })?;
        }
        Ok(())
    }

    /// The copies of a shard are told of its view, operations start again, and the messages of the view
    /// are sent. The number of the View.
    fn tell_view(&mut self, shard: u8) -> Result<u64, NoMemory>
        requires { IsShard self.old.members.shape shard }
        ensures ok { OnOk result (self.new
            ≡ restart_at shard (last_number (renew self.old.members (group_of shard self.old)))
            (told_anew shard self.old)) }
        ensures number { IfOk result (λ number. number ≡ last_number (group_anew shard self.old)) }
        ensures kept { KeepsCore self.old self.new }
    {
        let place = usize::from(shard);
        self.viewed[place] = false;
        let group = &mut self.groups[place];
        let told = group.on_view(&mut self.pool, &self.members);
        let number = group.last_number();
        renew_steps(
            &mut self.steps,
            &self.members,
            group,
            self.rejoins.as_slice(),
            shard,
        );
        let Ok(()) = told else {
            return Err(NoMemory);
        };
        self.operations.restart(shard, number.saturating_sub(1))?;
        Ok(number)
    }
}
