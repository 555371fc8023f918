//! What an operation sees of all shards, and of the block that it is about.
ghost use Rattle.std.specs.Prelude.{◌≡◌, ◌≤◌, [], length, map, IfOk, sum_by};
ghost use Rattle.std.specs.Option.{option_map, option_map_or};
ghost use Rattle.hs_core_state.specs.Going.{facts_by, sight_of, view_of};
ghost use Rattle.hs_members.specs.Members.{IsShard};
ghost use Rattle.hs_roots.specs.Roots.{retained_count};

use crate::State;
use crate::aim::Aim;
use crate::no_memory::NoMemory;
use hs_limits::{Address, Limits, ListOf};
use hs_ops::OpView;
use hs_roots::RootSet;
use hs_shard::Catalogue;
use hs_tokens::SessionsView;
use std::alloc::{AllocError, Global};

/// What an operation sees, beside the sessions and the roots: the retained roots and the blocks of
/// all shards, their epochs and the ones that they have swept, the number and the pointers of the
/// block that it is about, whether there is room, whether an entry is pending, and whether the View
/// of the current view has taken effect.
#[derive(Drop)]
pub(crate) struct Sight {
    pub(crate) retained: u64,
    pub(crate) blocks: u64,
    pub(crate) epochs: ListOf<u64>,
    pub(crate) swept: ListOf<u64>,
    pub(crate) present: Option<u64>,
    pub(crate) pointers: ListOf<Address>,
    pub(crate) room: bool,
    pub(crate) pending: bool,
    pub(crate) viewed: bool,
}

impl Sight {
    /// The view that an operation is given. It takes no memory.
    pub(crate) fn view<'a>(
        &'a self,
        aim: Aim,
        busy: Option<u64>,
        limits: Limits,
        sessions: SessionsView<'a>,
        roots: &'a RootSet,
    ) -> OpView<'a>
        ensures { result ≡ view_of self.now aim busy limits sessions.entry roots.now.roots }
    {
        let roots = Some(roots);
        OpView {
            sessions,
            roots,
            retained: self.retained,
            blocks: self.blocks,
            epochs: self.epochs.as_slice(),
            swept: self.swept.as_slice(),
            limits,
            shard: aim.shard,
            present: self.present,
            pointers: self.pointers.len(),
            room: self.room,
            pending: self.pending,
            viewed: self.viewed,
            busy,
        }
    }
}

impl State {
    /// What an operation sees.
    pub(crate) fn sight(&mut self, aim: Aim) -> Result<Sight, NoMemory>
        requires shard { IsShard self.old.members.shape aim.shard }
        ensures value { IfOk result (λ sight. sight ≡ sight_of aim self.old) }
        ensures same { self.new ≡ self.old }
    {
        let pointers = self.pointers_by(aim)?;
        Ok(Sight {
            retained: retained_in_all(self.catalogues.as_slice()),
            blocks: blocks_in_all(self.catalogues.as_slice()),
            epochs: epochs_of(self.alloc, self.catalogues.as_slice())?,
            swept: swept_of(self.alloc, self.catalogues.as_slice())?,
            present: self.number_by(aim),
            pointers,
            room: self.has_room_by(aim),
            pending: self.is_pending_by(aim),
            viewed: self.viewed[usize::from(aim.shard)],
        })
    }

    /// The number of the entry that stored the block. It takes no memory.
    fn number_by(&self, aim: Aim) -> Option<u64>
        requires shard { IsShard self.now.members.shape aim.shard }
        ensures { result ≡ option_map (λ facts. facts.number) (facts_by aim self.now) }
    {
        match aim.address {
            Some(address) => self.catalogue(aim.shard).present(&address),
            None => None,
        }
    }

    /// The block's pointers, none where it is absent.
    fn pointers_by(&mut self, aim: Aim) -> Result<ListOf<Address>, NoMemory>
        requires shard { IsShard self.old.members.shape aim.shard }
        ensures value { IfOk result (λ pointers. pointers
            ≡ option_map_or (λ facts. facts.pointers) (facts_by aim self.old) []) }
        ensures same { self.new ≡ self.old }
    {
        let Some(address) = aim.address else {
            return Ok(ListOf::new(self.alloc));
        };
        match self.catalogues[usize::from(aim.shard)].copy_pointers(&address) {
            Ok(pointers) => Ok(pointers),
            Err(_) => Err(NoMemory),
        }
    }
}

/// The retained roots of some shards.
fn retained_in_all(catalogues: &[Catalogue]) -> u64
    requires { length catalogues.now ≤ 8 }
    ensures { result ≡ sum_by (λ c. retained_count c.roots) catalogues.now }
{
    let mut sum = 0;
    for catalogue in catalogues {
        sum += u64::from(catalogue.roots().retained());
    }
    sum
}

/// The present blocks of some shards.
fn blocks_in_all(catalogues: &[Catalogue]) -> u64
    requires { length catalogues.now ≤ 8 }
    ensures { result ≡ sum_by (λ c. length c.blocks) catalogues.now }
{
    let mut sum = 0;
    for catalogue in catalogues {
        sum += u64::from(catalogue.count());
    }
    sum
}

/// The epochs of some shards.
fn epochs_of(alloc: Global, catalogues: &[Catalogue]) -> Result<ListOf<u64>, AllocError>
    ensures { IfOk result (λ epochs. epochs ≡ map (λ c. c.epoch) catalogues.now) }
{
    let mut epochs = ListOf::new(alloc);
    for catalogue in catalogues {
        epochs.push(catalogue.epoch())?;
    }
    Ok(epochs)
}

/// The epochs that some shards have swept.
fn swept_of(alloc: Global, catalogues: &[Catalogue]) -> Result<ListOf<u64>, AllocError>
    ensures { IfOk result (λ swept. swept ≡ map (λ c. c.swept) catalogues.now) }
{
    let mut swept = ListOf::new(alloc);
    for catalogue in catalogues {
        swept.push(catalogue.swept())?;
    }
    Ok(swept)
}
