//! The catalogue of one shard.
ghost use Rattle.std.specs.Prelude.{◌≡◌, ◌<◌, length, IfOk, IsOkUnless, OnOk};
ghost use Rattle.std.specs.Option.{option_map};
ghost use Rattle.hs_limits.specs.Limits.{greatest_limits};
ghost use Rattle.hs_limits.specs.Shape.{IsShape};
ghost use Rattle.hs_shard.specs.declared.fault.ShardFault.TheVariants.{NoMemory};
ghost use Rattle.hs_shard.specs.Apply.{MayTake, apply};
ghost use Rattle.hs_shard.specs.Clients.{applied};
ghost use Rattle.hs_shard.specs.Facts.{empty_catalogue, number_at, pointers_at, told_at};

use crate::blocks::Blocks;
use crate::{BlockFacts, Effect, ShardFault};
use hs_desk::What;
use hs_entry::Entry;
use hs_limits::{Address, Limits, ListOf, Shape};
use hs_roots::RootSet;
use hs_rounds::{Place, Run};
use std::alloc::Global;
use std::marker::Model;

mod clients;
mod copying;
mod plain;
mod rounds;
mod taking;

/// What a shard's entries amount to: its present blocks without their data, its roots, its epoch and
/// the last one that it swept, the view of its last View entry, and its side of a deletion run's
/// rounds.
#[derive(Drop)]
pub struct Catalogue {
    shape: Shape,
    shard: u8,
    blocks: Blocks,
    roots: RootSet,
    epoch: u64,
    swept: u64,
    view: u64,
    run: Run,
    alloc: Global,
}

impl Model for Catalogue {
    ghost use Rattle.std.specs.Prelude.{◌≡◌};
    ghost use Rattle.hs_limits.specs.Limits.{greatest_limits};
    ghost use Rattle.hs_limits.specs.Shape.{IsShape};
    ghost use Rattle.hs_shard.specs.Facts.{Catalogue};

    ghost Value = { Catalogue };

    ghost view = { λ a. record {
      shape = a.shape;
      shard = a.shard;
      blocks = a.blocks;
      roots = a.roots.roots;
      epoch = a.epoch;
      swept = a.swept;
      view = a.view;
      run = a.run;
    } };

    ghost invariant = { λ a. record {
      shape : IsShape a.shape;
      run : a.run.shape ≡ a.shape;
      limit : a.roots.limit ≡ greatest_limits.roots;
    } };
}

impl Catalogue {
    ghost use Rattle.std.specs.Borrow.{sem};
    ghost use Rattle.hs_shard.specs.Lending.{StaysAsItWas};

    /// The catalogue of a shard before its first entry. Lists are read under the greatest limits,
    /// whatever the limits of the run are. It takes no memory.
    pub fn new(alloc: Global, shape: Shape, shard: u8, _limits: Limits) -> Catalogue
        requires shape { IsShape shape }
        requires shard { shard < shape.shards }
        ensures { result ≡ empty_catalogue shape shard }
    {
        Catalogue {
            shape,
            shard,
            blocks: Blocks::new(alloc),
            roots: RootSet::new(alloc, Limits::greatest().roots),
            epoch: 1,
            swept: 1,
            view: 0,
            run: Run::new(alloc, shape, shard),
            alloc,
        }
    }

    /// The number of the entry that stored the present block of an address. None exactly where there
    /// is none. It takes no memory.
    pub fn present(&self, address: &Address) -> Option<u64>
        ensures { result ≡ number_at address.now self.now }
    {
        let facts = self.blocks.get(address)?;
        Some(facts.number)
    }

    /// The shard's epoch. It takes no memory.
    pub fn epoch(&self) -> u64
        ensures { result ≡ self.now.epoch }
    {
        self.epoch
    }

    /// The last epoch that the shard swept; 1 before the first sweep. It takes no memory.
    pub fn swept(&self) -> u64
        ensures { result ≡ self.now.swept }
    {
        self.swept
    }

    /// The view of the last View entry, 0 where there is none. It takes no memory.
    pub fn view(&self) -> u64
        ensures { result ≡ self.now.view }
    {
        self.view
    }

    /// The number of present blocks. It takes no memory.
    pub fn count(&self) -> u32
        ensures { result ≡ length self.now.blocks }
    {
        self.blocks.len()
    }

    /// What is known of the block at a place, ascending by address. None exactly where the place is
    /// not below `count`. It takes no memory, and goes over the blocks before that place.
    pub fn facts(&self, place: u32) -> Option<BlockFacts>
        ensures { result ≡ told_at place self.now.blocks }
    {
        self.blocks.at(place)
    }

    /// The shard's side of the rounds. It takes no memory.
    pub fn run(&self) -> &Run
        ensures { result.now ≡ self.now.run }
    {
        &self.run
    }

    /// The shard's roots. It takes no memory.
    pub fn roots(&self) -> &RootSet
        ensures roots { result.now.roots ≡ self.now.roots }
        ensures limit { result.now.limit ≡ greatest_limits.roots }
    {
        &self.roots
    }

    /// What the present block that an entry stored points to. None exactly where there is no such
    /// block. It takes no memory.
    pub fn pointers(&mut self, number: u64) -> Option<&[Address]>
        ensures value { option_map (λ pointers. pointers.now) result
            ≡ pointers_at number self.old.blocks }
        ensures* same { sem 𝓛 (StaysAsItWas self.entry) }
    {
        self.blocks.pointers(number)
    }

    /// An entry takes effect. A Block comes with the address of its bytes, and its number is that of
    /// no present block; a Got has its deltas in order. What is refused is told by the effect. The
    /// only fault is NoMemory; a round beyond 2^32-1, or an amount or a total that is, counts as want
    /// of it. After a fault the catalogue may have a part of what the entry did.
    pub fn apply(
        &mut self,
        number: u64,
        entry: &Entry,
        named: Option<Address>,
    ) -> Result<Effect, ShardFault>
        requires { MayTake number entry.now named self.old }
        ensures ok { OnOk result
            (self.new ≡ (apply number entry.now named self.old).catalogue) }
        ensures effect { IfOk result
            (λ effect. effect ≡ (apply number entry.now named self.old).effect) }
        ensures only { IsOkUnless result NoMemory }
    {
        self.take(number, entry, named)
    }

    /// An entry takes effect, as one equation.
    fn take(
        &mut self,
        number: u64,
        entry: &Entry,
        named: Option<Address>,
    ) -> Result<Effect, ShardFault>
        requires { MayTake number entry.now named self.old }
        ensures ok { IfOk result
            (λ effect. applied self.new effect ≡ apply number entry.now named self.old) }
        ensures only { IsOkUnless result NoMemory }
    {
        match entry {
            Entry::View { view } => {
                self.view = *view;
                Ok(self.only(What::Viewed { view: *view }))
            }
            Entry::Block { least, bytes, .. } => match named {
                Some(address) => self.store_block(number, *least, address, bytes.as_slice()),
                None => Ok(self.only(What::Nothing)),
            },
            Entry::Mark {
                least,
                block,
                address,
                ..
            } => Ok(self.mark_block(*least, *block, address)),
            Entry::Root {
                held,
                address,
                key,
                ..
            } => self.put_root(*held, *address, key),
            Entry::Drop { key, .. } => Ok(self.drop_root(key)),
            Entry::Enter { epoch, .. } => self.enter(*epoch),
            Entry::Got {
                sender,
                epoch,
                round,
                total,
                deltas,
            } => {
                let place = Place {
                    epoch: *epoch,
                    round: *round,
                    from: *sender,
                };
                self.get_round(place, *total, deltas)
            }
            Entry::Base { .. }
            | Entry::KeptBlock { .. }
            | Entry::KeptRoot { .. }
            | Entry::KeptRound { .. } => Ok(self.only(What::Nothing)),
        }
    }
}
