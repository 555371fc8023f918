//! One copy of a shard's list, and what several of them amount to.
ghost use Rattle.std.specs.Option.{option_map};
ghost use Rattle.std.specs.Prelude.{◌≡◌, ◌+◌, ◌∷◌, ◌++◌, ◌<◌, ◌≤◌, ◌^◌, [], length, max, if◌then◌else◌, IfSome, OnErr, OnOk};
ghost use Rattle.hs_members.specs.Members.{longer, longest};
ghost use Rattle.hs_replica.specs.Group.{good_from, least_known, lower, tell};

use crate::GroupFault;
use crate::stamps::Stamps;

/// What is known of one copy: whether its peer is good, the views of its list's entries, how many of
/// these it has sealed, and how many the lead knows it to have sealed.
#[derive(Debug, Drop)]
pub struct Replica {
    pub good: bool,
    pub stamps: Stamps,
    pub sealed: u64,
    pub known: u64,
}

impl Replica {
    /// It has sealed so many entries; `led` tells whether it is the lead's.
    pub(crate) fn seal(&mut self, number: u64, led: bool)
        ensures { self.new ≡ record self.old {
          sealed = number;
          known = if led then max self.old.known number else self.old.known;
        } }
    {
        self.sealed = number;
        if led {
            self.known = self.known.max(number);
        }
    }

    /// A new view began, in which it is good or not: of a good one is known all that it has sealed.
    pub(crate) fn tell(&mut self, good: bool)
        ensures { self.new ≡ tell good self.old }
    {
        self.good = good;
        if good {
            self.known = self.sealed;
        }
    }

    /// Its list was emptied.
    pub(crate) fn clear(&mut self)
        ensures { self.new ≡ record self.old { stamps = []; sealed = 0 } }
    {
        self.stamps.clear();
        self.sealed = 0;
    }

    /// Its list has the entry of this number too, of this view and sealed. Without memory nothing
    /// changes.
    pub(crate) fn copy_one(&mut self, view: u64, number: u64) -> Result<(), GroupFault>
        ensures ok { OnOk result (self.new ≡ record self.old {
          stamps = self.old.stamps ++ view ∷ [];
          sealed = number;
        }) }
        ensures same { OnErr result (self.new ≡ self.old) }
    {
        self.stamps.push(view)?;
        self.sealed = number;
        Ok(())
    }
}

/// The good peer with the longest list, of equals the lowest, where the first copy is of this peer.
pub(crate) fn lead_of(first: u8, copies: &[Replica]) -> Option<u8>
    requires { first + length copies.now ≤ 2 ^ 8 }
    ensures value { result ≡ option_map (λ x. x.0) (longest (good_from first copies.now)) }
    ensures within { IfSome result (λ peer. (first ≤ peer) × (peer < first + length copies.now)) }
{
    let mut best: Option<(u8, u64)> = None;
    for index in (0..copies.len()).rev() {
        if copies[index].good {
            let peer = first + index as u8;
            best = Some(longer((peer, copies[index].stamps.len()), best));
        }
    }
    best.map(|(peer, _)| peer)
}

/// Of two peers with the lengths of their lists the one with the longer list, of equals the first.
fn longer(first: (u8, u64), other: Option<(u8, u64)>) -> (u8, u64)
    ensures { result ≡ longer first other }
{
    match other {
        Some(other) if other.1 > first.1 => other,
        _ => first,
    }
}

/// The least known number of a good copy. None exactly where none is good.
pub(crate) fn least_known(copies: &[Replica]) -> Option<u64>
    ensures { result ≡ least_known copies.now }
{
    let mut least = None;
    for index in (0..copies.len()).rev() {
        if copies[index].good {
            least = Some(lower(copies[index].known, least));
        }
    }
    least
}

/// Of two numbers the lower.
fn lower(first: u64, other: Option<u64>) -> u64
    ensures { result ≡ lower first other }
{
    match other {
        Some(other) => first.min(other),
        None => first,
    }
}
