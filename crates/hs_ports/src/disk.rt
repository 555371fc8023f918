//! A disk of two sides of bytes, and what a crash may leave on it at each moment.
ghost use Rattle.std.specs.Prelude.{◌≡◌, ◌<◌, ◌≤◌, ◌+◌, ◌^◌, ◌++◌, ℕ, length, take, drop, max, IfOk, IfErr, OnOk, OnErr};
ghost use Rattle.hs_ports.specs.Fault.{IsCausedBy, IsSteady};
ghost use Rattle.hs_ports.specs.Watch.{Ticks};
ghost use Rattle.hs_ports.specs.Disk.{Standing, IsImage, HasRead, IsBetween, Torn, Clipped, Happens, Untouched, other_side, overwritten, written, shortened, settled};

use crate::{PortFault, Watch};

/// One of the two sides of a disk.
#[derive(Clone, Copy, Debug, PartialEq, Eq)]
pub enum Side {
    Zero,
    One,
}

/// Two sides of bytes. Lengths and places are in bytes. What is said of contents and of moments
/// stands for a type of disk that tells them.
pub trait Disk {
    ghost use Rattle.hs_ports.specs.declared.disk.Side.{Side};

    /// Whether this type of disk tells its contents.
    ghost tells: { Type 0 };

    /// The length of a side, which every disk tells.
    ghost size: { Self → Side → ℕ };

    /// What reads give, what a crash may leave, and the history of that.
    ghost stands: { Self → Standing };

    /// How often the disk has failed.
    ghost faults: { Self → ℕ };

    /// The length of a side.
    fn len(&mut self, side: Side) -> Result<u64, PortFault>
        ensures value { IfOk result (λ n. n ≡ size self.old side) }

        ensures same_size { (s : Side) → size self.new s ≡ size self.old s }
        ensures same { tells → stands self.new ≡ stands self.old }

        ensures not_memory { IfErr result (λ fault. fault ≡ PortFault.Failed) }
        ensures calm { IsSteady (faults self.old) (faults self.new) result }
        ensures cause { IsCausedBy PortFault.Failed (faults self.old) (faults self.new) result };

    /// Appends to `into` at most `max` bytes of a side from the place `at` on, and answers how
    /// many: at least one below the length, and 0 at or past it. A read that fails appends none.
    fn read(
        &mut self,
        side: Side,
        at: u64,
        max: usize,
        into: &mut Vec<u8>,
    ) -> Result<usize, PortFault>
        requires { 0 < max }

        ensures found { IfOk result (λ n.
            HasRead (size self.old side) at max into.old.items into.new.items n) }
        ensures value { tells → IfOk result (λ n.
            into.new.items ≡ into.old.items ++ take n (drop at ((stands self.old).seen side))) }
        ensures untaken { OnErr result (into.new.items ≡ into.old.items) }

        ensures same_size { (s : Side) → size self.new s ≡ size self.old s }
        ensures same { tells → stands self.new ≡ stands self.old }

        ensures calm { IsSteady (faults self.old) (faults self.new) result }
        ensures cause { IsCausedBy PortFault.Failed (faults self.old) (faults self.new) result };

    /// Raises the watch, and writes over what is there and past the end. Until a sync, a crash may
    /// leave any bytes in the range. After a fault a read too may give any bytes there, and the
    /// length is one between.
    fn write_at(
        &mut self,
        watch: &mut Watch,
        side: Side,
        at: u64,
        bytes: &[u8],
    ) -> Result<(), PortFault>
        requires { at ≤ size self.old side }

        ensures size { OnOk result (
            size self.new side ≡ max (size self.old side) (at + length bytes.now)) }
        ensures seen { tells → OnOk result (
            (stands self.new).seen side ≡ overwritten at bytes.now ((stands self.old).seen side)) }

        ensures size_torn { OnErr result (IsBetween (size self.old side)
            (max (size self.old side) (at + length bytes.now)) (size self.new side)) }
        ensures torn { tells → OnErr result (Torn at (length bytes.now)
            ((stands self.old).seen side) ((stands self.new).seen side)) }

        // A crash may leave this from now on, after Ok and after a fault.
        ensures loose { tells → (stands self.new).loose side
            ≡ written at (length bytes.now) ((stands self.old).loose side) }
        ensures moment { tells → (stands self.old).last ≤ watch.old →
            Happens side watch.new (written at (length bytes.now) ((stands self.old).loose side))
            (stands self.old) (stands self.new) }
        ensures later { Ticks watch.old watch.new }

        ensures same_size { size self.new (other_side side) ≡ size self.old (other_side side) }
        ensures same { tells → Untouched (other_side side) (stands self.old) (stands self.new) }

        ensures not_memory { IfErr result (λ fault. fault ≡ PortFault.Failed) }
        ensures calm { IsSteady (faults self.old) (faults self.new) result }
        ensures cause { IsCausedBy PortFault.Failed (faults self.old) (faults self.new) result };

    /// Raises the watch, and cuts a side to a length. Until a sync, a crash may leave any bytes
    /// past it, and a length between. After a fault so may a read.
    fn cut(&mut self, watch: &mut Watch, side: Side, len: u64) -> Result<(), PortFault>
        requires { len ≤ size self.old side }

        ensures size { OnOk result (size self.new side ≡ len) }
        ensures seen { tells → OnOk result (
            (stands self.new).seen side ≡ take len ((stands self.old).seen side)) }

        ensures size_torn { OnErr result (
            IsBetween len (size self.old side) (size self.new side)) }
        ensures torn { tells → OnErr result (
            Clipped len ((stands self.old).seen side) ((stands self.new).seen side)) }

        // A crash may leave this from now on, after Ok and after a fault.
        ensures loose { tells → (stands self.new).loose side
            ≡ shortened len ((stands self.old).loose side) }
        ensures moment { tells → (stands self.old).last ≤ watch.old →
            Happens side watch.new (shortened len ((stands self.old).loose side))
            (stands self.old) (stands self.new) }
        ensures later { Ticks watch.old watch.new }

        ensures same_size { size self.new (other_side side) ≡ size self.old (other_side side) }
        ensures same { tells → Untouched (other_side side) (stands self.old) (stands self.new) }

        ensures not_memory { IfErr result (λ fault. fault ≡ PortFault.Failed) }
        ensures calm { IsSteady (faults self.old) (faults self.new) result }
        ensures cause { IsCausedBy PortFault.Failed (faults self.old) (faults self.new) result };

    /// Raises the watch, and puts a side on the medium: after Ok a crash leaves what a read gives.
    fn sync(&mut self, watch: &mut Watch, side: Side) -> Result<(), PortFault>
        ensures settled { tells → OnOk result (
            (stands self.new).loose side ≡ settled ((stands self.old).seen side)) }
        ensures unsettled { tells → OnErr result (
            (stands self.new).loose side ≡ (stands self.old).loose side) }

        // While it acts, a crash may leave what it could leave before.
        ensures moment { tells → (stands self.old).last ≤ watch.old →
            Happens side watch.new ((stands self.old).loose side)
            (stands self.old) (stands self.new) }
        ensures later { Ticks watch.old watch.new }

        ensures seen { tells → (stands self.new).seen side ≡ (stands self.old).seen side }
        ensures same_size { (s : Side) → size self.new s ≡ size self.old s }
        ensures same { tells → Untouched (other_side side) (stands self.old) (stands self.new) }

        ensures not_memory { IfErr result (λ fault. fault ≡ PortFault.Failed) }
        ensures calm { IsSteady (faults self.old) (faults self.new) result }
        ensures cause { IsCausedBy PortFault.Failed (faults self.old) (faults self.new) result };

    /// A length fits a u64.
    ghost fits: { (disk : Self) (side : Side) → size disk side < 2 ^ 64 };

    /// The length of a side is that of what a read gives.
    ghost sized: { tells → (disk : Self) (side : Side)
        → size disk side ≡ length ((stands disk).seen side) };

    /// At a moment after the last call a crash leaves what it may leave now.
    ghost since: { tells → (disk : Self) (side : Side) (m : ℕ) → (stands disk).last < m
        → (stands disk).past m side ≡ (stands disk).loose side };

    /// What a read gives is one of the contents that a crash may leave now.
    ghost stays: { tells → (disk : Self) (side : Side)
        → IsImage ((stands disk).loose side) ((stands disk).seen side) };
}
