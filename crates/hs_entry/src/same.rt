//! Whether two entries are the same.
ghost use Rattle.std.specs.Prelude.{◌≡◌, ◌↔◌, IsTrue};
ghost use Rattle.hs_entry.specs.Entries.{is_of_base};

use crate::Entry;
use hs_limits::Delta;

impl Entry {
    /// Whether the two are the same entry.
    pub fn is_same(&self, other: &Entry) -> bool
        ensures { IsTrue result ↔ (self.now ≡ other.now) }
    {
        match self {
            Entry::View { view } => matches!(other, Entry::View { view: a } if a == view),
            Entry::Block { op, least, bytes } => matches!(other,
                Entry::Block { op: a, least: b, bytes: c }
                if a == op && b == least && same(c.as_slice(), bytes.as_slice())),
            Entry::Mark {
                op,
                least,
                block,
                address,
            } => matches!(other,
                Entry::Mark { op: a, least: b, block: c, address: d }
                if a == op && b == least && c == block && same(&d.0, &address.0)),
            Entry::Root {
                op,
                held,
                address,
                key,
            } => matches!(other,
                Entry::Root { op: a, held: b, address: c, key: d }
                if a == op && b == held && same(&c.0, &address.0)
                    && same(d.as_slice(), key.as_slice())),
            Entry::Drop { op, key } => matches!(other,
                Entry::Drop { op: a, key: b } if a == op && same(b.as_slice(), key.as_slice())),
            Entry::Enter { op, epoch } => matches!(other,
                Entry::Enter { op: a, epoch: b } if a == op && b == epoch),
            Entry::Got {
                sender,
                epoch,
                round,
                total,
                deltas,
            } => matches!(other,
                Entry::Got { sender: a, epoch: b, round: c, total: d, deltas: e }
                if a == sender && b == epoch && c == round && d == total
                    && same_deltas(e.as_slice(), deltas.as_slice())),
            _ => self.is_same_kept(other),
        }
    }

    /// Whether the two are the same Base or the same kept frame.
    fn is_same_kept(&self, other: &Entry) -> bool
        requires { IsTrue (is_of_base self.now) }
        ensures { IsTrue result ↔ (self.now ≡ other.now) }
    {
        match self {
            Entry::Base {
                view,
                epoch,
                swept,
                round,
                frames,
            } => matches!(other,
                Entry::Base { view: a, epoch: b, swept: c, round: d, frames: e }
                if a == view && b == epoch && c == swept && d == round && e == frames),
            Entry::KeptBlock {
                born,
                mark,
                flags,
                count,
                bytes,
            } => matches!(other,
                Entry::KeptBlock { born: a, mark: b, flags: c, count: d, bytes: e }
                if a == born && b == mark && c == flags && d == count
                    && same(e.as_slice(), bytes.as_slice())),
            Entry::KeptRoot {
                created,
                dropped,
                counted,
                address,
                key,
            } => matches!(other,
                Entry::KeptRoot { created: a, dropped: b, counted: c, address: d, key: e }
                if a == created && b == dropped && c == counted && same(&d.0, &address.0)
                    && same(e.as_slice(), key.as_slice())),
            Entry::KeptRound {
                way,
                other: shard,
                epoch,
                round,
                total,
                deltas,
            } => matches!(other,
                Entry::KeptRound { way: a, other: b, epoch: c, round: d, total: e, deltas: f }
                if a == way && b == shard && c == epoch && d == round && e == total
                    && same_deltas(f.as_slice(), deltas.as_slice())),
            _ => unreachable!(),
        }
    }
}

/// Whether the two are the same bytes.
fn same(a: &[u8], b: &[u8]) -> bool
    ensures { IsTrue result ↔ (b.now ≡ a.now) }
{
    a == b
}

/// Whether the two are the same deltas.
fn same_deltas(a: &[Delta], b: &[Delta]) -> bool
    ensures { IsTrue result ↔ (b.now ≡ a.now) }
{
    if a.len() != b.len() {
        return false;
    }
    for k in 0..a.len() {
        if a[k].amount != b[k].amount || !same(&a[k].address.0, &b[k].address.0) {
            return false;
        }
    }
    true
}
