// What happens to a walk: it moves to a place, it moves behind an entry that was read, or behind some, and its base address is
// replaced.
ghost use Rattle.std.specs.Prelude.{◌≡◌};
ghost use Rattle.lists.specs.Open.{walk_at, moved_to, read_to, rebased};
ghost use Rattle.lists.specs.Risen.{risen_by};

use super::Walk;

impl Walk {
    // The walk at another place.
    pub(crate) fn moved_to(self, at: usize) -> Walk
        ensures { result ≡ moved_to at self }
    {
        Walk {
            at,
            base_address: self.base_address,
            entries: self.entries,
        }
    }

    // The walk at another place, with an entry more read.
    pub(crate) fn read_to(self, at: usize) -> Walk
        ensures { result ≡ read_to at self }
    {
        Walk {
            at,
            base_address: self.base_address,
            entries: super::count::one_more(self.entries),
        }
    }

    // The walk with another base address.
    pub(crate) fn rebased(self, base_address: u64) -> Walk
        ensures { result ≡ rebased base_address self }
    {
        Walk {
            at: self.at,
            base_address,
            entries: self.entries,
        }
    }

    // The walk that goes on from a place with a base address, so many raw entries later.
    pub fn gone_on(self, at: usize, base_address: u64, read: u64) -> Walk
        ensures { result ≡ walk_at at base_address (risen_by self.entries read) }
    {
        Walk {
            at,
            base_address,
            entries: super::count::risen(self.entries, read),
        }
    }
}
