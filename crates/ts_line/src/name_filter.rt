//! A filter over names that spares most names the search for duplicates.
ghost use Rattle.std.specs.Prelude.{◌≡◌, ◌<◌, true, false};
ghost use Rattle.ts_core.specs.facts.Facts.{Text};
ghost use Rattle.ts_line.specs.NameFilters.{filter_slot, is_set};

use std::marker::Model;
use ts_core::byte_at;

/// Names, by 64 slots: a name is new if its slot isn't set.
#[derive(Drop)]
pub(crate) struct NameFilter {
    slots: [bool; 64],
}

impl Model for NameFilter {
    ghost use Rattle.std.specs.Prelude.{List, Bool};

    ghost Value = { List Bool };

    ghost view = { λ f. f.slots };
}

/// Hashes a name to its slot of the filter. Most names of a line differ in length or in their last two bytes.
fn filter_slot(name: &str) -> usize
    ensures value { result ≡ filter_slot name.now }
    ensures bound { result < 64 }
{
    let bytes = name.as_bytes();
    let len = bytes.len();
    if len < 2 {
        return usize::from(byte_at(name, 0)) % 64;
    }
    (len % 64 * 11 + usize::from(bytes[len - 2]) * 3 + usize::from(bytes[len - 1])) % 64
}

impl NameFilter {
    /// Creates a filter without names.
    pub(crate) fn new() -> NameFilter
        ensures { (name : Text) → is_set result name ≡ false }
    {
        NameFilter { slots: [false; 64] }
    }

    /// Adds a name. Returns true if it may be there already.
    pub(crate) fn insert(&mut self, name: &str) -> bool
        ensures value { result ≡ is_set self.old name.now }
        ensures added { is_set self.new name.now ≡ true }
        ensures kept { (other : Text) → is_set self.old other ≡ true → is_set self.new other ≡ true }
    {
        let slot = filter_slot(name);
        let was_set = self.slots[slot];
        self.slots[slot] = true;
        was_set
    }
}
