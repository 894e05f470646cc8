// A register of conditions over a store.
ghost use Rattle.std.specs.Prelude.{◌≡◌, ◌<◌, ◌≤◌, ◌↔◌, [], ◌∷◌, ◌++◌, length, IsTrue, slice_set};
ghost use Rattle.register.specs.Held.{most_entries, entry_at, struck_out, entry_refusal, unless_refused};

use crate::entries::Entry;
use kinds::refusals::Refusal;
use std::marker::Model;

pub mod calls;
pub mod replays;

const MOST_ENTRIES: usize = 64;

// The entries: the first `used` of the array.
#[derive(Clone, Copy)]
pub struct Entries {
    slots: [Entry; MOST_ENTRIES],
    used: u32,
}

// Clauses see the entries in use.
impl Model for Entries {
    ghost use Rattle.std.specs.Prelude.{List, length};
    ghost use Rattle.passify.specs.Padding.{padded, Fills};
    ghost use Rattle.passify.specs.PaddingLaws.{unpadded};
    ghost use Rattle.register.specs.declared.entries.Entry.{Entry};
    ghost use Rattle.register.specs.Held.{most_entries, no_entry, listed};

    ghost Value = { List Entry };

    ghost view = { λ e. listed e.slots e.used };

    ghost invariant = { λ e. Fills no_entry most_entries e.slots e.used };

    ghost inverse = { λ es. record { slots = padded no_entry most_entries es; used = length es } };

    ghost inverse_ok = { λ e h i. let u = unpadded no_entry most_entries e.slots e.used h in record { slots = u.same_items i; used = u.same_len i } };
}

impl Entries {
    fn new() -> Entries
        ensures { result ≡ [] }
    {
        Entries {
            slots: [Entry::BLANK; MOST_ENTRIES],
            used: 0,
        }
    }

    // The entries in use.
    fn in_use(&self) -> &[Entry]
        ensures { result.now ≡ self.now }
    {
        &self.slots[0..self.used as usize]
    }

    fn is_full(&self) -> bool
        ensures { IsTrue result ↔ (MOST_ENTRIES ≤ length self.now) }
    {
        self.in_use().len() >= MOST_ENTRIES
    }

    // Adds an entry, and answers its number.
    fn push(&mut self, entry: Entry) -> u32
        requires { length self.old < MOST_ENTRIES }
        ensures pushed { self.new ≡ self.old ++ (entry ∷ []) }
        ensures number { result ≡ length self.old }
    {
        let number = self.used;
        self.slots[number as usize] = entry;
        self.used += 1;
        number
    }

    // Marks one entry: the element is lent, and its mark changed.
    fn mark(&mut self, j: u32)
        requires { j < length self.old }
        ensures { self.new ≡ slice_set self.old j (struck_out (entry_at self.old j)) }
    {
        let entry = &mut self.slots[j as usize];
        entry.struck = true;
    }

    // The entry that can be read or struck, or why it cannot.
    fn entry(&self, j: u32) -> Result<Entry, Refusal>
        ensures { result ≡ unless_refused (entry_refusal self.now j) (entry_at self.now j) }
    {
        match self.in_use().get(j as usize) {
            None => Err(Refusal::NotInUse),
            Some(entry) if entry.struck => Err(Refusal::Struck),
            Some(entry) => Ok(*entry),
        }
    }
}

#[derive(Drop)]
pub struct Register<S> {
    v: u32,
    store: S,
    entries: Entries,
    ghost few: { length entries ≤ most_entries },
}
