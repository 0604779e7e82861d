//! The table as all seats share it.

ghost use Rattle.std.specs.Prelude.{◌≡◌, ◌≤◌, ◌<◌, length};
ghost use Rattle.ww_invariant.specs.Layout.{IsSized};
ghost use Rattle.ww_invariant.specs.Rule.{first_graph};

use atomic_table::Table;
use std::alloc::Global;
use ww_invariant::layout::{FRONT, STAMP, cancel_word, guard_word, owner_word, sign_word};
use ww_invariant::{Cell, Sight, Start, Words};

/// A table of so many locks, 2^24 at most, and of 16 seats or more. If locks guard the nodes of a graph these are the
/// first ones, of 64 at most.
#[derive(Drop)]
pub struct Board {
    pub(crate) table: Table<Cell, Sight, Start, Words, Global>,
    pub(crate) size: u8,
    pub(crate) locks: u32,
    pub(crate) places: u16,
    ghost sized: { IsSized table.shared.key.locks table.shared.key.places table.shared.table_id },
    ghost locks_is: { locks ≡ table.shared.key.locks },
    ghost places_are: { places ≡ table.shared.key.places },
    ghost many: { table.shared.key.locks ≤ 16777216 },
    ghost spread: { 0 < length (first_graph table.shared.key) → table.shared.key.locks ≤ 64 },
    ghost fits: { length (first_graph table.shared.key) ≤ table.shared.key.locks },
    ghost size_is: { size ≡ length (first_graph table.shared.key) },
    ghost some: { 1 ≤ table.shared.key.seats },
    ghost sixteen: { 16 ≤ table.shared.key.places },
    ghost few: { length (first_graph table.shared.key) ≤ 64 },
}

impl Board {
    ghost use Rattle.std.specs.Prelude.{◌<◌};

    /// How many nodes there are.
    pub fn size(&self) -> u8
        ensures { result ≡ length (first_graph self.now.table.shared.key) }
    {
        self.size
    }

    /// How many locks there are.
    pub fn locks(&self) -> u32
        ensures { result ≡ self.now.table.shared.key.locks }
    {
        self.locks
    }

    /// How many seats the core has: 16, or as many as the table if these are more.
    pub fn places(&self) -> u16
        ensures { result ≡ self.now.table.shared.key.places }
    {
        self.places
    }

    /// Reads one word, for a caller that has the board for itself, as tests do: a seat at work shares it, and reads by its
    /// steps alone. No clause says what the word has. The words are numbered: owner words from 0, guards from 64, signs
    /// from 128, the stamp word 144, the front word 145, cancels from 146. It gives 0 for a lock that isn't there.
    #[tactic(auto, unfolding(ww_invariant::specs::Layout::lock_at))]
    pub fn peek(&mut self, word: u8) -> u64
        requires { word < 162 }
        ensures same { self.new ≡ self.old }
    {
        if word < 128 && u32::from(word % 64) >= self.locks {
            return 0;
        }
        self.table.shared.peek(match word {
            0..=63 => owner_word(self.locks, u32::from(word)),
            64..=127 => guard_word(self.locks, u32::from(word) - 64),
            128..=143 => sign_word(self.locks, u16::from(word) - 128),
            144 => STAMP,
            145 => FRONT,
            _ => cancel_word(self.locks, u16::from(word) - 146),
        })
    }
}
