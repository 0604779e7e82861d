//! A set of node numbers, by a flag for each.

ghost use Rattle.std.specs.Prelude.{◌≡◌, ℕ, List, [], ◌++◌, ◌∷◌, not};
ghost use Rattle.ww_plain.specs.Numbers.{is_among};
ghost use Rattle.ww_plain.specs.Seen.{Marks};

/// A flag for each number that a node may be named by.
const NUMBERS: usize = 256;

/// The numbers that a list has so far: each is looked up in one step, however long the list is.
#[derive(Drop)]
pub(crate) struct Seen {
    came: [bool; NUMBERS],
}

impl Seen {
    #[tactic(auto, using(crate::proofs::Seens::none_marked))]
    pub(crate) fn new() -> Seen
        ensures { Marks result.came [] }
    {
        Seen {
            came: [false; NUMBERS],
        }
    }

    /// Whether the number is one of the list.
    pub(crate) fn contains(&self, node: u8) -> bool
        ensures { (ns : List ℕ) → Marks self.now.came ns → result ≡ is_among node ns }
    {
        self.came[usize::from(node)]
    }

    /// The list goes on with the number. Whether it is new there.
    pub(crate) fn insert(&mut self, node: u8) -> bool
        ensures new { (ns : List ℕ) → Marks self.old.came ns → result ≡ not (is_among node ns) }
        ensures more { (ns : List ℕ) → Marks self.old.came ns → Marks self.new.came (ns ++ node ∷ []) }
    {
        let is_new = !self.contains(node);
        self.came[usize::from(node)] = true;
        is_new
    }
}
