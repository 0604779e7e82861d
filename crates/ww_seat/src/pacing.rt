//! How long a pass rests between two contexts, as data. Where contexts keep meeting one another, fewer at a time do more;
//! and between two contexts a pass holds nothing, so nobody waits for it.

/// The fewest pauses of such a rest.
const FEWEST: u32 = 8;

/// At most this many doublings of that.
const MOST_JAMS: u32 = 12;

/// At most this many contexts that met others make no jam.
const FEW: u32 = 3;

/// In a jam one of these is forgotten after so many contexts that met no other; else after each.
const CLEAR: u32 = 4;

/// What a pass remembers of the contexts that met others. No contract speaks of it.
#[derive(Drop)]
pub(crate) struct Pace {
    /// Grows with each context that met another, and shrinks again where they don't.
    jams: u32,
    /// Whether the last context met another at a lock; then `jams` isn't 0.
    met: bool,
    /// The contexts that met none since `jams` last changed.
    clear: u32,
}

impl Pace {
    pub(crate) fn new() -> Pace {
        Pace {
            jams: 0,
            met: false,
            clear: 0,
        }
    }

    /// The context has met another at a lock.
    pub(crate) fn meet(&mut self) {
        if !self.met {
            self.met = true;
            self.clear = 0;
            self.jams = MOST_JAMS.min(self.jams.saturating_add(1));
        }
    }

    /// Whether contexts met none for a while.
    #[inline(always)]
    pub(crate) fn is_clear(&self) -> bool {
        self.jams == 0
    }

    /// A context is about to begin, where they met others lately: for how many pauses the pass had better rest before.
    pub(crate) fn rest(&mut self) -> u32 {
        if self.met {
            self.met = false;
            return FEWEST << self.jams.min(MOST_JAMS);
        }
        self.clear = self.clear.saturating_add(1);
        if self.jams <= FEW || self.clear >= CLEAR {
            self.clear = 0;
            self.jams = self.jams.saturating_sub(1);
        }
        0
    }
}
