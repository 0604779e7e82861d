//! The calls of a gate for one transaction: none if that is refused; else first that it is about to commit, and
//! then that it is answered.

use crate::gate::Gate;

/// Which calls a gate got for a transaction.
#[derive(Clone, Copy, PartialEq, Eq)]
pub(crate) enum GateCalls {
    Untold,
    Asked,
    Answered,
}

/// A gate, the commit for which it is to be called, and which calls it got for that.
#[derive(Drop)]
pub(crate) struct Telling<'a, G> {
    gate: &'a G,
    caller: u8,
    seq: u64,
    stage: GateCalls,
}

impl<'a, G: Gate> Telling<'a, G> {
    ghost use Rattle.std.specs.Prelude.{◌≡◌};
    ghost use Rattle.ww_txn.specs.declared.telling.GateCalls.TheVariants.{Untold, Asked, Answered};

    pub(crate) fn new(gate: &'a G, caller: u8, seq: u64) -> Telling<'a, G>
        ensures gate { result.gate.now ≡ gate.now }
        ensures commit { (result.caller ≡ caller) × (result.seq ≡ seq) }
        ensures untold { result.stage ≡ Untold }
    {
        Telling {
            gate,
            caller,
            seq,
            stage: GateCalls::Untold,
        }
    }

    /// The transaction is prepared, and all its locks are held.
    pub(crate) fn before_commit(&mut self)
        requires untold { self.old.stage ≡ Untold }
        ensures told { self.new ≡ record self.old { stage = Asked } }
        ensures asked { G.is_asked self.new.gate.now self.new.caller self.new.seq }
    {
        self.gate.before_commit(self.caller, self.seq);
        self.stage = GateCalls::Asked;
    }

    /// The transaction is committed, and all its locks were released.
    pub(crate) fn answered(&mut self)
        requires stage { self.old.stage ≡ Asked }
        requires asked { G.is_asked self.old.gate.now self.old.caller self.old.seq }
        ensures told { self.new ≡ record self.old { stage = Answered } }
        ensures answered { G.is_answered self.new.gate.now self.new.caller self.new.seq }
    {
        self.gate.answered(self.caller, self.seq);
        self.stage = GateCalls::Answered;
    }
}
