//! The events of a lock that nobody waits for: it is taken and released by one step on its owner word.

use crate::event::{Answer, NotPossible};
use crate::state::{Core, Holder};

impl Core {
    ghost use Rattle.std.specs.Prelude.{◌↔◌, IsTrue};
    ghost use Rattle.ww_model.specs.declared.event.Event.TheVariants.{Fast, FastGive};
    ghost use Rattle.ww_model.specs.Event.{Possible};
    ghost use Rattle.ww_model.specs.Snapshot.{state_of};
    ghost use Rattle.ww_model.specs.Step.{IsStep};

    fn can_fast(&self, seat: u8, lock: u8) -> bool
        ensures { IsTrue result ↔ Possible (state_of self.now) (Fast seat lock) }
    {
        self.is_away(seat) && self.may_own(seat) && self.is_calm(seat) && self.is_idle(lock)
    }

    pub(crate) fn fast(&mut self, seat: u8, lock: u8) -> Result<Answer, NotPossible>
        ensures { IsStep self.old (Fast seat lock) self.new result }
    {
        if !self.can_fast(seat, lock) {
            return Err(NotPossible);
        }
        self.owners[lock as usize] = Holder::Taken(seat);
        Ok(Answer::Locked)
    }

    fn can_fast_give(&self, seat: u8, lock: u8) -> bool
        ensures { IsTrue result ↔ Possible (state_of self.now) (FastGive seat lock) }
    {
        self.is_away(seat)
            && self.has_lock(lock)
            && self.owns(seat, lock)
            && self.waiters_at(lock).is_empty()
            && !self.is_asked(lock)
    }

    pub(crate) fn fast_give(&mut self, seat: u8, lock: u8) -> Result<Answer, NotPossible>
        ensures { IsStep self.old (FastGive seat lock) self.new result }
    {
        if !self.can_fast_give(seat, lock) {
            return Err(NotPossible);
        }
        self.owners[lock as usize] = Holder::Nobody;
        Ok(Answer::Done)
    }
}
