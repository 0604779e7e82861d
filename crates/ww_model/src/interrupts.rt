//! The events of a cancel: it is set, it is heeded, and the waiter that heeded it leaves. Heeding and leaving are two
//! events because they are two atomic steps, on two words.

use crate::event::{Answer, NotPossible};
use crate::guarded::depart;
use crate::state::Core;

impl Core {
    ghost use Rattle.std.specs.Prelude.{◌↔◌, IsTrue};
    ghost use Rattle.ww_model.specs.declared.event.Event.TheVariants.{Cancel, Heed, Leave};
    ghost use Rattle.ww_model.specs.Event.{Possible};
    ghost use Rattle.ww_model.specs.Snapshot.{state_of};
    ghost use Rattle.ww_model.specs.Step.{IsStep};

    fn can_cancel(&self, seat: u8, victim: u8) -> bool
        ensures { IsTrue result ↔ Possible (state_of self.now) (Cancel seat victim) }
    {
        self.is_away(seat) && self.has_seat(victim) && self.cancel_at(victim) == 0
    }

    pub(crate) fn cancel(&mut self, seat: u8, victim: u8) -> Result<Answer, NotPossible>
        ensures { IsStep self.old (Cancel seat victim) self.new result }
    {
        if !self.can_cancel(seat, victim) {
            return Err(NotPossible);
        }
        self.cancels[victim as usize] = seat + 1;
        Ok(Answer::Done)
    }

    fn can_heed(&self, seat: u8, lock: u8) -> bool
        ensures { IsTrue result ↔ Possible (state_of self.now) (Heed seat lock) }
    {
        self.is_inside(seat, lock)
            && self.waits_at(seat, lock)
            && self.has_other(seat, lock)
            && self.cancel_at(seat) != 0
            && self.heeded_at(seat) == 0
    }

    pub(crate) fn heed(&mut self, seat: u8, lock: u8) -> Result<Answer, NotPossible>
        ensures { IsStep self.old (Heed seat lock) self.new result }
    {
        if !self.can_heed(seat, lock) {
            return Err(NotPossible);
        }
        let canceller = self.cancel_at(seat);
        self.cancels[seat as usize] = 0;
        self.heeded[seat as usize] = canceller;
        Ok(Answer::Done)
    }

    fn can_leave(&self, seat: u8, lock: u8) -> bool
        ensures { IsTrue result ↔ Possible (state_of self.now) (Leave seat lock) }
    {
        self.is_inside(seat, lock) && self.waits_at(seat, lock) && self.heeded_at(seat) != 0
    }

    pub(crate) fn leave(&mut self, seat: u8, lock: u8) -> Result<Answer, NotPossible>
        ensures { IsStep self.old (Leave seat lock) self.new result }
    {
        if !self.can_leave(seat, lock) {
            return Err(NotPossible);
        }
        let canceller = self.heeded_at(seat) - 1;
        self.heeded[seat as usize] = 0;
        depart(&mut self.queues, &mut self.asked, seat, lock);
        Ok(Answer::Interrupted(canceller))
    }
}
