//! The events of a context: it begins, clears its sign, commits and ends.

use crate::event::{Answer, NotPossible};
use crate::state::Core;
use ww_queue::Kind;
use ww_word::MAX_STAMP;

impl Core {
    ghost use Rattle.std.specs.Prelude.{◌↔◌, IsTrue};
    ghost use Rattle.ww_model.specs.declared.event.Event.TheVariants.{Begin, Clear, Commit, End};
    ghost use Rattle.ww_model.specs.Event.{Possible, MayLive};
    ghost use Rattle.ww_model.specs.Snapshot.{state_of, LivesSome};
    ghost use Rattle.ww_model.specs.Step.{IsStep};

    fn can_begin(&self, seat: u8) -> bool
        ensures { IsTrue result ↔ Possible (state_of self.now) (Begin seat) }
    {
        self.is_away(seat)
            && self.stamp_at(seat) == 0
            && !self.owns_some(seat)
            && self.drawn < MAX_STAMP
    }

    pub(crate) fn begin(&mut self, seat: u8) -> Result<Answer, NotPossible>
        ensures { IsStep self.old (Begin seat) self.new result }
    {
        if !self.can_begin(seat) {
            return Err(NotPossible);
        }
        self.drawn += 1;
        self.stamps[seat as usize] = self.drawn;
        Ok(Answer::Stamp(self.drawn))
    }

    /// Whether, in Wait-Die, the seat is inside the guard of the lock and doesn't have to die there.
    fn lives_at(&self, seat: u8, lock: u8) -> bool
        ensures { IsTrue result ↔ MayLive (state_of self.now) seat lock }
    {
        match self.kind {
            Kind::WoundWait => false,
            Kind::WaitDie => self.is_inside(seat, lock) && self.dies(seat, lock).is_none(),
        }
    }

    /// Whether the seat is inside some guard in which it doesn't have to die, in Wait-Die.
    fn lives_inside(&self, seat: u8) -> bool
        ensures { IsTrue result ↔ LivesSome (state_of self.now) seat }
    {
        // In a reached state a seat is inside one guard at most, so no other than this one needs a look. That the state
        // was reached is known where a field is used.
        let _reached = &self.kind;
        self.lives_at(seat, self.place_of(seat))
    }

    fn can_clear(&self, seat: u8) -> bool
        ensures { IsTrue result ↔ Possible (state_of self.now) (Clear seat) }
    {
        self.stamp_at(seat) > 0
            && ((self.is_away(seat) && !self.owns_some(seat)) || self.lives_inside(seat))
    }

    pub(crate) fn clear(&mut self, seat: u8) -> Result<Answer, NotPossible>
        ensures { IsStep self.old (Clear seat) self.new result }
    {
        if !self.can_clear(seat) {
            return Err(NotPossible);
        }
        self.signs[seat as usize] = 0;
        Ok(Answer::Done)
    }

    fn can_commit(&self, seat: u8) -> bool
        ensures { IsTrue result ↔ Possible (state_of self.now) (Commit seat) }
    {
        self.is_away(seat) && self.owns_some(seat) && self.commits < u64::MAX
    }

    pub(crate) fn commit(&mut self, seat: u8) -> Result<Answer, NotPossible>
        ensures { IsStep self.old (Commit seat) self.new result }
    {
        if !self.can_commit(seat) {
            return Err(NotPossible);
        }
        let place = self.commits;
        self.commits += 1;
        Ok(Answer::Place(place))
    }

    fn can_end(&self, seat: u8) -> bool
        ensures { IsTrue result ↔ Possible (state_of self.now) (End seat) }
    {
        self.is_away(seat)
            && self.stamp_at(seat) > 0
            && !self.owns_some(seat)
            && self.sign_at(seat) == 0
    }

    pub(crate) fn end(&mut self, seat: u8) -> Result<Answer, NotPossible>
        ensures { IsStep self.old (End seat) self.new result }
    {
        if !self.can_end(seat) {
            return Err(NotPossible);
        }
        self.stamps[seat as usize] = 0;
        Ok(Answer::Done)
    }
}
