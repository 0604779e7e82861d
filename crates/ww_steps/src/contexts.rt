//! Contexts: one is begun with a stamp, has all its locks, and ends.
use crate::desk::Desk;
use crate::turn::Answer;

impl Desk {
    ghost use Rattle.std.specs.Prelude.{◌≡◌, Some};
    ghost use Rattle.ww_steps.specs.declared.turn.Answer.TheVariants.{Done};
    ghost use Rattle.ww_steps.specs.Situations.{IsReady, HasReleasedAll};
    ghost use Rattle.ww_steps.specs.Answers.{IsBeginAnswer, IsDoneAnswer, IsEndAnswer};

    /// Starts a context, with a stamp of its own. `Invalid` where there is one, or a lock is held; `NoSpace` where all
    /// that were allowed were begun, or the world's stamps are spent.
    #[inline(always)]
    pub fn begin(&mut self) -> Answer
        ensures answer { IsBeginAnswer self.old result self.new }
        ensures unsigned { result ≡ Done → self.new.view.sign ≡ Some 0 }
    {
        if !self.station.rests() {
            return Answer::Busy;
        }
        if self.station.seat.stamp() != 0 || self.station.count != 0 {
            return Answer::Invalid;
        }
        if self.station.left == 0 {
            return Answer::NoSpace;
        }
        self.station.left -= 1;
        if self.station.seat.begin(&self.station.board).is_none() {
            return Answer::NoSpace;
        }
        self.station.is_done = false;
        self.station.told = None;
        Answer::Done
    }

    /// Starts a context, where the desk is ready; `NoSpace` where the world's stamps are spent.
    #[inline(always)]
    pub fn begin_ready(&mut self) -> Answer
        requires { IsReady self.old }
        ensures answer { IsBeginAnswer self.old result self.new }
        ensures unsigned { result ≡ Done → self.new.view.sign ≡ Some 0 }
    {
        let drawn = self.station.seat.begin(&self.station.board);
        self.station.left -= 1;
        if drawn.is_none() {
            return Answer::NoSpace;
        }
        Answer::Done
    }

    /// The context has all its locks: from now on it takes none, as if there were none to take. `Invalid` without a
    /// context, and the second time.
    #[inline(always)]
    pub fn done(&mut self) -> Answer
        ensures { IsDoneAnswer self.old result self.new }
    {
        if !self.station.rests() {
            return Answer::Busy;
        }
        if self.station.seat.stamp() == 0 || self.station.is_done {
            return Answer::Invalid;
        }
        self.station.is_done = true;
        Answer::Done
    }

    /// Ends the context. `Invalid` where there is none, or a lock is held.
    #[inline(always)]
    pub fn end(&mut self) -> Answer
        ensures { IsEndAnswer self.old result self.new }
    {
        if !self.station.rests() {
            return Answer::Busy;
        }
        if self.station.seat.stamp() == 0 || self.station.count != 0 {
            return Answer::Invalid;
        }
        self.station.seat.end(&self.station.board);
        self.station.is_done = false;
        self.station.told = None;
        Answer::Done
    }

    /// Ends a context that has released all that it held.
    #[inline(always)]
    pub fn end_bare(&mut self)
        requires { HasReleasedAll self.old }
        ensures { IsEndAnswer self.old Done self.new }
    {
        self.station.seat.end(&self.station.board);
    }
}
