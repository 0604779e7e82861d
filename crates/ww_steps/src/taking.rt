//! The first step of taking a lock.
use crate::desk::Desk;
use crate::turn::{Answer, NoTry, Turn};
use ww_seat::{Arrival, Waits};
use ww_table::{Taking, Tried};

impl Desk {
    ghost use Rattle.std.specs.Prelude.{◌≡◌, ◌<◌, not, true};
    ghost use Rattle.ww_table.specs.Seat.{taking_of};
    ghost use Rattle.ww_steps.specs.Situations.{is_at_rest, is_empty, wants_now, HasReleasedAll, IsPlain};
    ghost use Rattle.ww_steps.specs.Answers.{answer_of_none, CanNotTry, IsTryRefusal, IsTryAnswer, IsLockAnswer, IsSlowAnswer, HasJustLost, HasTriedAsIs};
    ghost use Rattle.ww_seat.specs.declared.look.Arrival.TheVariants.{Came};
    ghost use Rattle.ww_steps.specs.declared.turn.Turn.TheVariants.{Wants};

    /// Why it doesn't try to take this lock. The lock's word says whether it holds it.
    #[cold]
    #[inline(never)]
    fn refuses(&mut self, lock: u32) -> NoTry
        requires { CanNotTry self.old lock }
        ensures same { self.new ≡ self.old }
        ensures why { IsTryRefusal self.old lock (answer_of_none result) }
    {
        if !self.station.rests() {
            return NoTry::Busy;
        }
        if self.station.is_lock(lock) && self.station.seat.has(&self.station.board, lock) {
            return NoTry::Already;
        }
        NoTry::Invalid
    }

    /// One try to take a lock, while it may want one, by a desk that holds others or none. Whether it holds this one the
    /// lock's word tells.
    #[inline(always)]
    #[tactic(auto, using(crate::proofs::Locks::may_try, crate::proofs::Keeping::few_counted, crate::proofs::Keeping::took_at_once))]
    fn try_once(&mut self, lock: u32, holds: bool) -> Taking
        requires wants { wants_now self.old ≡ true }
        requires there { lock < self.old.size }
        requires holds { holds ≡ not (is_empty self.old.held) }
        ensures { HasTriedAsIs self.old lock result self.new }
    {
        match self
            .station
            .seat
            .try_take_bare(&self.station.board, lock, holds)
        {
            Taking::Took => {
                self.station.add();
                Taking::Took
            }
            Taking::Had => Taking::Had,
            Taking::Missed => Taking::Missed,
        }
    }

    /// The same where it may want a lock, as the caller knows: no sign is looked for.
    #[inline(always)]
    #[tactic(auto, using(crate::proofs::Locks::may_take, crate::proofs::Keeping::few_counted, crate::proofs::Keeping::took_at_once))]
    fn try_plainly(&mut self, lock: u32) -> Tried
        requires plain { IsPlain self.old }
        requires there { lock < self.old.size }
        ensures { HasTriedAsIs self.old lock (taking_of result) self.new }
    {
        let tried = self.station.seat.take_bare(&self.station.board, lock);
        match tried {
            Tried::Did => self.station.count += 1,
            Tried::InVain(_) => {}
        }
        tried
    }

    /// Takes a lock if nobody has it or waits for it, and else returns `Busy`.
    pub fn try_lock(&mut self, lock: u32) -> Answer
        ensures { IsTryAnswer self.old lock result self.new }
    {
        if !self.wants() || !self.station.is_lock(lock) {
            return self.refuses(lock).answer();
        }
        self.try_wanted(lock, !self.holds_none())
    }

    /// The same while it may want a lock, by a desk that holds others or none.
    #[inline(always)]
    fn try_wanted(&mut self, lock: u32, holds: bool) -> Answer
        requires wants { wants_now self.old ≡ true }
        requires there { lock < self.old.size }
        requires holds { holds ≡ not (is_empty self.old.held) }
        ensures { IsTryAnswer self.old lock result self.new }
    {
        match self.try_once(lock, holds) {
            Taking::Took => Answer::Done,
            Taking::Had => Answer::Already,
            Taking::Missed => Answer::Busy,
        }
    }

    /// Takes a lock, or begins to wait for it. `Invalid` for a lock that isn't there, for a context that is done, for
    /// one that has to back off and hasn't, and for a second lock without a context.
    #[inline(always)]
    pub fn lock(&mut self, lock: u32, waits: Waits) -> Answer
        ensures { IsLockAnswer self.old lock waits result self.new }
    {
        self.lock_here(lock, waits)
    }

    /// The same, in a frame of its own: so a caller of `lock` has room for the answer only where it needs it.
    fn lock_here(&mut self, lock: u32, waits: Waits) -> Answer
        ensures { IsLockAnswer self.old lock waits result self.new }
    {
        if !self.wants() || !self.station.is_lock(lock) {
            return self.refuses(lock).answer();
        }
        self.lock_wanted(lock, !self.holds_none(), waits)
    }

    /// The same while it may want a lock, by a desk that holds others or none.
    #[inline(always)]
    fn lock_wanted(&mut self, lock: u32, holds: bool, waits: Waits) -> Answer
        requires wants { wants_now self.old ≡ true }
        requires there { lock < self.old.size }
        requires holds { holds ≡ not (is_empty self.old.held) }
        ensures { IsLockAnswer self.old lock waits result self.new }
    {
        match self.try_once(lock, holds) {
            Taking::Took => Answer::Done,
            Taking::Had => Answer::Already,
            Taking::Missed => {
                self.goes_on_wanting(lock, waits);
                Answer::Again
            }
        }
    }

    /// Takes a lock, or begins to wait for it, by a context that has released all that it held.
    #[inline(always)]
    pub fn lock_bare(&mut self, lock: u32, waits: Waits) -> Answer
        requires bare { HasReleasedAll self.old }
        requires there { lock < self.old.size }
        ensures { IsLockAnswer self.old lock waits result self.new }
    {
        self.lock_wanted(lock, false, waits)
    }

    /// Takes a lock, or begins to wait for it, where it may want one.
    #[inline(always)]
    pub fn lock_plainly(&mut self, lock: u32, waits: Waits) -> Answer
        requires plain { IsPlain self.old }
        requires there { lock < self.old.size }
        ensures { IsLockAnswer self.old lock waits result self.new }
    {
        match self.try_plainly(lock) {
            Tried::Did => Answer::Done,
            Tried::InVain(found) => {
                if found.is_own() {
                    return Answer::Already;
                }
                self.goes_on_wanting(lock, waits);
                Answer::Again
            }
        }
    }

    /// Takes a lock if nobody has it or waits for it, where it may want one.
    #[inline(always)]
    pub fn try_lock_plainly(&mut self, lock: u32) -> Answer
        requires plain { IsPlain self.old }
        requires there { lock < self.old.size }
        ensures { IsTryAnswer self.old lock result self.new }
    {
        match self.try_plainly(lock) {
            Tried::Did => Answer::Done,
            Tried::InVain(found) => {
                if found.is_own() {
                    return Answer::Already;
                }
                Answer::Busy
            }
        }
    }

    /// Takes a lock if nobody has it or waits for it, by a context that has released all that it held.
    #[inline(always)]
    pub fn try_lock_bare(&mut self, lock: u32) -> Answer
        requires bare { HasReleasedAll self.old }
        requires there { lock < self.old.size }
        ensures { IsTryAnswer self.old lock result self.new }
    {
        self.try_wanted(lock, false)
    }

    /// Further steps take this lock, which it has just tried in vain.
    #[inline(always)]
    #[tactic(auto, using(crate::proofs::Keeping::lost_keeps))]
    fn goes_on_wanting(&mut self, lock: u32, waits: Waits)
        requires { HasJustLost lock self.old }
        ensures { self.new ≡ record self.old { turn = Wants lock Came waits } }
    {
        self.station.turn = Turn::Wants(lock, Arrival::Came, waits);
    }

    /// Takes the contended lock, once the context has backed off because of it. `Invalid` for any other lock, or while
    /// one is held.
    pub fn lock_slow(&mut self, lock: u32, waits: Waits) -> Answer
        ensures { IsSlowAnswer self.old lock waits result self.new }
    {
        if self.station.rests() && (self.station.told != Some(lock) || self.station.count != 0) {
            return Answer::Invalid;
        }
        self.lock_here(lock, waits)
    }
}
