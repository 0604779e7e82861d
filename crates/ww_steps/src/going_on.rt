//! The further steps of a call.
ghost use Rattle.std.specs.Prelude.{◌≡◌, ◌≢◌, ◌<◌, ◌≤◌, ◌*◌, ◌/◌, ◌%◌, ◌^◌, length, Some, IfSome};
ghost use Rattle.std.specs.Option.{option_map};
ghost use Rattle.ww_queue.specs.declared.entry.Entry.{Entry};
ghost use Rattle.ww_view.specs.Made.{with_heir};
ghost use Rattle.ww_seat.specs.Work.{AreMarked, StillHasToWake};
ghost use Rattle.ww_seat.specs.Standings.{view_in};
ghost use Rattle.ww_steps.specs.Answers.{IsMarkTaken};
ghost use Rattle.ww_steps.specs.declared.turn.Turn.TheVariants.{Looks, Gives};
ghost use Rattle.ww_steps.specs.declared.turn.Answer.TheVariants.{Done};

use crate::desk::Desk;
use crate::station::Station;
use crate::turn::{Answer, Turn};
use ww_queue::wide::Entry;
use ww_seat::{Arrival, Attempt, Look, Waits, mark};

impl Desk {
    ghost use Rattle.ww_steps.specs.Answers.{BooksWakes, CountsNaps, IsNextAnswer, IsGiveAnswer, IsCancelAnswer, IsHeedAnswer, IsWakeAnswer};

    /// The next step of the call that is on its way. `Invalid` where none is.
    #[tactic(auto, using(crate::proofs::Account::entered_keeps, crate::proofs::Account::give_balances, crate::proofs::Account::step_books))]
    pub fn go_on(&mut self) -> Answer
        ensures answer { IsNextAnswer self.old.turn self.old result self.new }
        ensures books { BooksWakes self.old self.new }
        ensures naps { CountsNaps self.old result self.new }
    {
        match self.station.turn {
            Turn::Rests => Answer::Invalid,
            Turn::Wants(lock, arrival, waits) => {
                if !self.station.seat.enter_wanted(&self.station.board, lock) {
                    return Answer::Awaits;
                }
                self.station.look(lock, arrival, waits)
            }
            Turn::Looks(lock, arrival, waits) => self.station.look(lock, arrival, waits),
            Turn::Gives(lock) => self.let_go(lock),
        }
    }

    /// One try to go inside the guard of a lock that it releases; inside, the lock is released for certain.
    #[tactic(auto, using(crate::proofs::Keeping::gave_inside, crate::proofs::Marks::written))]
    fn let_go(&mut self, lock: u32) -> Answer
        requires turn { self.old.turn ≡ Gives lock }
        ensures answer { IsGiveAnswer self.old lock result self.new }
        ensures debts { result ≡ Done → self.new.view.debts ≡ with_heir self.new.view.heir self.old.view.debts }
        ensures naps { CountsNaps self.old result self.new }
    {
        if !self.station.seat.enter_owned(&self.station.board, lock) {
            return Answer::Awaits;
        }
        let first = self.station.seat.give_on(&self.station.board, lock);
        add_first(&mut self.station.wake, self.station.seat.who(), first);
        self.station.count -= 1;
        self.station.turn = Turn::Rests;
        Answer::Done
    }

    /// Calls off the wait of the seat of this number, if its call lets it. `Already` where that is pending, which
    /// stays; `Invalid` for a seat that the world hasn't.
    #[tactic(auto, using(crate::proofs::Account::balances_cancel, crate::proofs::Account::step_books))]
    pub fn cancel(&mut self, victim: u16) -> Answer
        ensures answer { IsCancelAnswer self.old victim result self.new }
        ensures books { BooksWakes self.old self.new }
    {
        if !self.station.rests() {
            return Answer::Busy;
        }
        if victim >= self.station.seats {
            return Answer::Invalid;
        }
        if !self.station.seat.cancel_once(&self.station.board, victim) {
            return Answer::Already;
        }
        mark(
            &mut self.station.wake,
            self.station.seat.who(),
            victim,
            true,
        );
        Answer::Done
    }

    /// From now on the wait of the call that is on its way heeds cancels, whatever that call said. `Invalid` where none is;
    /// `Busy` where it is inside a guard, or releases a lock.
    pub fn heed(&mut self) -> Answer
        ensures { IsHeedAnswer self.old result self.new }
    {
        match self.station.turn {
            Turn::Rests => Answer::Invalid,
            Turn::Wants(lock, arrival, _) => {
                self.station.turn = Turn::Wants(lock, arrival, Waits::UntilCancelled);
                Answer::Done
            }
            Turn::Looks(..) | Turn::Gives(_) => Answer::Busy,
        }
    }

    /// One of the seats to wake now, if there are any. Each is named once.
    pub fn next_wake(&mut self) -> Option<u16>
        ensures { IsWakeAnswer self.old result self.new }
    {
        match self.station.turn {
            Turn::Looks(..) => None,
            _ => take_mark(&mut self.station.wake),
        }
    }
}

impl Station {
    ghost use Rattle.ww_steps.specs.Stations.{situation_of, Keeps};
    ghost use Rattle.ww_steps.specs.Answers.{CountsNaps, IsWaitAnswer};

    /// One look at a lock, inside its guard, of a call that is about to look there.
    fn look(&mut self, lock: u32, arrival: Arrival, waits: Waits) -> Answer
        requires keeps { Keeps (record self.old { turn = Looks lock arrival waits }) }
        ensures keeps { Keeps self.new }
        ensures answer { IsWaitAnswer (situation_of self.old) lock waits result (situation_of self.new) }
        ensures still { StillHasToWake (view_in self.old.seat) (view_in self.new.seat) }
        ensures naps { CountsNaps (situation_of self.old) result (situation_of self.new) }
    {
        let mut arrival = arrival;
        let attempt = self.seat.look_once(
            &self.board,
            lock,
            &mut arrival,
            waits,
            self.count != 0,
            &mut self.wake,
        );
        match attempt {
            Attempt::Lost => {
                self.turn = Turn::Looks(lock, arrival, waits);
                Answer::Again
            }
            Attempt::Ended(Look::Waits) => {
                self.turn = Turn::Wants(lock, Arrival::Woken, waits);
                Answer::Sleeps
            }
            Attempt::Ended(Look::Locked(_)) => {
                self.add();
                self.turn = Turn::Rests;
                Answer::Done
            }
            Attempt::Ended(Look::Deadlk(met)) => {
                self.told = Some(lock);
                self.turn = Turn::Rests;
                Answer::Deadlk(met)
            }
            Attempt::Ended(Look::Interrupted(by)) => {
                self.turn = Turn::Rests;
                Answer::Interrupted(by)
            }
        }
    }
}

/// The place of the lowest bit that is set.
fn lowest(word: u64) -> u16
    requires some { word ≢ 0 }
    ensures small { result < 64 }
    ensures set { word / 2 ^ result % 2 ≡ 1 }
{
    word.trailing_zeros() as u16
}

/// The first seat that has a mark, which it has no more then.
fn take_mark(marks: &mut [u64]) -> Option<u16>
    requires { length marks.old ≤ 64 }
    ensures taken { IsMarkTaken marks.old result marks.new }
    ensures long { length marks.new ≡ length marks.old }
{
    for i in 0..marks.len() {
        if marks[i] != 0 {
            let bit = lowest(marks[i]);
            marks[i] &= !(1 << bit);
            return Some(64 * i as u16 + bit);
        }
    }
    None
}

/// Also wakes the first waiter, if there is one, and nobody else.
fn add_first(wake: &mut [u64], who: u16, first: Option<Entry>)
    requires seat { IfSome first (λ entry. entry.seat < 64 * length wake.old) }
    ensures marked { AreMarked wake.old (λ u. (option_map (λ (e : Entry). e.seat) first ≡ Some u) × (u ≢ who)) wake.new }
    ensures long { length wake.new ≡ length wake.old }
{
    if let Some(first) = first {
        mark(wake, who, first.seat(), true);
    }
}
