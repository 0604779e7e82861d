//! One event: whether it is possible, and then its effect.

use crate::event::{Answer, Event, NotPossible};
use crate::state::Core;

impl Core {
    ghost use Rattle.std.specs.Prelude.{◌≡◌, ◌↔◌, IsOk, IfOk, OnOk, OnErr};
    ghost use Rattle.ww_model.specs.Event.{Possible, after, answer};
    ghost use Rattle.ww_model.specs.Run.{Reached};
    ghost use Rattle.ww_model.specs.Snapshot.{state_of};

    /// One event, if it is possible: its effect and its answer. Whether it is, and what it does, stands in
    /// `docs/RULES.md`, under "Events". It takes no memory.
    pub fn step(&mut self, event: Event) -> Result<Answer, NotPossible>
        ensures possible { IsOk result ↔ Possible (state_of self.old) event }
        ensures answer { IfOk result (λ a. a ≡ answer (state_of self.old) event) }
        ensures state { OnOk result (state_of self.new ≡ after (state_of self.old) event) }
        ensures refused { OnErr result (self.new ≡ self.old) }
        ensures locks { (state_of self.new).locks ≡ (state_of self.old).locks }
        ensures seats { (state_of self.new).seats ≡ (state_of self.old).seats }
        ensures reached { OnOk result (Reached (state_of self.new)) }
    {
        match event {
            Event::Begin(seat) => self.begin(seat),
            Event::Clear(seat) => self.clear(seat),
            Event::Fast(seat, lock) => self.fast(seat, lock),
            Event::FastGive(seat, lock) => self.fast_give(seat, lock),
            Event::Guard(seat, lock) => self.guard(seat, lock),
            Event::Join(seat, lock) => self.join(seat, lock),
            Event::Sign(seat, victim) => self.sign(seat, victim),
            Event::Take(seat, lock) => self.take(seat, lock),
            Event::Ask(seat, lock) => self.ask(seat, lock),
            Event::Give(seat, lock) => self.give(seat, lock),
            Event::Die(seat, lock) => self.die(seat, lock),
            Event::Unguard(seat, lock) => self.unguard(seat, lock),
            Event::Commit(seat) => self.commit(seat),
            Event::End(seat) => self.end(seat),
            Event::Cancel(seat, victim) => self.cancel(seat, victim),
            Event::Heed(seat, lock) => self.heed(seat, lock),
            Event::Leave(seat, lock) => self.leave(seat, lock),
        }
    }
}
