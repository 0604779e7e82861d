//! Laws of the table: each function's contract is one. A step's own call cites the lemma that its law does.

ghost use Rattle.ww_table_laws.specs.Laws.{DrawIsBegin, SpentIsNoEvent, FewSeatsSpendNone, FewSeatsHaveNarrowWords, TakeFreeIsFast, GiveFreeIsFastGive, TakeBareIsFast, GiveBareIsFastGive, EndIsEnd, PlaceIsCommit, RuledIsLawful, ShownIsOne, StepsExtendTheRun, NewTableShowsStart, NewSeatsCanClose, WordsTellOwners, FreeWordsTell, WordsTellWhose, RuleTellsOwners, OwnersExclude};

/// From every table that the rule allows, a draw is the event Begin on what is shown.
pub fn draw_is_begin()
    ensures { DrawIsBegin }
{}

/// Where all stamps are spent, a draw is no event.
#[tactic(auto, using(ww_invariant::proofs::Moves::draw_stays))]
pub fn spent_is_no_event()
    ensures { SpentIsNoEvent }
{}

/// With 16 seats stamps are never spent.
pub fn few_seats_spend_none()
    ensures { FewSeatsSpendNone }
{}

/// With 16 seats the owner words are those of `ww_word::pack`.
pub fn few_seats_have_narrow_words()
    ensures { FewSeatsHaveNarrowWords }
{}

/// A try that wins is the event Fast.
pub fn take_free_is_fast()
    ensures { TakeFreeIsFast }
{}

/// Releasing a lock by one step is the event FastGive.
pub fn give_free_is_fast_give()
    ensures { GiveFreeIsFastGive }
{}

/// A try that wins a lock that guards no node is the event Fast.
pub fn take_bare_is_fast()
    ensures { TakeBareIsFast }
{}

/// Releasing such a lock by one step is the event FastGive.
pub fn give_bare_is_fast_give()
    ensures { GiveBareIsFastGive }
{}

/// By the word of a lock, a seat that is away knows whether it owns the lock.
#[tactic(auto, using(ww_invariant::proofs::Moves::told))]
pub fn words_tell_owners()
    ensures { WordsTellOwners }
{}

/// The word of a lock is 0 just where nobody has the lock or waits for it.
#[tactic(auto, using(crate::proofs::Freedom::free_words_tell))]
pub fn free_words_tell()
    ensures { FreeWordsTell }
{}

/// The word of a lock tells whose it is.
#[tactic(auto, using(crate::proofs::Freedom::words_tell_whose))]
pub fn words_tell_whose()
    ensures { WordsTellWhose }
{}

/// At each moment that the rule allows, the part of it holds on which mutual exclusion rests.
pub fn rule_tells_owners()
    ensures { RuleTellsOwners }
{}

/// At each moment one seat at most owns a lock, whether that guards a node or not.
pub fn owners_exclude()
    ensures { OwnersExclude }
{}

/// Finding the own sign 0 is the event End.
pub fn end_is_end()
    ensures { EndIsEnd }
{}

/// Taking a place is the event Commit.
pub fn place_is_commit()
    ensures { PlaceIsCommit }
{}

/// The core that the rule tells of a table, with the stamps of its views and the wait lists wherever they lie, is
/// lawful, and every cycle of waits there has a condemned member.
pub fn ruled_is_lawful()
    ensures { RuledIsLawful }
{}

/// A table tells one core, and one history: the words, the lists and nodes at home and the views determine them.
pub fn shown_is_one()
    ensures { ShownIsOne }
{}

/// A step that is an event leads from that core to the core after the event, whatever state the rule finds there.
pub fn steps_extend_the_run()
    ensures { StepsExtendTheRun }
{}

/// Of a table made just now that core is the start, and nothing was committed.
pub fn new_table_shows_start()
    ensures { NewTableShowsStart }
{}

/// Seats that did nothing yet can be handed in to close the table.
pub fn new_seats_can_close()
    ensures { NewSeatsCanClose }
{}
