//! Laws of the steps at guards, inside them, on signs and on cancels: each function's contract is one. A step's own
//! call cites the lemma that its law does.

ghost use Rattle.ww_table_laws.specs.InsideLaws.{EnterIsGuard, ExitIsUnguard, JoinIsJoin, TakeIsTake, GiveIsGive, TakeBareInsideIsTake, GiveBareInsideIsGive, AskIsAsk, DieIsDie, SignIsSign, ClearIsClear, CancelIsCancel, HeedIsHeed, LeaveIsLeave};

/// Going inside a guard is the event Guard.
pub fn enter_is_guard()
    ensures { EnterIsGuard }
{}

/// Leaving a guard is the event Unguard.
pub fn exit_is_unguard()
    ensures { ExitIsUnguard }
{}

/// Standing in a wait list is the event Join.
pub fn join_is_join()
    ensures { JoinIsJoin }
{}

/// Taking a lock inside its guard is the event Take.
pub fn take_is_take()
    ensures { TakeIsTake }
{}

/// Releasing a lock inside its guard is the event Give.
pub fn give_is_give()
    ensures { GiveIsGive }
{}

/// Taking a lock inside its guard that guards no node is the event Take.
pub fn take_bare_inside_is_take()
    ensures { TakeBareInsideIsTake }
{}

/// Releasing such a lock inside its guard is the event Give.
pub fn give_bare_inside_is_give()
    ensures { GiveBareInsideIsGive }
{}

/// Asking for a lock is the event Ask.
pub fn ask_is_ask()
    ensures { AskIsAsk }
{}

/// Backing off is the event Die.
pub fn die_is_die()
    ensures { DieIsDie }
{}

/// Condemning a seat is the event Sign.
pub fn sign_is_sign()
    ensures { SignIsSign }
{}

/// Taking the own sign back is the event Clear.
pub fn clear_is_clear()
    ensures { ClearIsClear }
{}

/// Setting the cancel of a seat is the event Cancel.
pub fn cancel_is_cancel()
    ensures { CancelIsCancel }
{}

/// Finding the own cancel, where one is pending, is the event Heed.
pub fn heed_is_heed()
    ensures { HeedIsHeed }
{}

/// Leaving the wait list for a cancel that was heeded is the event Leave, whose answer is the seat that the view names.
pub fn leave_is_leave()
    ensures { LeaveIsLeave }
{}
