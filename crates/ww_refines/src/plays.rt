//! The plays of seats at the table, as moves of a run.
ghost use Rattle.ww_refines.specs.Naps.{NapsAreLast, ReadsAreMoves};
ghost use Rattle.ww_refines.specs.Plays.{PlaysAreMoves};
ghost use Rattle.ww_refines.specs.Told.{StepsArePlays};

/// Each step that a seat makes at the table, while it acts, is a move of a run: an event, a look that finds no sign or
/// no cancel, an exit in order to sleep, or no step of the scene.
pub fn plays_are_moves()
    ensures { PlaysAreMoves }
{}

/// Each step that `ww_table` makes is such a play, whatever the step tells its caller, and this step of the scene.
pub fn steps_are_plays()
    ensures { StepsArePlays }
{}

/// While a seat's count of exits in order to sleep stays, it makes none; and until that is one more and the seat waits
/// outside, it makes one, and after that no event.
pub fn naps_are_last()
    ensures { NapsAreLast }
{}

/// Each play that is no event, of a seat that left a guard as a waiter and is about to fall asleep, is a move too.
pub fn reads_are_moves()
    ensures { ReadsAreMoves }
{}
