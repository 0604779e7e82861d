//! Laws of owner words: each function's contract is one.

ghost use Rattle.std.specs.Prelude.{◌≡◌, ◌+◌, ◌^◌};
ghost use Rattle.ww_word.specs.AnyLaws.{AnyPackingFits, AnyPackingIsInjective, FewSeatsKeepTheirWords, WordsTellHolders};
ghost use Rattle.ww_word.specs.Laws.{PackingFits, PackingIsInjective, UnpackingIsInverse, ReadingIsUnique, WaitersAddOne, HandingIsSeatAndStamp, HandingTellsPickup, ZeroIsIdle};

use crate::owner::{HANDOFF, MAX_SEATS, MAX_STAMP, PICKUP, WAITERS};

/// There are 16 seats, and a stamp has 56 bits.
pub fn limits()
    ensures seats { MAX_SEATS ≡ 16 }
    ensures stamp { MAX_STAMP + 1 ≡ 2 ^ 56 }
{}

/// The numbers of the flags.
pub fn flag_numbers()
    ensures waiters { WAITERS ≡ 1 }
    ensures handoff { HANDOFF ≡ 2 }
    ensures pickup { PICKUP ≡ 4 }
{}

/// A valid owner packs to 64 bits.
#[tactic(auto, using(crate::proofs::Words::packing_fits))]
pub fn packing_fits()
    ensures { PackingFits }
{}

/// No two valid owners pack to one word.
#[tactic(auto, using(crate::proofs::Words::packing_is_injective))]
pub fn packing_is_injective()
    ensures { PackingIsInjective }
{}

/// What a valid owner packs to is read as that owner, and what is read packs to its word again.
#[tactic(auto, using(crate::proofs::Words::unpacking_is_inverse))]
pub fn unpacking_is_inverse()
    ensures { UnpackingIsInverse }
{}

/// A word is read in one way only.
pub fn reading_is_unique()
    ensures { ReadingIsUnique }
{}

/// Waiters add one to a word that has no flag, and leave the others.
#[tactic(auto, using(crate::proofs::Words::waiters_add_one))]
pub fn waiters_add_one()
    ensures { WaitersAddOne }
{}

/// Handing over makes the word of that seat and stamp with the flags of waiters and of a pickup.
pub fn handing_is_seat_and_stamp()
    ensures { HandingIsSeatAndStamp }
{}

/// The flags of a valid owner say that the lock was handed over iff they are those of waiters and of a pickup.
#[tactic(auto, using(crate::proofs::Words::handing_tells_pickup))]
pub fn handing_tells_pickup()
    ensures { HandingTellsPickup }
{}

/// The word 0 is the free lock with an empty wait list, and no other owner's.
#[tactic(auto, using(crate::proofs::Words::zero_is_idle))]
pub fn zero_is_idle()
    ensures { ZeroIsIdle }
{}

/// A valid owner of a table with any number of seats packs to 64 bits.
#[tactic(auto, using(crate::proofs::AnyWords::any_packing_fits))]
pub fn any_packing_fits()
    ensures { AnyPackingFits }
{}

/// No two valid owners of such a table pack to one word.
#[tactic(auto, using(crate::proofs::AnyWords::packing_is_injective))]
pub fn any_packing_is_injective()
    ensures { AnyPackingIsInjective }
{}

/// Seats below 16 have the same words in a table of more seats.
#[tactic(auto, using(crate::proofs::AnyWords::few_seats_keep_their_words))]
pub fn few_seats_keep_their_words()
    ensures { FewSeatsKeepTheirWords }
{}

/// Two words are of the same holder iff they differ at most in their flags.
pub fn words_tell_holders()
    ensures { WordsTellHolders }
{}
