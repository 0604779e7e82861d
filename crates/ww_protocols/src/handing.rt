//! What is written under a lock is read under it, whatever the lock is; and under a shared one, by its protocol.
ghost use Rattle.ww_protocols.specs.Data.{AccessesDoNotRace, ReadsGetTheLastWrite};
ghost use Rattle.ww_protocols.specs.SharedData.{SharedAccessesDoNotRace, MarksAreStoredInOrder, ReadersGetTheLastWrite, ReadsStayTheSame, SharedDataIsHandedOver, SharedDataNeedsEachLook};
ghost use Rattle.ww_protocols.specs.StaleReads.{OnlyItsLockHandsOver, OnlyTheseHandOver};

/// Where each access to a place is made by the owner of the place's lock, of any two one happens before the other.
pub fn accesses_do_not_race()
    ensures { AccessesDoNotRace }
{}

/// There each read is of the last write, if memory gives each read a write that is visible to it.
pub fn reads_get_the_last_write()
    ensures { ReadsGetTheLastWrite }
{}

/// What one wrote another may not see yet, if it hasn't taken the very lock that the first released after that.
pub fn only_its_lock_hands_over()
    ensures { OnlyItsLockHandsOver }
{}

/// By the protocol of shared locks, of a write and another access to its place one happens before the other.
pub fn shared_accesses_do_not_race()
    ensures { SharedAccessesDoNotRace }
{}

/// Whoever stores a mark at a desk has the desk, which passed on to it from whoever stored one there before.
pub fn marks_are_stored_in_order()
    ensures { MarksAreStoredInOrder }
{}

/// There each read is of the last write.
pub fn readers_get_the_last_write()
    ensures { ReadersGetTheLastWrite }
{}

/// While a context reads a mutex, and writes nothing itself, all reads of a place of that mutex have one value.
pub fn reads_stay_the_same()
    ensures { ReadsStayTheSame }
{}

/// In one run a context writes, another comes to read what that wrote, and then both read it at once.
pub fn shared_data_is_handed_over()
    ensures { SharedDataIsHandedOver }
{}

/// Where any one look is left out a read may be of an older write, though everything else is kept.
pub fn shared_data_needs_each_look()
    ensures { SharedDataNeedsEachLook }
{}

/// What one wrote another may not see yet, but where a mutex, a desk or a mark passed from a move of the one to a later move of the other.
pub fn only_these_hand_over()
    ensures { OnlyTheseHandOver }
{}
