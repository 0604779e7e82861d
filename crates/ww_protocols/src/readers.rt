//! Whom a reader and a writer exclude, by the protocol of shared locks.
ghost use Rattle.ww_protocols.specs.Invariant.{ReachedHallsAreOrderly};
ghost use Rattle.ww_protocols.specs.Readers.{WritersExcludeReaders, WritersExcludeWriters, ReadersAreInSight, ReadersAndWritersCome, EachLookIsNeeded};
ghost use Rattle.ww_protocols.specs.Ways.{SittersCanRead, OwnersCanWrite};

/// Whatever contexts do by the protocol, in whatever order, each hall is orderly: its invariant.
pub fn reached_halls_are_orderly()
    ensures { ReachedHallsAreOrderly }
{}

/// Who writes a mutex is the only one who reads it, if anybody does.
pub fn writers_exclude_readers()
    ensures { WritersExcludeReaders }
{}

/// It is the only one who writes it, as writers know it by themselves.
pub fn writers_exclude_writers()
    ensures { WritersExcludeWriters }
{}

/// A reader has its bit, its mark and its desk: so a writer finds it, and waits for it by waiting for a lock that it owns.
pub fn readers_are_in_sight()
    ensures { ReadersAreInSight }
{}

/// Moves lead to where two contexts read one mutex, and to where one of them has upgraded, and writes it.
pub fn readers_and_writers_come()
    ensures { ReadersAndWritersCome }
{}

/// Without any one of a reader's three looks, or of a writer's at the marks, moves lead to a writer beside a reader; and to
/// two writers where a mutex is taken from its owner.
pub fn each_look_is_needed()
    ensures { EachLookIsNeeded }
{}

/// A context at its desk comes to read a mutex that nobody has, by moves of its own, and whoever reads reads on.
pub fn sitters_can_read()
    ensures { SittersCanRead }
{}

/// The owner of a mutex comes to write it, by moves of its own, where nobody has any desk but its own.
pub fn owners_can_write()
    ensures { OwnersCanWrite }
{}
