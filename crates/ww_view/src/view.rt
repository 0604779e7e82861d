//! The view of a seat: what it knows of the locks while other seats act. No value of it is made; contracts speak of it.
use std::collections::LinkedList;
use ww_queue::{Kind, Queue};
use ww_word::Owner;

/// What a seat met at its death: for which older context it backed off from which lock, and what it saw there.
pub struct Met {
    pub lock: u32,
    /// The stamp of the older context.
    pub stamp: u64,
    /// The owner word of the lock.
    pub owner: Owner,
    /// Its wait list, before the seat left it.
    pub list: Queue,
}

/// What a seat at the table knows.
pub struct View {
    pub kind: Kind,
    pub who: u16,
    /// How many locks the table has, and how many seats the core.
    pub room: u32,
    pub seats: u16,
    pub stamp: u64,
    /// Of each lock of the table, whether it owns it.
    pub owned: LinkedList<bool>,
    /// 0, or 1 more than the lock whose guard it is inside of.
    pub inside: u32,
    /// The wait list of that lock.
    pub list: Queue,
    /// 0, or 1 more than the lock in whose list it stands.
    pub waits: u32,
    /// The owner word of the lock that it is inside of, as it last read or wrote it there.
    pub seen: Option<Owner>,
    /// The seats that it found or made signed there, since it last changed the list or the owner.
    pub signed: LinkedList<u16>,
    /// Its own sign, where it is known.
    pub sign: Option<u64>,
    /// It stood in the list as it went inside.
    pub later: bool,
    /// It stands in the list, took the lock or gave it, since it went inside.
    pub acted: bool,
    /// Its last step inside was to read its own sign. It says nothing of a seat that is outside.
    pub fresh: bool,
    /// It has read its own cancel since it last went inside a guard, and found none.
    pub uncancelled: bool,
    /// How often it tried to take a lock by one step.
    pub tries: u64,
    /// How many spin reads it made since it last tried to take a lock by one step.
    pub glances: u64,
    /// How often it made a spin read at all.
    pub all_glances: u64,
    /// How often it took a lock, by one step or inside its guard.
    pub takes: u64,
    /// How often it backed off.
    pub deaths: u64,
    /// How often it tried to release a lock by one step, and kept it.
    pub kept: u64,
    /// The seats that its own signs condemned since it last went inside a guard.
    pub condemned: LinkedList<u16>,
    /// Once it has backed off: what it met, and where; until it takes a lock, releases one or is interrupted, or its
    /// context begins or ends. No other step sets it.
    pub met: Option<Met>,
    /// 0, or 1 more than the seat whose cancel it has heeded: a waiter inside the guard, which has not left the list
    /// for it yet.
    pub heeded: u16,
    /// How often it was interrupted, the last time first: the lock whose wait list it left, and the seat whose cancel
    /// it had heeded. No other step changes it.
    pub stopped: LinkedList<(u32, u16)>,
    /// How often it tried to set the cancel of a seat, and found one pending.
    pub pendings: u64,
    /// How often it tried to go inside a guard, or read an owner word inside of one.
    pub attempts: u64,
    /// The seat that was the first waiter, if somebody waited, as it last released a lock inside its guard.
    pub heir: Option<u16>,
    /// The seats that its steps obliged it to wake, the last one first. It only grows, and doesn't say who has been woken:
    /// each seat but itself that its own sign condemned, once for all such signs inside one guard; and who was the first
    /// waiter, each time that it released a lock inside its guard.
    pub debts: LinkedList<u16>,
    /// How often it left a guard as a waiter: each time it has to sleep until it is woken.
    pub naps: u64,
    /// How often it did so without having read its own cancel inside that guard, and found none.
    pub deaf: u64,
    /// The locks that it owns, in the order in which it took them.
    pub locks: LinkedList<u32>,
    /// How often it looked whose a lock is, the last time first: which lock, and which number it found in its owner word.
    /// No other step changes it.
    pub words_seen: LinkedList<(u32, u64)>,
}
