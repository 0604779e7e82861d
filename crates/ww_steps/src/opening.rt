//! A world of locks is opened, and each of its desks is made when it is first asked for.

ghost use Rattle.std.specs.Prelude.{◌≡◌, ◌<◌, ◌+◌, ◌/◌, ◌^◌, length, map, replicate, slice_index_or, slice_set, Some, None, IfOk, IfErr, IsSome, OnErr};
ghost use Rattle.std.specs.Arc.{arc_value};
ghost use Rattle.ww_table.specs.Made.{IsTicket};
ghost use Rattle.ww_steps.specs.Opened.{fresh, locks_for, premises_of, HasMadeDesk, IsBareTable, IsOffice, IsNoDesk, IsOpened, IsOpenFault, IsWorldSize, Premises};

use crate::desk::Desk;
use crate::station::Station;
use crate::turn::Turn;
use std::alloc::{AllocError, Global};
use std::marker::Model;
use std::sync::Arc;
use ww_invariant::Page;
use ww_queue::Kind;
use ww_seat::Seat;
use ww_table::{Board, Ticket};
use ww_word::wide::MANY_SEATS;

/// How many locks a world has at most.
pub const MAX_LOCKS: u32 = 16_777_216;

/// How many contexts a desk may begin. Those of sixteen fit into the stamps that there are.
pub const MAX_CONTEXTS: u64 = (1 << 52) - 1;

/// Why a world was not opened.
#[derive(Clone, Copy, Debug, PartialEq, Eq)]
pub enum OpenFault {
    /// There would be no lock, or more than `MAX_LOCKS`.
    BadLocks,
    /// There would be no seat, or more than `MANY_SEATS`.
    BadSeats,
    /// A desk might begin more than `MAX_CONTEXTS` contexts.
    BadContexts,
    /// A growth was refused.
    NoMemory,
}

/// Why no desk was made.
#[derive(Clone, Copy, Debug, PartialEq, Eq)]
pub enum NoDesk {
    /// There is no seat of this number.
    NoSeat,
    /// The desk of this seat was made before.
    MadeBefore,
    /// A growth was refused. The desk may be asked for again.
    NoRoom,
}

/// A world of locks, whose desks are made one by one. Contracts see its table, its sizes, and which desks were made.
#[derive(Drop)]
pub struct Office {
    board: Arc<Board, Global>,
    kind: Kind,
    locks: u32,
    /// How many contexts a desk may begin.
    left: u64,
    /// The ticket of each seat, at the seat's number, until its desk is made.
    tickets: Vec<Option<Ticket>>,
    /// A desk of a world of its own. A new desk's box is had with this one in it, so that a ticket is used only if there is
    /// memory.
    blank: Option<Desk>,
}

impl Model for Office {
    ghost Value = { Premises };

    ghost view = { λ o. premises_of (arc_value o.board) o.locks o.left o.tickets.items };

    ghost invariant = { λ o. IsOffice (arc_value o.board) o.kind o.locks o.left o.tickets.items × IsSome o.blank };
}

impl Office {
    /// Opens a world of so many locks, from 1 to `MAX_LOCKS`, or of 65 if these are fewer, and of so many seats, from 1 to
    /// `MANY_SEATS`, each of which may begin so many contexts. The first of these numbers that is out of range is told. It
    /// takes time and memory by the number of locks, and a few bytes for each seat. The world goes with the office and the last
    /// of its desks.
    pub fn open(
        alloc: Global,
        kind: Kind,
        locks: u32,
        seats: u16,
        left: u64,
    ) -> Result<Office, OpenFault>
        ensures ok { IfOk result (IsOpened kind locks seats left) }
        ensures err { IfErr result (IsOpenFault locks seats left) }
    {
        if locks == 0 || locks > MAX_LOCKS {
            return Err(OpenFault::BadLocks);
        }
        if seats == 0 || seats > MANY_SEATS {
            return Err(OpenFault::BadSeats);
        }
        if left > MAX_CONTEXTS {
            return Err(OpenFault::BadContexts);
        }
        match lay(alloc, kind, locks, seats, left) {
            Ok(office) => Ok(office),
            Err(_) => Err(OpenFault::NoMemory),
        }
    }

    /// Makes the desk of the seat with this number. Its calls take no memory.
    pub fn desk(&mut self, alloc: Global, number: u16) -> Result<Box<Desk, Global>, NoDesk>
        ensures ok { IfOk result (λ desk. HasMadeDesk self.old number desk.value self.new) }
        ensures err { IfErr result (λ why. IsNoDesk self.old number why × (self.new ≡ self.old)) }
    {
        let at = usize::from(number);
        if at >= self.tickets.len() {
            return Err(NoDesk::NoSeat);
        }
        if self.tickets[at].is_none() {
            return Err(NoDesk::MadeBefore);
        }
        let Ok(means) = means_at(alloc, &self.board) else {
            return Err(NoDesk::NoRoom);
        };
        let Ok(mut desk) = room(alloc, &mut self.blank) else {
            return Err(NoDesk::NoRoom);
        };
        let Some(ticket) = taken(&mut self.tickets, at) else {
            unreachable!()
        };
        let seats = self.tickets.len() as u16;
        let made = first(
            alloc, self.kind, ticket, means, self.locks, seats, self.left,
        );
        self.blank = Some(Box::replace(&mut desk, made));
        Ok(desk)
    }
}

/// How many locks the world has: so many that the table packs their words.
fn packed_locks(locks: u32) -> u32
    ensures { result ≡ locks_for locks }
{
    if locks < 65 { 65 } else { locks }
}

/// Makes the table, none of whose locks guards a node, and its tickets.
fn lay(alloc: Global, kind: Kind, locks: u32, seats: u16, left: u64) -> Result<Office, AllocError>
    requires { IsWorldSize locks seats left }
    ensures { IfOk result (IsOpened kind locks seats left) }
{
    let blank = blank(alloc, kind)?;
    let locks = packed_locks(locks);
    let (board, tickets) = Board::make_bare(alloc, kind, locks, seats)?;
    let tickets = left_over(alloc, tickets)?;
    let board = Arc::new(alloc, board)?;
    Ok(Office {
        board,
        kind,
        locks,
        left,
        tickets,
        blank: Some(blank),
    })
}

/// Tickets of which none is used.
fn left_over(alloc: Global, tickets: Vec<Ticket>) -> Result<Vec<Option<Ticket>>, AllocError>
    ensures { IfOk result (λ all. all.items ≡ map Some tickets.items) }
{
    let mut all = Vec::with_capacity(alloc, tickets.len())?;
    for ticket in tickets {
        all.push(Some(ticket))?;
    }
    Ok(all)
}

/// Takes the ticket with this number.
fn taken(tickets: &mut Vec<Option<Ticket>>, at: usize) -> Option<Ticket>
    requires { at < length tickets.old.items }
    ensures taken { result ≡ slice_index_or tickets.old.items at None }
    ensures rest { tickets.new.items ≡ slice_set tickets.old.items at None }
{
    tickets[at].take()
}

/// A desk of a world of its own, for which nobody asks.
fn blank(alloc: Global, kind: Kind) -> Result<Desk, AllocError> {
    let (board, mut tickets) = Board::make_bare(alloc, kind, 65, 1)?;
    let Some(ticket) = tickets.pop() else {
        unreachable!()
    };
    let board = Arc::new(alloc, board)?;
    let means = means_at(alloc, &board)?;
    Ok(first(alloc, kind, ticket, means, 65, 1, 0))
}

/// Memory for a desk, with the blank one in it.
fn room(alloc: Global, blank: &mut Option<Desk>) -> Result<Box<Desk, Global>, AllocError>
    requires { IsSome blank.old }
    ensures { OnErr result (IsSome blank.new) }
{
    let Some(desk) = blank.take() else {
        unreachable!()
    };
    match Box::new(alloc, desk) {
        Ok(room) => Ok(room),
        Err(refused) => {
            *blank = Some(refused.value);
            Err(AllocError)
        }
    }
}

/// What a desk has beside its seat: so a ticket is used only once all of that is there.
#[derive(Drop)]
struct Means {
    board: Arc<Board, Global>,
    page: Page,
    wake: Vec<u64>,
    ghost wakes: { wake.items ≡ replicate (((arc_value board).table.shared.key.places + 63) / 64) 0 },
}

/// The means of one more desk at this board.
fn means_at(alloc: Global, board: &Arc<Board, Global>) -> Result<Means, AllocError>
    ensures { IfOk result (λ m. arc_value m.board ≡ arc_value board.now) }
{
    let wake = Vec::from_elem(alloc, 0, (usize::from(board.places()) + 63) / 64)?;
    let page = Page::new(alloc)?;
    let board = Arc::try_clone(board)?;
    Ok(Means { board, page, wake })
}

/// The desk of a ticket.
fn first(
    alloc: Global,
    kind: Kind,
    ticket: Ticket,
    means: Means,
    locks: u32,
    seats: u16,
    left: u64,
) -> Desk
    requires ticket { IsTicket (arc_value means.board).table.shared.table_id (arc_value means.board).table.shared.key ticket }
    requires kind { kind ≡ (arc_value means.board).table.shared.key.kind }
    requires table { IsBareTable (arc_value means.board) locks seats }
    requires left { left < 2 ^ 52 }
    ensures { result ≡ fresh (arc_value means.board).table.shared.table_id locks seats kind left ticket.who }
{
    let Means { board, page, wake } = means;
    let seat = Seat::new(ticket.into_stepper(alloc, &board, kind, page));
    let station = Station {
        board,
        seat,
        count: 0,
        locks,
        is_done: false,
        seats,
        told: None,
        turn: Turn::Rests,
        left,
        wake,
    };
    Desk { station }
}
