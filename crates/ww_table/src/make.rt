//! A table is made, and cut into its seats.

ghost use Rattle.std.specs.Prelude.{◌≡◌, ◌<◌, ◌≤◌, [], length, IfOk, IfErr, vec_len, vec_capacity};
ghost use Rattle.ww_plain.specs.Graph.{IsGraph};
ghost use Rattle.ww_invariant.specs.Rule.{nodes_of, IsSize, places_for};
ghost use Rattle.ww_table.specs.Made.{AreNew, AreTickets, HasDoneNothing, IsLaid, IsMade, IsTicket, MayCut};
ghost use Rattle.ww_table.specs.Seat.{IsNew, stamp_step};

use crate::board::Board;
use crate::seat::{Seat16, Stepper, own_word};
use arrayvec::ArrayVec;
use atomic_table::Table;
use std::alloc::{AllocError, Global};
use std::snapshot::Snapshot;
use ww_invariant::homes::slots;
use ww_invariant::layout::{sign_word, words};
use ww_invariant::plays::Seats;
use ww_invariant::{Page, Start, TableSeat, Top};
use ww_plain::{Graph, Node};
use ww_queue::Kind;
use ww_word::wide::most_stamp;

/// What a seat of a board is before it has memory of its own: its token at the table, and its number.
#[derive(Drop)]
pub struct Ticket {
    pub(crate) seat: TableSeat,
    pub(crate) who: u16,
}

impl Ticket {
    /// The seat, which has done nothing yet, with its page.
    pub fn into_stepper(self, alloc: Global, board: &Board, kind: Kind, page: Page) -> Stepper
        requires ticket { IsTicket board.now.table.shared.table_id board.now.table.shared.key self }
        requires kind { kind ≡ board.now.table.shared.key.kind }
        ensures { IsNew board.now.table.shared.table_id board.now.table.shared.key self.who result }
    {
        let Ticket { seat, who } = self;
        seated(alloc, kind, seat, who, (board.locks, board.places), page)
    }
}

impl Board {
    /// A table of so many locks of this kind, the first of them for the nodes of a graph, and so many seats; seat k has the number k. Where a
    /// growth is refused the graph comes back.
    pub fn make(
        alloc: Global,
        kind: Kind,
        graph: Graph,
        locks: u32,
        seats: u16,
    ) -> Result<(Board, Vec<Seat16>), (Graph, AllocError)>
        requires locks { (length graph ≤ locks) × (locks ≤ 64) }
        requires seats { (1 ≤ seats) × (seats < 4096) }
        ensures ok { IfOk result (λ r. IsMade kind graph locks seats r.0 r.1.items) }
        ensures err { IfErr result (λ e. e.0 ≡ graph) }
    {
        match seat_all(alloc, kind, &graph, locks, seats) {
            Ok(made) => Ok(made),
            Err(error) => Err((graph, error)),
        }
    }

    /// A table with this many locks, of which none guards a node, and a ticket for each of its seats.
    pub fn make_bare(
        alloc: Global,
        kind: Kind,
        locks: u32,
        seats: u16,
    ) -> Result<(Board, Vec<Ticket>), AllocError>
        requires locks { locks ≤ 16777216 }
        requires seats { (1 ≤ seats) × (seats < 4096) }
        ensures { IfOk result (λ r. IsLaid kind [] locks seats r.0 r.1.items) }
    {
        let node = Node {
            value: 0,
            ports: [None; 8],
        };
        let Ok(graph) = Graph::new(Vec::from_elem(alloc, node, 1)?) else {
            return Err(AllocError);
        };
        lay(alloc, kind, &graph, true, locks, seats)
    }
}

/// How many seats the core has.
fn places(seats: u16) -> u16
    ensures { result ≡ places_for seats }
{
    if seats > 16 { seats } else { 16 }
}

/// Makes the table, and a seat of each ticket.
fn seat_all(
    alloc: Global,
    kind: Kind,
    graph: &Graph,
    locks: u32,
    seats: u16,
) -> Result<(Board, Vec<Stepper>), AllocError>
    requires locks { (length graph.now ≤ locks) × (locks ≤ 64) }
    requires seats { (1 ≤ seats) × (seats < 4096) }
    ensures { IfOk result (λ r. IsMade kind graph.now locks seats r.0 r.1.items) }
{
    let room = Vec::with_capacity(alloc, usize::from(seats))?;
    let (board, tickets) = lay(alloc, kind, graph, false, locks, seats)?;
    let made = seated_all(alloc, &board, kind, tickets, room)?;
    Ok((board, made))
}

/// A seat of each ticket, with its page.
fn seated_all(
    alloc: Global,
    board: &Board,
    kind: Kind,
    tickets: Vec<Ticket>,
    mut made: Vec<Stepper>,
) -> Result<Vec<Stepper>, AllocError>
    requires tickets { AreTickets board.now.table.shared.table_id board.now.table.shared.key (length tickets.items) tickets.items }
    requires kind { kind ≡ board.now.table.shared.key.kind }
    requires room { (made.items ≡ []) × (vec_len made ≡ 0) × (length tickets.items ≤ vec_capacity made) }
    ensures { IfOk result (λ made. AreNew board.now.table.shared.table_id board.now.table.shared.key (length tickets.items) made.items) }
{
    for ticket in tickets {
        let page = Page::new(alloc)?;
        made.push_reserved(ticket.into_stepper(alloc, board, kind, page));
    }
    Ok(made)
}

/// Makes the table, and cuts off a ticket for each seat.
fn lay(
    alloc: Global,
    kind: Kind,
    graph: &Graph,
    bare: bool,
    locks: u32,
    seats: u16,
) -> Result<(Board, Vec<Ticket>), AllocError>
    requires locks { (length (nodes_of bare graph.now) ≤ locks) × (locks ≤ 16777216) }
    requires spread { 0 < length (nodes_of bare graph.now) → locks ≤ 64 }
    requires seats { (1 ≤ seats) × (seats < 4096) }
    ensures { IfOk result (λ r. IsLaid kind (nodes_of bare graph.now) locks seats r.0 r.1.items) }
{
    let size = size_of(graph, bare);
    let places = places(seats);
    let room = Vec::with_capacity(alloc, usize::from(seats))?;
    let slots = slots(alloc, graph, bare, locks)?;
    let zeros = Vec::from_elem(alloc, 0, words(locks, places))?;
    let about = Start {
        kind,
        locks,
        seats,
        places,
        nodes: Snapshot::of(graph),
        bare,
    };
    match Table::new(alloc, &zeros, slots, &about) {
        Ok((table, first)) => {
            let board = Board {
                table,
                size,
                locks,
                places,
            };
            let tickets = cut(&board.table.shared, first, seats, room);
            Ok((board, tickets))
        }
        Err(_) => Err(AllocError),
    }
}

/// How many nodes a table has.
fn size_of(graph: &Graph, bare: bool) -> u8
    ensures size { result ≡ length (nodes_of bare graph.now) }
    ensures graph { IsGraph graph.now }
{
    let size = graph.size();
    if bare {
        return 0;
    }
    size
}

/// Splits off a token for each number except the last, which the first token keeps.
fn cut(shared: &Top, mut first: TableSeat, seats: u16, mut tickets: Vec<Ticket>) -> Vec<Ticket>
    requires may { MayCut shared.now.table_id shared.now.key seats first }
    requires room { (tickets.items ≡ []) × (vec_len tickets ≡ 0) × (seats ≤ vec_capacity tickets) }
    ensures { AreTickets shared.now.table_id shared.now.key seats result.items }
{
    for who in 0..seats - 1 {
        let seat = shared.split_seat::<Seats>(&mut first);
        tickets.push_reserved(Ticket { seat, who });
    }
    tickets.push_reserved(Ticket {
        seat: first,
        who: seats - 1,
    });
    tickets
}

/// How much the owner word of a lock that it has taken grows with its stamp.
fn step(who: u16) -> u64
    ensures { result ≡ stamp_step who }
{
    if who < 16 { 256 } else { 32768 }
}

/// A seat that did nothing yet.
fn seated(
    alloc: Global,
    kind: Kind,
    seat: TableSeat,
    who: u16,
    sizes: (u32, u16),
    page: Page,
) -> Stepper
    requires { (who < sizes.1) × IsSize sizes.1 }
    ensures { HasDoneNothing seat kind who sizes.0 sizes.1 result }
{
    Stepper {
        seat,
        kind,
        who,
        room: sizes.0,
        seats: sizes.1,
        most: most_stamp(sizes.1),
        sign: sign_word(sizes.0, who),
        stamp: 0,
        base: own_word(who, 0),
        step: step(who),
        own: own_word(who, 0),
        order: ArrayVec::new(),
        records: Vec::new(alloc),
        page: Some(page),
    }
}
