//! What each step lets its caller know: the definitions are in `specs/Steps.antt`.
use crate::cells::{Cell, Sight};
use atomic_table::{Join, Play, Split};
use std::marker::{Brand, PhantomData};
use ww_plain::Record;

pub struct Draw;

impl Play<Cell, Sight> for Draw {
    ghost use Rattle.ww_invariant.specs.Steps.{draws_to};

    ghost then = { draws_to };
}

pub struct TakeFree;

impl Play<Cell, Sight> for TakeFree {
    ghost use Rattle.ww_invariant.specs.Steps.{takes_to};

    ghost then = { takes_to };
}

pub struct GiveFree;

impl Play<Cell, Sight> for GiveFree {
    ghost use Rattle.ww_invariant.specs.Steps.{gives_to};

    ghost then = { gives_to };
}

/// Of a lock that guards no node.
pub struct TakeBare;

impl Play<Cell, Sight> for TakeBare {
    ghost use Rattle.ww_invariant.specs.Steps.{takes_bare_to};

    ghost then = { takes_bare_to };
}

/// Of a lock that guards no node.
pub struct GiveBare;

impl Play<Cell, Sight> for GiveBare {
    ghost use Rattle.ww_invariant.specs.Steps.{gives_bare_to};

    ghost then = { gives_bare_to };
}

/// A look from outside whether the seat owns a lock.
pub struct Owns;

impl Play<Cell, Sight> for Owns {
    ghost use Rattle.ww_invariant.specs.Steps.{owns_to};

    ghost then = { owns_to };
}

/// A look whose a lock is.
pub struct Whose;

impl Play<Cell, Sight> for Whose {
    ghost use Rattle.ww_invariant.specs.Steps.{whose_to};

    ghost then = { whose_to };
}

pub struct End;

impl Play<Cell, Sight> for End {
    ghost use Rattle.ww_invariant.specs.Steps.{ends_to};

    ghost then = { ends_to };
}

/// The type parameter W of a commit, which names its record, since a step is given only numbers.
pub trait NamesRecord {
    ghost use Rattle.std.specs.Prelude.{Option};
    ghost use Rattle.ww_plain.specs.declared.history.Record.{Record};

    ghost about: { Option Record };
}

impl NamesRecord for Brand {
    ghost use Rattle.std.specs.Prelude.{None};

    ghost about = { None };
}

pub struct Commit<W> {
    said: PhantomData<W>,
}

impl<W: NamesRecord> Play<Cell, Sight> for Commit<W> {
    ghost use Rattle.ww_invariant.specs.Steps.{places_to};

    ghost then = { places_to W.about };
}

/// Cuts off the first idle number, and takes another seat in.
pub struct Seats;

impl Split<Sight> for Seats {
    ghost use Rattle.std.specs.Prelude.{length};
    ghost use Rattle.ww_invariant.specs.Steps.{without_first, first_seat};

    ghost left = { without_first };

    ghost right = { λ v. first_seat (length v.held) v.idle };
}

impl Join<Sight> for Seats {
    ghost use Rattle.ww_invariant.specs.Steps.{with_seat, nobody};

    ghost both = { with_seat };

    ghost spent = { nobody };
}
