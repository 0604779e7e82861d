//! What the steps at guards, inside them, on signs and on cancels let their caller know: the definitions are in
//! `specs/Guards.antt`, `specs/Waiting.antt`, `specs/Signs.antt` and `specs/Cancels.antt`.
use crate::cells::{Cell, Sight};
use atomic_table::Play;

pub struct Enter;

impl Play<Cell, Sight> for Enter {
    ghost use Rattle.ww_invariant.specs.Guards.{enters_to};

    ghost then = { enters_to };
}

pub struct Exit;

impl Play<Cell, Sight> for Exit {
    ghost use Rattle.ww_invariant.specs.Guards.{exits_to};

    ghost then = { exits_to };
}

pub struct Look;

impl Play<Cell, Sight> for Look {
    ghost use Rattle.ww_invariant.specs.Guards.{looks_to};

    ghost then = { looks_to };
}

/// It is made outside.
pub struct Glance;

impl Play<Cell, Sight> for Glance {
    ghost use Rattle.ww_invariant.specs.Guards.{glances_to};

    ghost then = { glances_to };
}

/// It is made outside, of the stamp word.
pub struct Count;

impl Play<Cell, Sight> for Count {
    ghost use Rattle.ww_invariant.specs.Guards.{counts_to};

    ghost then = { counts_to };
}

pub struct Join;

impl Play<Cell, Sight> for Join {
    ghost use Rattle.ww_invariant.specs.Waiting.{tries_to, joins};

    ghost then = { tries_to joins };
}

pub struct Take;

impl Play<Cell, Sight> for Take {
    ghost use Rattle.ww_invariant.specs.Waiting.{tries_to, takes_inside};

    ghost then = { tries_to takes_inside };
}

/// Of a lock that guards no node.
pub struct TakeBareInside;

impl Play<Cell, Sight> for TakeBareInside {
    ghost use Rattle.ww_invariant.specs.Waiting.{tries_to, takes_bare_inside};

    ghost then = { tries_to takes_bare_inside };
}

/// Of a lock that guards no node.
pub struct GiveBareInside;

impl Play<Cell, Sight> for GiveBareInside {
    ghost use Rattle.ww_invariant.specs.Waiting.{tries_to, gives_bare_inside};

    ghost then = { tries_to gives_bare_inside };
}

pub struct Give;

impl Play<Cell, Sight> for Give {
    ghost use Rattle.ww_invariant.specs.Waiting.{tries_to, gives_inside};

    ghost then = { tries_to gives_inside };
}

pub struct Ask;

impl Play<Cell, Sight> for Ask {
    ghost use Rattle.ww_invariant.specs.Waiting.{tries_to, asks};

    ghost then = { tries_to asks };
}

pub struct Die;

impl Play<Cell, Sight> for Die {
    ghost use Rattle.ww_invariant.specs.Waiting.{dies_to};

    ghost then = { dies_to };
}

pub struct Sign;

impl Play<Cell, Sight> for Sign {
    ghost use Rattle.ww_invariant.specs.Signs.{signs_to};

    ghost then = { signs_to };
}

pub struct OwnSign;

impl Play<Cell, Sight> for OwnSign {
    ghost use Rattle.ww_invariant.specs.Signs.{reads_to};

    ghost then = { reads_to };
}

pub struct Clear;

impl Play<Cell, Sight> for Clear {
    ghost use Rattle.ww_invariant.specs.Signs.{clears_to};

    ghost then = { clears_to };
}

pub struct SetCancel;

impl Play<Cell, Sight> for SetCancel {
    ghost use Rattle.ww_invariant.specs.Cancels.{cancels_to};

    ghost then = { cancels_to };
}

pub struct Heed;

impl Play<Cell, Sight> for Heed {
    ghost use Rattle.ww_invariant.specs.Cancels.{heeds_to};

    ghost then = { heeds_to };
}

pub struct Leave;

impl Play<Cell, Sight> for Leave {
    ghost use Rattle.ww_invariant.specs.Cancels.{leaves_to};

    ghost then = { leaves_to };
}
