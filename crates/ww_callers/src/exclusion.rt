//! No two passes of a world hold one node, and no two desks one lock.

ghost use Rattle.ww_callers.specs.Exclusion.{PassesExclude, DesksExclude};

/// At each moment one pass of a world at most holds a node, in a context or without one.
pub fn passes_exclude()
    ensures { PassesExclude }
{}

/// At each moment at most one desk of a world holds a lock, between two calls or during one.
pub fn desks_exclude()
    ensures { DesksExclude }
{}
