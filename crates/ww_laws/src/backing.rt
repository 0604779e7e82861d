//! Backing off ends.
ghost use Rattle.ww_laws.specs.Backing.{BackingOffEnds, ContextsAreOver};

/// In both kinds a context backs off finitely often, if each older one is over in the end.
pub fn backing_off_ends()
    ensures { BackingOffEnds }
{}

/// In Wait-Die each context is over in the end: if programs come to an end, and each seat that dies takes the contended
/// lock first.
pub fn contexts_are_over()
    ensures { ContextsAreOver }
{}
