//! The theorems of seats speak of something, and need their rules.
ghost use Rattle.ww_protocols.specs.Witness.{SuchAreReached, EachRuleMatters, RestMatters};

/// A class is reached in which one uses a seat that is another's own; and one at rest in which a task waits beside a
/// seat that is free, for which another was called; and one in which who was called doesn't come, and another got its seat.
pub fn such_are_reached()
    ensures { SuchAreReached }
{}

/// For each rule that a protocol may leave out it comes to two users of one seat, or to a seat that is lost.
pub fn each_rule_matters()
    ensures { EachRuleMatters }
{}

/// During a call a seat may be free beside a task that waits, and nobody called for it yet: while one looks, or has yet to offer it.
pub fn rest_matters()
    ensures { RestMatters }
{}
