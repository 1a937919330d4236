//! Laws of the class of a flow.
ghost use Rattle.flow_filter.specs.Laws.{ClassIsThere, ControlTakesItsProtocols, DefaultTakesTheRest, OneWinsOrNoneMatches, WinnerTakesIt};

/// A flow goes to the class of the matching filter of the greatest rule number, and of several with that number the first.
/// Where no filter matches, it goes to the default class. One of the two is so.
pub fn greatest_rule_wins()
    ensures winner { WinnerTakesIt }
    ensures otherwise { DefaultTakesTheRest }
    ensures either { OneWinsOrNoneMatches }
{}

/// The filters that a class with `control` adds match, of all frames, exactly those of ICMP, IGMP and RSVP over IPv4 and of
/// ICMP over IPv6.
pub fn control_takes_its_protocols()
    ensures { ControlTakesItsProtocols }
{}

/// The class of a flow is one of the interface's classes, if it has any and those of its filters are.
pub fn class_is_there()
    ensures { ClassIsThere }
{}
