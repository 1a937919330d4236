// Laws of a frame whose type of service changes.
ghost use Rattle.packet_heads.specs.Laws.{DepartsAsItCame, TosAloneChanges};

/// A frame that is given another type of service, or traffic class, keeps its length, its flow but for it, and all other
/// bytes but the checksum of IPv4, whose sum with the first word of the header stays the same modulo 65,535. So does one that
/// departs.
pub fn tos_alone_changes()
    ensures retagged { TosAloneChanges }
    ensures departing { DepartsAsItCame }
{}
