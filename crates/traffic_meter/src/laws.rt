// Laws of meters. The functions do nothing: each states its laws.
ghost use Rattle.std.specs.Prelude.{◌++◌, ◌∷◌, List};
ghost use Rattle.traffic_meter.specs.declared.rule.MeterRule.{MeterRule};
ghost use Rattle.traffic_meter.specs.Conforming.{GreenConforms, GreenWhereConforming, PassedConforms, RedChangesNone};
ghost use Rattle.traffic_meter.specs.History.{Metered, ArrivalsAreInOrder};

/// What a meter colours green keeps to the committed rate and burst, over each stretch of packets: from packet i to packet k, both
/// counted, the units of the green ones are at most `cir` times the nanoseconds between the two, and the units of `cbs`. Green and
/// yellow ones together keep to `cir` and both bursts; with two rates, to `pir` and `pbs`.
pub fn coloured_packets_conform()
    ensures green { (rule : MeterRule) (s older : List Metered) → ArrivalsAreInOrder (s ++ older) → GreenConforms rule s older }
    ensures passed { (rule : MeterRule) (s older : List Metered) → ArrivalsAreInOrder (s ++ older) → PassedConforms rule s older }
{}

/// A red packet changes no other packet's colour: without it each of the newer ones has the colour that it has with it.
pub fn red_packets_change_no_other_colour()
    ensures { (rule : MeterRule) (newer : List Metered) (a : Metered) (older : List Metered) → ArrivalsAreInOrder (newer ++ a ∷ older)
        → RedChangesNone rule newer a older }
{}

/// All packets are green exactly where each stretch of them has no more units than the committed rate gives in its time and the
/// committed burst holds; with two rates, and no more than the peak rate and burst.
pub fn all_are_green_where_all_conform()
    ensures { (rule : MeterRule) (h : List Metered) → ArrivalsAreInOrder h → GreenWhereConforming rule h }
{}
