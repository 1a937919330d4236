//! What a conditioner's meter colours green in a capture keeps to its rate and burst: laws over what `condition` and `play` read. The
//! functions do nothing: each states its laws. The meters are those of RFC 2697 and RFC 2698.
#![tactic(auto)]

ghost use Rattle.std.specs.Prelude.{◌≡◌, ℕ, List, Some};
ghost use Rattle.capture_model.specs.Capture.{End, IsLast, Reads, Record, Step};
ghost use Rattle.command_form.specs.Names.{MarkNames, Names};
ghost use Rattle.condition_command.specs.Conditioning.{HasConditioned, HoldsWhole};
ghost use Rattle.conf_tree.specs.declared.interface.Interface.{Interface};
ghost use Rattle.interface_marks.specs.Conditioners.{marked_in};
ghost use Rattle.play_base.specs.View.{View};
ghost use Rattle.interface_play.specs.Source.{Source, played_of};
ghost use Rattle.play_command.specs.Headline.{HasPlayed};
ghost use Rattle.run_inputs.specs.Says.{Given};
ghost use Rattle.traffic_meter.specs.declared.rule.MeterRule.{MeterRule};
ghost use Rattle.traffic_marks.specs.Laws.{recaptured};
ghost use Rattle.traffic_marks.specs.Marked.{Conditioning, frames, rule_of};
ghost use Rattle.conditioned_laws.specs.Conforming.{ComesMetered, HoldsMetered, MakesMetered};
ghost use Rattle.conditioned_laws.specs.Metered.{IsMetered};

mod rows;

pub use rows::worked_meter;

/// The packets that the meter of a class is asked for are in order, whatever the stamps of a capture: each arrives at the greatest stamp
/// up to its own. So over each stretch of them, from its first packet to its last, the green ones have at most the units that `cir`
/// gives in that time and those of `cbs`; green and yellow ones together keep to `cir` and both bursts or, with two rates, to `pir` and
/// `pbs`. The frames of the class carry the code points of these colours, in their order. `records`: it holds of any records and those
/// that conditioners make of them. `captures`: it holds of the records of each capture, for each class of an interface with a
/// conditioner, and the marked capture has the records that were made. `marked`: whatever a marked capture reads as was made so.
pub fn metered_packets_conform()
    ensures records { (c : Conditioning) (came : List Record) (class : ℕ) (rule : MeterRule) → rule_of c.conditioners class ≡ Some rule
        → IsMetered c came (recaptured came (frames c came)) class rule }
    ensures captures { (i : Interface) (capture : List ℕ) (came : List Record) (last : Step) → IsLast last → Reads capture came last
        → MakesMetered i capture came last }
    ensures marked { (i : Interface) (capture : List ℕ) (made : List Record) (last : Step) → IsLast last → Reads (marked_in i capture) made last
        → ComesMetered i capture made last }
{}

/// So it is of what the commands read. `conditioned`: where `condition` is done, the marked file holds a capture that was made so of the
/// arrivals' records. `whole`: where it stops earlier, the marked file holds a front of a marked capture, whose complete records were made
/// so. `source`: the records that a play reads, to whatever end, were made so of those that came. `played`: so were those of a play that
/// is done.
pub fn conditioned_captures_conform()
    ensures conditioned { (new : View) (n : MarkNames) (i : Interface) (g : Given) (x : HasConditioned new n i g)
        → HoldsMetered i x.records new n.marked }
    ensures whole { (new : View) (n : MarkNames) (i : Interface) (capture : List ℕ) (last : Step) → IsLast last
        → (x : HoldsWhole new n i capture last) → MakesMetered i capture x.whole.records last }
    ensures source { (s : Source) (made : List Record) (last : Step) → IsLast last → Reads (played_of s) made last
        → ComesMetered s.interface s.capture made last }
    ensures played { (old new : View) (n : Names) (seed : ℕ) (x : HasPlayed old new n seed)
        → ComesMetered x.interface x.given.capture x.played.records End }
{}
