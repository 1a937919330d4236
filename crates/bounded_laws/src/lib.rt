//! What `bound` prints holds of each play: a law over what `bound` and `play` read. The function does nothing: it states its laws. The
//! sources are Stoica, Zhang and Ng, "A Hierarchical Fair Service Curve Algorithm for Link-Sharing, Real-Time and Priority Services",
//! SIGCOMM 1997, and Cruz, "A Calculus for Network Delay", IEEE Transactions on Information Theory 1991.
#![tactic(auto)]

ghost use Rattle.std.specs.Prelude.{◌≡◌, ◌≤◌, ℕ, List, Some};
ghost use Rattle.altq_model.specs.Arrivals.{bare_arrivals};
ghost use Rattle.bound_command.specs.Bounding.{HasBounded};
ghost use Rattle.bound_command.specs.Lines.{Burst, bound_line};
ghost use Rattle.bound_command.specs.declared.lines.Bound.{Bound};
ghost use Rattle.bounded_laws.specs.Printed.{AllEndWithin, IsPrinted, KeepsTo, StandsIn};
ghost use Rattle.command_form.specs.Names.{Names};
ghost use Rattle.interface_play.specs.Setup.{setup_of};
ghost use Rattle.play_base.specs.View.{View};
ghost use Rattle.play_command.specs.Headline.{HasPlayed};
ghost use Rattle.play_loop.specs.Setup.{arrivals_in};

use conf_laws::configurations_fit;
use interface_policy::interfaces_keep_their_promises;

/// Where `bound` printed for a leaf that N nanoseconds bound its packets at R bits per second, every play that is done of the same bytes of
/// configuration, and of the same interface, keeps it: if no packet that arrives is longer than `longest`, and those that the play offers to
/// the leaf, converted and marked, keep to some rate up to R and to bursts of `burst` bytes, then each of them that is sent ends at most N
/// nanoseconds after it arrived, whatever the other classes send (`plays`). The line stands in the text that was printed (`lines`).
pub fn printed_bounds_hold()
    ensures lines { (old new : View) (config interface : List ℕ) (b : Burst) (x : HasBounded old new config interface b) (leaf : ℕ) (y : Bound)
        → (p : IsPrinted x.configured.found x.bounded.by b leaf y) → StandsIn (bound_line p.class.name (Some y)) x.text }
    ensures plays { (u v old new : View) (config : List ℕ) (n : Names) (seed : ℕ) (b : Burst) (x : HasBounded u v config n.interface b)
        (p : HasPlayed old new n seed) (leaf rate : ℕ) (y : Bound) → u.bytes config ≡ old.bytes n.config
        → IsPrinted x.configured.found x.bounded.by b leaf y → rate ≤ y.rate
        → KeepsTo b leaf rate (bare_arrivals (arrivals_in (setup_of p.interface seed) p.played.records)) p.played.history
        → AllEndWithin leaf y.bound (bare_arrivals (arrivals_in (setup_of p.interface seed) p.played.records)) p.played.history }
{
    configurations_fit();
    interfaces_keep_their_promises();
}
