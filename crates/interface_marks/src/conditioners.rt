// The conditioners of an interface.
ghost use Rattle.std.specs.Prelude.{◌≡◌, ◌≤◌, IfOk, length};
ghost use Rattle.conf_laws.specs.Fit.{IsInterface};
ghost use Rattle.interface_marks.specs.Conditioners.{Begins, Marks, is_conditioned};
ghost use Rattle.marked_files.specs.Taking.{holds};

use conf_tree::Interface;
use frame_classes::Classifier;
use marked_files::Marker;
use play_base::NoMemory;
use std::alloc::Global;

/// Whether a class of an interface has a conditioner. At most 256 steps; does not allocate.
pub fn is_conditioned(interface: &Interface) -> bool
    ensures { result ≡ is_conditioned interface.now }
{
    interface
        .classes
        .as_slice()
        .iter()
        .any(|class| class.meter.is_some())
}

/// A marker of an interface's conditioners for a capture of which these first bytes, at most 24, were taken: no packet was metered, and
/// every bucket is full. It takes all its memory here, 262,160 bytes beside the filters and the meters; `NoMemory` comes only when memory
/// runs out.
pub fn marker_of(
    alloc: Global,
    interface: &Interface,
    first: &[u8],
) -> Result<Marker<Classifier>, NoMemory>
    requires fits { IsInterface interface.now }
    requires few { length first.now ≤ 24 }
    ensures marks { IfOk result (Marks interface.now first.now) }
    ensures begins { IfOk result (Begins interface.now first.now) }
    ensures room { IfOk result (λ marker. holds marker ≤ 262160) }
{
    let classifier = Classifier::build(alloc, interface)?;
    let rules = interface.rules(alloc)?;
    Marker::build(alloc, classifier, rules.as_slice(), first)
}
