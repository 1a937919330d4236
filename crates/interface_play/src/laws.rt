// The laws that a play cites. The function does nothing.
ghost use Rattle.interface_play.specs.Laws.{HaveLaws};

use conf_laws::configurations_fit;
use frame_classes::frames_have_classes;
use interface_policy::interfaces_keep_their_promises;

// The interfaces of a configuration keep to their ranges, their frames have classes that hold packets, and their plays keep what they
// promise.
pub(crate) fn laws_hold()
    ensures { HaveLaws }
{
    configurations_fit();
    frames_have_classes();
    interfaces_keep_their_promises();
}
