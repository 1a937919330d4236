// Which tests an interface is held to, and what they are called.
ghost use Rattle.std.specs.Prelude.{◌≡◌};
ghost use Rattle.std.specs.List.{list_any};
ghost use Rattle.file_judge.specs.Given.{has_limit, is_unlimited};
ghost use Rattle.file_judge.specs.Verdict.{test_of};

use conf_tree::{Class, Interface, Kind};
use fate_judge::Kind as RowKind;
use file_tests::Test;

// Whether a class has an upper limit.
fn have_limit(classes: &[Class]) -> bool
    ensures { result ≡ list_any has_limit classes.now }
{
    for class in classes {
        if class.upper.is_some() {
            return true;
        }
    }
    false
}

/// Whether the link may never idle while a packet waits.
pub(crate) fn is_unlimited(interface: &Interface) -> bool
    ensures { result ≡ is_unlimited interface.now }
{
    match interface.kind {
        Kind::Hfsc => !have_limit(interface.classes.as_slice()),
        Kind::Cbq => false,
    }
}

/// The test of a kind of test of rows.
pub(crate) fn test_of(kind: RowKind) -> Test
    ensures { result ≡ test_of kind }
{
    match kind {
        RowKind::Reading => Test::Reading,
        RowKind::EachOnce => Test::EachOnce,
        RowKind::Order => Test::Order,
        RowKind::Moments => Test::Moments,
        RowKind::Ends => Test::Ends,
    }
}
