//! The list of the children that open late.
ghost use Rattle.std.specs.Prelude.{◌≡◌, Option};
ghost use Rattle.ranking.specs.Ranking.{keys_of, order_of};
ghost use Rattle.hfsc_groups.specs.Late.{IsDelayedIn, MayDelayIn, first_key, is_late};

use ranking::Ranking;

/// A moment is after 0 or never comes.
pub fn is_late(moment: Option<u128>) -> bool
    ensures { result ≡ is_late moment }
{
    match moment {
        None => true,
        Some(moment) => moment > 0,
    }
}

/// The key of the first class of a list, 0 where there is none.
pub fn first_key_in(moments: &Ranking) -> Option<u128>
    ensures { result ≡ first_key (keys_of moments.now) (order_of moments.now) }
{
    match moments.as_slice().first() {
        None => Some(0),
        Some(class) => moments.key(*class),
    }
}

/// Puts a child anew into the list, where those that open at once do not stand; `was` and `is` say whether it was active, and is
/// now.
pub fn delay_in(moments: &mut Ranking, class: u32, was: bool, is: bool, opens: Option<u128>)
    requires { MayDelayIn class was moments.old }
    ensures { IsDelayedIn class is opens moments.old moments.new }
{
    let was_late = was && is_late(moments.key(class));
    let late = is && is_late(opens);
    if was_late || late {
        moments.replace(class, was_late, late, opens);
    }
    if !late {
        moments.note(class, opens);
    }
}
