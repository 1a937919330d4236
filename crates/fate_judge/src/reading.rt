// Rows that are of packets which arrived.
ghost use Rattle.std.specs.Prelude.{◌≡◌, MatchOption, [], true, false};
ghost use Rattle.fate_judge.specs.Given.{bare_arrivals};
ghost use Rattle.fate_judge.specs.Walk.{EachRow, FirstFails};
ghost use Rattle.fate_judge.specs.Reading.{IsOfArrival, IsRead, can_occur};

use crate::given::{Allowed, Arrived};
use altq_model::{Fate, Reason, Rule};
use fate_check::Row;

fn can_occur(allowed: Allowed, fate: Fate) -> bool
    ensures { result ≡ can_occur allowed fate }
{
    match fate {
        Fate::Sent {
            rule: Rule::RealTime,
            ..
        } => allowed.real_time,
        Fate::Sent {
            rule: Rule::Share,
            ..
        } => allowed.share,
        Fate::Sent {
            rule: Rule::Own,
            ..
        } => allowed.own,
        Fate::Sent {
            rule: Rule::Borrow,
            ..
        } => allowed.borrow,
        Fate::Dropped(Reason::Full) => true,
        Fate::Dropped(Reason::Early | Reason::Forced) => allowed.early,
    }
}

pub(crate) fn is_of_arrival(classes: &[Allowed], arrived: &[Arrived], row: &Row) -> bool
    ensures passes { result ≡ true → IsOfArrival classes.now (bare_arrivals arrived.now) row.now }
    ensures fails { result ≡ false → IsOfArrival classes.now (bare_arrivals arrived.now) row.now → ⊥ }
{
    if row.number == 0 || row.number > arrived.len() as u64 || row.class as usize >= classes.len() {
        return false;
    }
    let packet = arrived[row.number as usize - 1];
    let allowed = classes[row.class as usize];
    if packet.at != row.at || packet.len != row.len || packet.class != row.class {
        return false;
    }
    can_occur(allowed, row.fate)
}

// The first row that is of no packet which arrived.
pub(crate) fn first_unread(classes: &[Allowed], arrived: &[Arrived], rows: &[Row]) -> Option<u64>
    ensures { MatchOption result (EachRow (IsRead classes.now (bare_arrivals arrived.now)) [] rows.now) (FirstFails (IsRead classes.now
        (bare_arrivals arrived.now)) rows.now) }
{
    for (i, row) in rows.iter().enumerate() {
        if !is_of_arrival(classes, arrived, row) {
            return Some(i as u64 + 1);
        }
    }
    None
}
