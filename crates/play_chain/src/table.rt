// The passage of a number by the tables of both plays.
ghost use Rattle.std.specs.Prelude.{◌≡◌};
ghost use Rattle.play_chain.specs.Tables.{in_tables, outcome_by};

use crate::firsts::{First, first_at};
use crate::outcome::{Outcome, Passage};
use crate::seconds::{Second, second_at};

// The outcome of a packet that the first play sent.
fn second_outcome(row: Second) -> Outcome
    ensures { result ≡ outcome_by row }
{
    match row {
        Second::Absent => Outcome::Sent(None),
        Second::Dropped => Outcome::DroppedSecond,
        Second::Sent { end } => Outcome::Sent(Some(end)),
    }
}

/// The passage of a number, where the first play has one.
pub fn passage_of(firsts: &[First], seconds: &[Second], number: u64) -> Option<Passage>
    ensures { result ≡ in_tables firsts.now seconds.now number }
{
    match first_at(firsts, number) {
        First::Absent => None,
        First::Dropped { arrival } => Some(Passage {
            arrival,
            outcome: Outcome::DroppedFirst,
        }),
        First::Sent { arrival, place } => Some(Passage {
            arrival,
            outcome: second_outcome(second_at(seconds, place)),
        }),
    }
}
