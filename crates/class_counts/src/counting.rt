// The counts of the statistics while a play goes on.
ghost use Rattle.std.specs.Prelude.{◌≡◌, [], IfOk};
ghost use Rattle.play_text.specs.Names.{AreNames, HasClass};
ghost use Rattle.play_text.specs.Statistics.{IsCountable};
ghost use Rattle.class_counts.specs.Counting.{AreCountable, count_at, tallied, with_drop, with_one};

use altq_model::{Counts, Reason};
use play_base::NoMemory;
use play_text::Names;
use std::alloc::Global;

/// What the statistics count of a class.
#[derive(Clone, Copy)]
pub enum Counted {
    /// An arrival of `len` bytes; `raised` says that its own stamp is less than its arrival.
    Arrived { len: u32, raised: bool },
    /// A sending of `len` bytes.
    Sent { len: u32 },
    /// A drop.
    Dropped(Reason),
}

/// The counts of each class of these names, where nothing arrived. The only error is lack of memory.
pub fn no_counts(alloc: Global, names: &Names) -> Result<Vec<Counts>, NoMemory>
    ensures none { IfOk result (λ counts. counts.items ≡ tallied names.now [] []) }
    ensures names { AreNames names.now }
{
    let none = Counts {
        arrived: 0,
        arrived_bytes: 0,
        raised: 0,
        sent: 0,
        sent_bytes: 0,
        full: 0,
        early: 0,
        forced: 0,
    };
    let mut counts = Vec::new(alloc);
    counts.resize(names.len() as usize, none)?;
    Ok(counts)
}

// Counts one more drop.
#[inline]
fn add_drop(counts: &mut Counts, reason: Reason)
    requires { IsCountable counts.old }
    ensures { counts.new ≡ with_drop counts.old reason }
{
    match reason {
        Reason::Full => counts.full += 1,
        Reason::Early => counts.early += 1,
        Reason::Forced => counts.forced += 1,
    }
}

// Counts one more of what is counted. Each caller says what, so the other arms go away where it is inlined.
#[inline]
fn add_one(counts: &mut Counts, what: Counted)
    requires { IsCountable counts.old }
    ensures { counts.new ≡ with_one counts.old what }
{
    match what {
        Counted::Arrived { len, raised } => {
            counts.arrived += 1;
            counts.arrived_bytes += len as u64;
            counts.raised += raised as u64;
        }
        Counted::Sent { len } => {
            counts.sent += 1;
            counts.sent_bytes += len as u64;
        }
        Counted::Dropped(reason) => add_drop(counts, reason),
    }
}

/// Counts one more of a class. Does not allocate, in the time of a search for the class. Where a caller says what is counted, the rest of
/// it goes away.
#[inline(always)]
pub fn count(counts: &mut Vec<Counts>, names: &Names, class: u32, what: Counted)
    requires named { HasClass names.now class }
    requires countable { AreCountable names.now counts.old.items }
    ensures { counts.new.items ≡ count_at names.now class what counts.old.items }
{
    if let Some(place) = names.place(class) {
        add_one(&mut counts[place as usize], what);
    }
}
