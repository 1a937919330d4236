// Failures that a test plans, and the counts that they raise.
ghost use Rattle.std.specs.Prelude.{◌≡◌, ◌≢◌, ◌≤◌, ◌<◌, ◌+◌, ◌-◌, ◌^◌, ℕ, min, slice_index};
ghost use Rattle.play_base.specs.View.{Rose};
ghost use Rattle.memory_files.specs.Planned.{is_planned, place_of};

/// The kinds of calls on files.
#[derive(Clone, Copy, Debug)]
pub enum Call {
    Open,
    Create,
    Read,
    Write,
    Say,
}

// A call that is to fail: the nth of its kind, from 0.
#[derive(Clone, Copy)]
pub struct Failing {
    pub call: Call,
    pub nth: u64,
}

impl Call {
    // The place at which calls of this kind are counted.
    fn place(self) -> usize
        ensures value { result ≡ place_of self }
        ensures small { result < 5 }
    {
        match self {
            Call::Open => 0,
            Call::Create => 1,
            Call::Read => 2,
            Call::Write => 3,
            Call::Say => 4,
        }
    }
}

// Whether the nth call of this kind is planned to fail.
fn is_planned(failing: &[Failing], call: Call, nth: u64) -> bool
    ensures { result ≡ is_planned failing.now call nth }
{
    let place = call.place();
    failing
        .iter()
        .any(|f| f.call.place() == place && f.nth == nth)
}

// How many calls of this kind were made.
pub fn count_of(calls: &[u64; 5], call: Call) -> u64
    ensures { result ≡ slice_index calls.now (place_of call) }
{
    calls[call.place()]
}

// One more call of this kind, and of no other; answers how many were made before.
pub fn count_call(calls: &mut [u64; 5], call: Call) -> u64
    ensures before { result ≡ slice_index calls.old (place_of call) }
    ensures counted { slice_index calls.new (place_of call) ≡ min (slice_index calls.old (place_of call) + 1) (2 ^ 64 - 1) }
    ensures others { (c : Call) → c ≢ call → slice_index calls.new (place_of c) ≡ slice_index calls.old (place_of c) }
{
    let made = &mut calls[call.place()];
    let nth = *made;
    *made = made.saturating_add(1);
    nth
}

// Whether this call, the next of its kind, is to fail; it is counted.
pub fn fails_now(failing: &[Failing], calls: &mut [u64; 5], call: Call) -> bool
    ensures due { result ≡ is_planned failing.now call (slice_index calls.old (place_of call)) }
    ensures counted { slice_index calls.new (place_of call) ≡ min (slice_index calls.old (place_of call) + 1) (2 ^ 64 - 1) }
    ensures others { (c : Call) → c ≢ call → slice_index calls.new (place_of c) ≡ slice_index calls.old (place_of c) }
{
    let nth = count_call(calls, call);
    is_planned(failing, call, nth)
}

// One more fault of this part, and of no other.
pub fn count_fault(counts: &mut [u64; 16], part: u8)
    requires { part < 16 }
    ensures rose { Rose (slice_index counts.old part) (slice_index counts.new part) }
    ensures later { (p : ℕ) → slice_index counts.old p ≤ slice_index counts.new p }
    ensures others { (p : ℕ) → p ≢ part → slice_index counts.new p ≡ slice_index counts.old p }
{
    let count = &mut counts[usize::from(part)];
    *count = count.saturating_add(1);
}
