// How late a packet is.
ghost use Rattle.std.specs.Prelude.{◌≡◌, ◌<◌, ◌≤◌, ◌+◌, ◌^◌, ℕ, IfSome};
ghost use Rattle.fate_timely.specs.Timely.{late, later};

// The end less the due moment.
pub(crate) fn late(end: u64, due: Option<u128>) -> Option<i128>
    requires { IfSome due (λ t. t < 2 ^ 120) }
    ensures { result ≡ late end due }
{
    match due {
        None => None,
        Some(due) => Some(i128::from(end) - due as i128),
    }
}

// The greater of two, where there are both.
pub(crate) fn later(a: Option<i128>, b: Option<i128>) -> Option<i128>
    ensures { result ≡ later a b }
{
    match (a, b) {
        (None, b) => b,
        (Some(x), None) => Some(x),
        (Some(x), Some(y)) => Some(x.max(y)),
    }
}
