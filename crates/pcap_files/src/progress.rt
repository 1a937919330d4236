ghost use Rattle.std.specs.Prelude.{◌≤◌, ◌^◌};

/// How far a reader has come: the count of the records that it answered, and the place of the next.
#[derive(Clone, Copy)]
pub struct Progress {
    pub count: u32,
    pub place: u32,
    ghost counted: { count ≤ 4000000 },
    ghost placed: { place ≤ 2 ^ 30 },
}
