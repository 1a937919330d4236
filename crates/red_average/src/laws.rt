// A law of the average while nothing waits.
ghost use Rattle.std.specs.Prelude.{◌≡◌, ◌≤◌, ◌^◌, ℕ, min};
ghost use Rattle.red_average.specs.Average.{idled};

/// However long nothing waited: from every average that there may be 16,250 idle steps give the same as any greater number
/// of them.
pub fn idle_steps_are_few()
    ensures { (steps a : ℕ) → a ≤ 2 ^ 54 → idled (min steps 16250) a ≡ idled steps a }
{}
