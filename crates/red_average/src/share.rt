// How far a queue is from its next early drop.
ghost use Rattle.std.specs.Prelude.{◌≡◌, ◌≤◌, ◌<◌, ◌-◌, ◌*◌, ◌^◌, nat_lt, ℤ, pos, negsuc, ◌≤ℤ◌};
ghost use Rattle.red_average.specs.Ruling.{next_count, spacing};

/// One divided by the greatest chance of an early drop, that at the upper threshold.
const INVERSE_CHANCE: u64 = 10;

/// The greatest count, at which it stays.
const MOST: i64 = 1 << 62;

// The count of kept packets after one more: 0 after -1.
pub fn next_count(count: i64) -> u64
    requires least { negsuc 0 ≤ℤ count }
    requires most { count ≤ℤ pos (2 ^ 62) }
    ensures value { result ≡ next_count count }
    ensures most { result ≤ 2 ^ 62 }
{
    if count < MOST {
        (count + 1) as u64
    } else {
        count as u64
    }
}

// How much of the spacing of drops is left: 10 · `width` - `count` · `over`, where `width` is that between the thresholds,
// `count` is of kept packets, and `over` is how far the average is over the lower threshold. 0 where it is used up.
pub fn spacing_left(width: u64, count: u64, over: u64) -> u128
    requires { count ≤ 2 ^ 62 }
    ensures value { result ≡ spacing width - count * over }
    ensures most { result ≤ 2 ^ 68 }
{
    let spacing = u128::from(INVERSE_CHANCE) * u128::from(width);
    spacing.saturating_sub(u128::from(count) * u128::from(over))
}

// Whether a random word, as a fraction of 2^32, is below the chance `over` / `spacing_left`.
pub fn drops_by_chance(word: u32, spacing_left: u128, over: u64) -> bool
    requires { spacing_left ≤ 2 ^ 68 }
    ensures { result ≡ nat_lt (word * spacing_left) (2 ^ 32 * over) }
{
    u128::from(word) * spacing_left < (u128::from(over) << 32)
}
