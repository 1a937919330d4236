//! Quotients by a number that stays, which a product guesses: a division takes many times as long.
//!
//! The guess is that of Granlund and Montgomery, "Division by Invariant Integers using Multiplication", PLDI 1994, with a
//! number of one word, so it may be too low by one or two. What is answered does not rest on the guess.
#![tactic(auto)]

ghost use Rattle.std.specs.Prelude.{◌≡◌, ◌<◌, ◌/◌};
ghost use Rattle.quotients.specs.Inverse.{inverse};

/// The number by which quotients by a divisor are guessed: 2^64 - 1 divided by it, 0 for a divisor of 0.
pub fn inverse(divisor: u64) -> u64
    ensures { result ≡ inverse divisor }
{
    if divisor == 0 {
        return 0;
    }
    u64::MAX / divisor
}

/// The whole times that a divisor goes into an amount. Where the guess is right or one too low, as it mostly is with the
/// `inverse` of the divisor, nothing is divided; with any other number the answer is the same.
#[inline(always)]
pub fn quotient(amount: u64, divisor: u64, inverse: u64) -> u64
    requires { 0 < divisor }
    ensures { result ≡ amount / divisor }
{
    let guess = ((u128::from(amount) * u128::from(inverse)) >> 64) as u64;
    let product = u128::from(guess) * u128::from(divisor);
    if product <= u128::from(amount) {
        let rest = amount - product as u64;
        if rest < divisor {
            return guess;
        }
        if rest - divisor < divisor {
            return guess + 1;
        }
    }
    amount / divisor
}
