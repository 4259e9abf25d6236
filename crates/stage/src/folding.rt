// What a closure gives for each of the numbers below a bound: the largest value, and a colour.
ghost use Rattle.std.specs.Prelude.{◌≡◌, ℕ, ◌<◌, ◌≤◌};
ghost use Rattle.meaning.specs.Colours.{nearest, rounded, spread};
ghost use Rattle.meaning.specs.Sums.{largest_below};

use crate::traits::Colour;
use std::array;

// The largest value for the numbers below n, and 0 where there is none.
pub(crate) fn largest<F: Fn(usize) -> u32>(n: usize, value: F) -> u32
    requires { (k : ℕ) → k < n → F.pre value k }
    // For every function f that says what the closure gives
    ensures { (f : ℕ → ℕ) → ((k r : ℕ) → F.post value k r → r ≡ f k) → result ≡ largest_below n f }
{
    (0..n).map(value).max().unwrap_or(0)
}

// The colour whose first n channels the closure gives, the others 0.
pub(crate) fn colour_of<F: Fn(usize) -> u16>(n: usize, value: F) -> Colour
    requires { (k : ℕ) → k < n → F.pre value k }
    // For every exact colour, f over d, whose channels the closure gives rounded
    ensures { (f : ℕ → ℕ) (d : ℕ) → ((k r : ℕ) → F.post value k r → r ≡ rounded (f k) d)
        → result ≡ nearest (record { nums = spread n f; den = d }) }
{
    array::from_fn(
        |k: usize| -> u16
            requires { k < n → F.pre value k }
            ensures within { k < n → F.post value k result }
            ensures beyond { n ≤ k → result ≡ 0 }
        { if k < n { value(k) } else { 0 } },
    )
}
