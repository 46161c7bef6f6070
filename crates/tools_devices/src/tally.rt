//! How often something has happened: a count that only contracts see.
ghost use Rattle.std.specs.Prelude.{◌≡◌, ℕ, ◌+◌};
ghost use Rattle.std.specs.Borrow.{ftrue};

use std::marker::{Brand, Model};

/// How often something has happened, as a device's failures. The count takes no memory and has no
/// greatest value.
#[derive(Drop)]
pub struct Tally {
    pub ghost count: { ℕ },
}

impl Model for Tally {
    ghost also_owns = { λ _. ftrue };
}

// A number that a call picks.
trait Number {
    ghost use Rattle.std.specs.Prelude.{ℕ};

    ghost number: { ℕ };
}

impl Number for Brand {
    ghost number = { 0 };
}

// A count of that number.
fn count_of<N: Number>() -> Tally
    ensures { result.count ≡ N.number }
{
    Tally {}
}

// The count after an earlier one.
fn after<N: Number>(_earlier: &Tally) -> Tally
    requires { N.number ≡ _earlier.now.count + 1 }
    ensures { result.count ≡ N.number }
{
    count_of::<N>()
}

impl Tally {
    /// Zero times.
    pub fn zero() -> Tally
        ensures { result.count ≡ 0 }
    {
        count_of::<Brand>()
    }

    /// Once more than this.
    pub fn plus_one(&self) -> Tally
        ensures { result.count ≡ self.now.count + 1 }
    {
        after::<Brand>(self)
    }
}
