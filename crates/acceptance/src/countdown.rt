//! A call that is to fail.

ghost use Rattle.std.specs.Prelude.{◌≡◌, ◌-◌, ◌==◌};

use std::marker::Model;

/// Counts calls down to the one that is to fail, which contracts see as how many are left.
#[derive(Drop)]
pub struct Countdown {
    left: u64,
}

impl Model for Countdown {
    ghost use Rattle.std.specs.Prelude.{ℕ};

    ghost Value = { ℕ };

    ghost view = { λ c. c.left };
}

impl Countdown {
    /// Strikes at the call of this number, counted from 1; at 0 it never does.
    pub fn at(call: u64) -> Countdown
        ensures { result ≡ call }
    {
        Countdown { left: call }
    }

    /// Counts one call; whether it is the one that is to fail.
    pub fn strikes(&mut self) -> bool
        ensures strikes { result ≡ (self.old == 1) }
        ensures counts { self.new ≡ self.old - 1 }
    {
        if self.left == 0 {
            return false;
        }
        self.left -= 1;
        self.left == 0
    }
}
