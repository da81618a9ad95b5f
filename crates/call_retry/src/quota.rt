ghost use Rattle.std.specs.Prelude.{◌≡◌, ◌≤◌, ◌-◌};
ghost use Rattle.call_retry.specs.Retries.{given_back};

use std::marker::Model;

/// What retries may still cost. Contracts see it as the number that is left, which is at most 500.
#[derive(Debug, Drop)]
pub struct Quota {
    left: u16,
}

impl Model for Quota {
    ghost use Rattle.std.specs.Prelude.{ℕ, ◌≤◌};

    ghost Value = { ℕ };

    ghost view = { λ quota. quota.left };

    ghost invariant = { λ quota. quota.left ≤ 500 };
}

/// The most that is ever left.
const FULL: u16 = 500;

impl Quota {
    /// The quota that a command starts with.
    pub fn full() -> Quota
        ensures { result ≡ 500 }
    {
        Quota { left: FULL }
    }

    /// What is left.
    pub fn left(&self) -> u16
        ensures left { result ≡ self.now }
        ensures most { result ≤ 500 }
    {
        self.left
    }

    /// Takes the cost of a retry.
    pub fn take(&mut self, cost: u16)
        requires { cost ≤ self.old }
        ensures { self.new ≡ self.old - cost }
    {
        self.left -= cost;
    }

    /// Gives an amount back, but no more than what the quota was at the start.
    pub fn give(&mut self, amount: u16)
        ensures { self.new ≡ given_back self.old amount }
    {
        self.left = self.left.saturating_add(amount).min(FULL);
    }
}
