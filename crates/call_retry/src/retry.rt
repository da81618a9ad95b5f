ghost use Rattle.std.specs.Prelude.{◌≡◌, ◌≤◌};
ghost use Rattle.call_retry.specs.Retries.{decide, backoff};

use crate::class::Class;

/// Whether another attempt follows.
#[derive(Clone, Copy, Debug, PartialEq, Eq)]
pub enum Decision {
    /// The call ends.
    End,
    /// Another attempt follows, which costs so much of the quota.
    Again(u16),
}

/// The rule of retries.
#[derive(Clone, Copy, Debug, PartialEq, Eq)]
pub struct Retry;

/// The longest pause, in milliseconds.
const LONGEST: u64 = 20_000;

/// From this attempt on every word but 0 gives the longest pause.
const LATE: u32 = 64;

impl Retry {
    /// Whether another attempt follows the one of this number, counted from 1, of at most `limit`, where so much
    /// of the quota is left.
    pub fn decide(class: Class, attempt: u32, limit: u32, left: u16) -> Decision
        ensures { result ≡ decide class attempt limit left }
    {
        match class {
            Class::Again(cost) => {
                if attempt >= limit || cost > left {
                    Decision::End
                } else {
                    Decision::Again(cost)
                }
            }
            Class::Good | Class::Final => Decision::End,
        }
    }

    /// The milliseconds to wait after the attempt of this number, counted from 1, for a random word. At most
    /// 20,000.
    pub fn backoff(attempt: u32, word: u32) -> u64
        requires { 1 ≤ attempt }
        ensures pause { result ≡ backoff attempt word }
        ensures short { result ≤ 20000 }
    {
        if word == 0 {
            return 0;
        }
        if attempt >= LATE {
            return LONGEST;
        }
        let part = u128::from(word) * 1_000 * (1_u128 << (attempt - 1));
        let milliseconds = part >> 32;
        if milliseconds > u128::from(LONGEST) {
            return LONGEST;
        }
        milliseconds as u64
    }
}
