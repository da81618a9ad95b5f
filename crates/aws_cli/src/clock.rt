ghost use Rattle.std.specs.Prelude.{None};

use aws_world::Clock;
use std::thread;
use std::time::{Duration, SystemTime, UNIX_EPOCH};

/// The system's clock.
#[derive(Drop)]
pub struct RealClock<'a> {
    rt: &'a HostRuntime,
    faults: u64,
}

impl<'a> RealClock<'a> {
    pub fn new(rt: &'a HostRuntime) -> RealClock<'a> {
        RealClock { rt, faults: 0 }
    }

    fn seconds(&self) -> Option<i64> {
        let now = SystemTime::now(self.rt).ok()?;
        let since = now.duration_since(UNIX_EPOCH).ok()?;
        i64::try_from(since.as_secs()).ok()
    }
}

impl Clock for RealClock<'_> {
    ghost told = { λ _. None };

    ghost faults = { λ clock. clock.faults };

    fn now(&mut self) -> i64 {
        match self.seconds() {
            Some(seconds) => seconds,
            None => {
                self.faults = self.faults.saturating_add(1);
                -1
            }
        }
    }

    fn pause(&mut self, ms: u64) {
        thread::sleep(self.rt, Duration::from_millis(ms));
    }
}

#[cfg(test)]
mod tests {
    use super::*;

    #[test]
    fn tells_and_waits(rt: HostRuntime) {
        let mut clock = RealClock::new(&rt);
        let before = clock.now();
        clock.pause(1);
        assert!(rt; 1_700_000_000 < before && before <= clock.now());
        assert_eq!(rt; clock.faults, 0);
    }
}
