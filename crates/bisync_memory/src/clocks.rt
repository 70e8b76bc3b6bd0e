ghost use Rattle.std.specs.Prelude.{◌≡◌, pos, true};
ghost use Rattle.bisync_memory.specs.MemClocks.{mem_moment, fixed_moment};

use bisync_device::Clock;

/// A clock that stands at the moment that was set.
#[derive(Drop)]
pub struct MemClock {
    moment: i64,
}

/// A clock that stands at one moment for ever.
#[derive(Drop)]
pub struct FixedClock {
    moment: i64,
}

impl MemClock {
    /// A clock at the moment 0.
    pub fn new() -> MemClock
        ensures { mem_moment result ≡ pos 0 }
    {
        MemClock { moment: 0 }
    }

    /// Sets the moment, in nanoseconds since 1970.
    pub fn set(&mut self, now: i64)
        ensures { mem_moment self.new ≡ now }
    {
        self.moment = now;
    }
}

impl Clock for MemClock {
    ghost tells = { true };

    ghost moment = { mem_moment };

    fn now(&mut self) -> i64 {
        self.moment
    }
}

impl FixedClock {
    /// A clock at a moment, in nanoseconds since 1970.
    pub fn new(now: i64) -> FixedClock
        ensures { fixed_moment result ≡ now }
    {
        FixedClock { moment: now }
    }
}

impl Clock for FixedClock {
    ghost tells = { true };

    ghost moment = { fixed_moment };

    fn now(&mut self) -> i64 {
        self.moment
    }
}

#[cfg(test)]
mod tests {
    use super::*;
    use bisync_device::Clock;

    #[test]
    fn clocks_give_their_moments(rt: HostRuntime) {
        let mut clock = MemClock::new();
        assert_eq!(rt; clock.now(), 0);
        for moment in [7, i64::MIN, i64::MAX] {
            clock.set(moment);
            assert_eq!(rt; clock.now(), moment);
            let mut fixed = FixedClock::new(moment);
            assert_eq!(rt; fixed.now(), moment);
            assert_eq!(rt; fixed.now(), moment);
        }
    }
}
