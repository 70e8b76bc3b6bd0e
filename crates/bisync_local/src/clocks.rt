ghost use Rattle.std.specs.Prelude.{◌≡◌, false, pos};
ghost use Rattle.bisync_local.specs.Devices.{last_moment};

use bisync_device::Clock;
use std::io::ErrorKind;
use std::{io, time};

/// The system's clock. It tells no moment.
#[derive(Drop)]
pub struct SystemClock<'a, R> {
    rt: &'a R,
    last: i64,
}

impl<'a, R: time::Clock> SystemClock<'a, R> {
    pub fn new(rt: &'a R) -> SystemClock<'a, R>
        ensures { last_moment result ≡ pos 0 }
    {
        SystemClock { rt, last: 0 }
    }
}

impl<'a, R: time::Clock> Clock for SystemClock<'a, R> {
    ghost tells = { false };

    ghost moment = { last_moment };

    /// Where the clock can't be read, or its moment isn't in `i64`, the moment that was answered
    /// last, which is 0 at first.
    fn now(&mut self) -> i64 {
        if let Ok(moment) = moment_of(self.rt) {
            self.last = moment;
        }
        self.last
    }
}

fn moment_of<R: time::Clock>(rt: &R) -> io::Result<i64> {
    match i64::try_from(rt.since_1970()?.as_nanos()) {
        Ok(moment) => Ok(moment),
        Err(_) => Err(io::Error::from(ErrorKind::InvalidData)),
    }
}
