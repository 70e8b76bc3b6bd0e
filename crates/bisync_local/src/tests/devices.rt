use crate::{StdoutSink, SystemClock};
use bisync_device::{Clock, Failed, Sink};
use std::cell::Cell;
use std::fmt::Display;
use std::io::ErrorKind;
use std::time::Duration;
use std::{io, time};

/// A system whose clock can be broken, and whose standard output is closed.
#[derive(Drop)]
struct Broken {
    seconds: Cell<u64>,
}

impl time::Clock for Broken {
    fn monotonic(&self) -> io::Result<Duration> {
        self.since_1970()
    }

    fn since_1970(&self) -> io::Result<Duration> {
        match self.seconds.get() {
            0 => Err(io::Error::from(ErrorKind::Other)),
            seconds => Ok(Duration::from_secs(seconds)),
        }
    }
}

impl Print for Broken {
    fn print<D: Display + Drop>(&self, _value: D) -> io::Result<()> {
        Err(io::Error::from(ErrorKind::BrokenPipe))
    }

    fn println<D: Display + Drop>(&self, _value: D) -> io::Result<()> {
        Err(io::Error::from(ErrorKind::BrokenPipe))
    }

    fn write_all(&self, _bytes: &[u8]) -> io::Result<()> {
        Err(io::Error::from(ErrorKind::BrokenPipe))
    }
}

#[test]
fn a_broken_clock_stands_and_a_closed_output_fails(rt: HostRuntime) {
    let broken = Broken {
        seconds: Cell::new(0),
    };
    let mut clock = SystemClock::new(&broken);
    let cases = [
        (0, 0),
        (u64::MAX, 0),
        (9_223_372_036, 9_223_372_036_000_000_000),
        (9_223_372_037, 9_223_372_036_000_000_000),
        (0, 9_223_372_036_000_000_000),
        (7, 7_000_000_000),
    ];
    for (seconds, moment) in cases {
        broken.seconds.set(seconds);
        assert_eq!(rt; clock.now(), moment, "at {seconds}");
    }
    let mut sink = StdoutSink::new(&broken);
    assert!(rt; sink.write_all(b"line") == Err(Failed));
    assert!(rt; sink.write_all(b"line") == Err(Failed));
    assert_eq!(rt; sink.faults(), 2);
}

#[test]
fn the_clock_and_the_output_of_the_system_serve(rt: HostRuntime) {
    assert!(rt; SystemClock::new(&rt).now() > 1_577_836_800_000_000_000);
    let mut sink = StdoutSink::new(&rt);
    assert!(rt; sink.write_all(b"a line\n") == Ok(()));
    assert_eq!(rt; sink.faults(), 0);
}
