//! Windows, in which times are compared and kept. That times are compared as whole windows is
//! this project's own rule: it makes an equivalence, as a tolerance wouldn't.

ghost use Rattle.std.specs.Prelude.{◌≡◌, ◌≤◌, ℤ, pos, FitsSigned};
ghost use Rattle.std.specs.Int.{w64};
ghost use Rattle.bisync_tree.specs.Window.{window_ns, window_number, brought_time, coarser};

/// The precision of times. Each window divides the next.
#[derive(Clone, Copy, Debug, PartialEq, Eq)]
pub enum Window {
    /// 1 nanosecond.
    Ns1,
    /// 100 nanoseconds.
    Ns100,
    /// 1 microsecond.
    Us1,
    /// 1 millisecond.
    Ms1,
    /// 1 second.
    S1,
    /// 2 seconds.
    S2,
}

impl Window {
    /// Its length in nanoseconds.
    pub fn ns(self) -> i64
        ensures { result ≡ pos (window_ns self) }
    {
        match self {
            Window::Ns1 => 1,
            Window::Ns100 => 100,
            Window::Us1 => 1_000,
            Window::Ms1 => 1_000_000,
            Window::S1 => 1_000_000_000,
            Window::S2 => 2_000_000_000,
        }
    }

    /// The number of the window in which a time in nanoseconds lies, rounded towards zero.
    pub fn number(self, time: i64) -> i64
        ensures { result ≡ window_number self time }
    {
        time / self.ns()
    }

    /// The time in nanoseconds that a remote of this window keeps of a time.
    pub fn brought(self, time: i64) -> i64
        ensures { result ≡ brought_time self time }
    {
        self.number(time) * self.ns()
    }

    /// The greater of two windows.
    pub fn coarser(self, other: Window) -> Window
        ensures value { result ≡ coarser self other }
        ensures not_finer { window_ns self ≤ window_ns result }
        ensures not_finer_than_other { window_ns other ≤ window_ns result }
    {
        if self.ns() < other.ns() { other } else { self }
    }
}

/// The greater of two windows isn't finer than either.
pub fn coarser_is_not_finer()
    ensures one { (w v : Window) → window_ns w ≤ window_ns (coarser w v) }
    ensures two { (w v : Window) → window_ns v ≤ window_ns (coarser w v) }
{}

/// What a remote keeps of a time that it kept before is that time.
pub fn brought_times_are_kept()
    ensures { (w : Window) (time : ℤ) → brought_time w (brought_time w time) ≡ brought_time w time }
{}

/// What a remote keeps of a time of 64 bits is a time of 64 bits.
pub fn brought_times_fit()
    ensures { (w : Window) (time : ℤ) → FitsSigned w64 time → FitsSigned w64 (brought_time w time) }
{}

/// A time that was brought lies in the same window, for every window that isn't finer.
pub fn brought_keeps_windows()
    ensures { (w v : Window) (time : ℤ) → window_ns w ≤ window_ns v
        → window_number v (brought_time w time) ≡ window_number v time }
{}
