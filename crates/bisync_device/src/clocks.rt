ghost use Rattle.std.specs.Prelude.{◌≡◌, ℤ, Bool, IsTrue};

/// A clock of moments, in nanoseconds since 1970-01-01T00:00:00 UTC.
pub trait Clock {
    /// Whether the type says which moment it gives.
    ghost tells: { Bool };

    /// The moment that it gives.
    ghost moment: { Self → ℤ };

    /// The moment now.
    fn now(&mut self) -> i64
        ensures told { IsTrue tells → result ≡ moment self.old }
        ensures same { IsTrue tells → moment self.new ≡ moment self.old };
}
