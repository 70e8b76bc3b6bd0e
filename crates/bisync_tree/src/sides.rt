ghost use Rattle.std.specs.Prelude.{◌≡◌};
ghost use Rattle.bisync_tree.specs.Side.{other};

/// One of the two trees that a run keeps equal.
#[derive(Clone, Copy, Debug, PartialEq, Eq)]
pub enum Side {
    /// Path1.
    One,
    /// Path2.
    Two,
}

impl Side {
    /// The side opposite to this one.
    pub fn other(self) -> Side
        ensures { result ≡ other self }
    {
        match self {
            Side::One => Side::Two,
            Side::Two => Side::One,
        }
    }
}
