use crate::choices::Choice;
use crate::classes::CharClass;

/// A part of a pattern.
#[derive(Drop)]
pub enum Part {
    Plain(Simple),
    Choice(Choice),
}

/// A part that may stand between braces, too.
#[derive(Drop)]
pub enum Simple {
    /// One character, which stands for itself.
    Literal(char),
    /// `?`
    AnyChar,
    Class(CharClass),
    /// `*`
    Star,
    /// `**`
    Stars,
}
