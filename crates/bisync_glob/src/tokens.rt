ghost use Rattle.std.specs.Prelude.{◌≡◌, ◌≢◌, ◌<◌, ◌≤◌, ◌∷◌, [], List, ℕ, true, false, IfOk, All, length, take, drop};
ghost use Rattle.bisync_glob.specs.Spelling.{begins};
ghost use Rattle.bisync_glob.specs.Tokens.{AreTokens, SpellsPiece};
ghost use Rattle.bisync_glob.specs.Reading.{TokenRead};

use crate::FaultKind;
use crate::class_reader::{is_escapable, read_class};
use crate::parts::Simple;
use bisync_text::OutOfMemory;
use std::alloc::Global;

/// What a token of a pattern is.
#[derive(Drop)]
pub enum Piece {
    /// A part by itself.
    Single(Simple),
    /// `\` and the character that it escapes.
    Escaped(char),
    /// `{`
    Open,
    /// `,`
    Comma,
    /// `}`
    Close,
    /// What is at fault by itself.
    Bad(FaultKind),
}

/// A token and how many characters spell it.
#[derive(Drop)]
pub struct Token {
    pub piece: Piece,
    pub len: usize,
}

/// The tokens of a text.
pub fn read_tokens(alloc: Global, text: &[char]) -> Result<Vec<Token>, OutOfMemory>
    ensures { IfOk result (λ tokens. AreTokens tokens.items text.now) }
{
    let mut tokens = Vec::new(alloc);
    let mut at = 0;
    while at < text.len() {
        let token = read_token(alloc, &text[at..])?;
        at += token.len;
        tokens.push(token)?;
    }
    Ok(tokens)
}

/// The token at the front of a text that is not empty.
fn read_token(alloc: Global, text: &[char]) -> Result<Token, OutOfMemory>
    requires { 0 < length text.now }
    ensures { IfOk result (λ token. TokenRead token text.now) }
{
    match text {
        ['*', ..] => Ok(read_stars(text)),
        ['[', ..] => read_bracket(alloc, text),
        ['\\', ..] => Ok(read_escape(text)),
        [c, ..] => Ok(Token {
            piece: piece_of(*c),
            len: 1,
        }),
        [] => Ok(Token {
            piece: Piece::Comma,
            len: 0,
        }),
    }
}

/// The token of a text that begins with a star.
fn read_stars(text: &[char]) -> Token
    requires { begins 42 text.now ≡ true }
    ensures { TokenRead result text.now }
{
    match count_stars(text) {
        1 => Token {
            piece: Piece::Single(Simple::Star),
            len: 1,
        },
        2 => Token {
            piece: Piece::Single(Simple::Stars),
            len: 2,
        },
        len => Token {
            piece: Piece::Bad(FaultKind::Stars),
            len,
        },
    }
}

/// How many stars stand at the front of a text.
fn count_stars(text: &[char]) -> usize
    ensures fits { result ≤ length text.now }
    ensures stars { All (λ c. c ≡ 42) (take result text.now) }
    ensures next { begins 42 (drop result text.now) ≡ false }
{
    let mut count = 0;
    while count < text.len() && text[count] == '*' {
        count += 1;
    }
    count
}

/// The token of a text that begins with `[`.
fn read_bracket(alloc: Global, text: &[char]) -> Result<Token, OutOfMemory>
    requires { begins 91 text.now ≡ true }
    ensures { IfOk result (λ token. TokenRead token text.now) }
{
    match read_class(alloc, text)? {
        Some((class, len)) => Ok(Token {
            piece: Piece::Single(Simple::Class(class)),
            len,
        }),
        None => Ok(Token {
            piece: Piece::Bad(FaultKind::Class),
            len: 1,
        }),
    }
}

/// The token of a text that begins with `\`.
fn read_escape(text: &[char]) -> Token
    requires { begins 92 text.now ≡ true }
    ensures { TokenRead result text.now }
{
    match text {
        [_, c, ..] if is_escapable(*c) => Token {
            piece: Piece::Escaped(*c),
            len: 2,
        },
        _ => Token {
            piece: Piece::Bad(FaultKind::Backslash),
            len: 1,
        },
    }
}

/// What any other character is.
fn piece_of(c: char) -> Piece
    requires star { c ≢ 42 }
    requires bracket { c ≢ 91 }
    requires backslash { c ≢ 92 }
    ensures { (after : List ℕ) → SpellsPiece result (c ∷ []) after }
{
    match c {
        '?' => Piece::Single(Simple::AnyChar),
        '{' => Piece::Open,
        ',' => Piece::Comma,
        '}' => Piece::Close,
        c => Piece::Single(Simple::Literal(c)),
    }
}
