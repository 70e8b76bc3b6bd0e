ghost use Rattle.std.specs.Prelude.{◌≡◌, ◌++◌, ◌∷◌, [], List, true, false, Some, IfOk, length};
ghost use Rattle.bisync_glob.specs.declared.parts.Part.TheVariants.{Plain};
ghost use Rattle.bisync_glob.specs.declared.tokens.Piece.{Piece};
ghost use Rattle.bisync_glob.specs.declared.tokens.Piece.TheVariants.{Open, Close, Comma};
ghost use Rattle.bisync_glob.specs.Faults.{NoFaultBelow, pieces};
ghost use Rattle.bisync_glob.specs.Parsing.{AreParts, AreAllParts, EndsInSlash, IsPart, IsSimple};
ghost use Rattle.bisync_glob.specs.Building.{AreBuilt, IsBuilt, Fits, has_braces, inside_after, is_slash};

use crate::choices::{Alternative, Choice};
use crate::parts::{Part, Simple};
use crate::tokens::{Piece, Token};
use bisync_text::OutOfMemory;
use std::alloc::Global;

/// The parts of tokens without fault, and `**` behind a last `/`.
pub fn read_all_parts(alloc: Global, tokens: Vec<Token>) -> Result<Vec<Part>, OutOfMemory>
    requires { NoFaultBelow tokens.items (length tokens.items) }
    ensures { IfOk result (λ parts. AreAllParts parts.items (pieces tokens.items)) }
{
    let folder = ends_in_slash(&tokens);
    let mut parts = read_parts(alloc, tokens)?;
    if folder {
        parts.push(Part::Plain(Simple::Stars))?;
    }
    Ok(parts)
}

fn ends_in_slash(tokens: &[Token]) -> bool
    ensures slash { result ≡ true → EndsInSlash (pieces tokens.now) }
    ensures other { result ≡ false → EndsInSlash (pieces tokens.now) → ⊥ }
{
    if tokens.is_empty() {
        return false;
    }
    is_slash(&tokens[tokens.len() - 1].piece)
}

fn is_slash(piece: &Piece) -> bool
    ensures { result ≡ is_slash piece.now }
{
    match piece {
        Piece::Single(Simple::Literal(c)) => *c == '/',
        _ => false,
    }
}

/// The parts of tokens without fault.
fn read_parts(alloc: Global, tokens: Vec<Token>) -> Result<Vec<Part>, OutOfMemory>
    requires { NoFaultBelow tokens.items (length tokens.items) }
    ensures { IfOk result (λ parts. AreParts parts.items (pieces tokens.items)) }
{
    let mut builder = Builder {
        parts: Vec::new(alloc),
        braces: None,
    };
    for token in tokens {
        builder = builder.step(alloc, token.piece)?;
    }
    Ok(builder.parts)
}

/// The parts that are complete, and the braces that are open.
#[derive(Drop)]
pub struct Builder {
    parts: Vec<Part>,
    braces: Option<Braces>,
}

/// The alternatives that are complete, and the one that may go on.
#[derive(Drop)]
pub struct Braces {
    complete: Vec<Alternative>,
    current: Vec<Simple>,
}

impl Builder {
    /// Goes on over one more token.
    fn step(self, alloc: Global, piece: Piece) -> Result<Builder, OutOfMemory>
        ensures inside { IfOk result (λ next. has_braces next.braces ≡ inside_after piece (has_braces self.braces)) }
        ensures built { IfOk result (λ next. (tokens : List Piece) → Fits (has_braces self.braces) piece → IsBuilt self tokens → IsBuilt next (tokens ++ piece ∷ [])) }
    {
        let Builder { parts, braces } = self;
        match braces {
            None => step_outside(alloc, parts, piece),
            Some(braces) => step_inside(alloc, parts, braces, piece),
        }
    }
}

fn step_outside(alloc: Global, parts: Vec<Part>, piece: Piece) -> Result<Builder, OutOfMemory>
    ensures inside { IfOk result (λ next. has_braces next.braces ≡ inside_after piece false) }
    ensures built { IfOk result (λ next. (tokens : List Piece) → Fits false piece → AreParts parts.items tokens → IsBuilt next (tokens ++ piece ∷ [])) }
{
    match piece {
        Piece::Open => Ok(opened(alloc, parts)),
        Piece::Single(simple) => with_plain(parts, simple),
        Piece::Escaped(c) => with_plain(parts, Simple::Literal(c)),
        Piece::Comma => with_plain(parts, Simple::Literal(',')),
        Piece::Close | Piece::Bad(_) => Ok(Builder {
            parts,
            braces: None,
        }),
    }
}

fn step_inside(
    alloc: Global,
    parts: Vec<Part>,
    braces: Braces,
    piece: Piece,
) -> Result<Builder, OutOfMemory>
    ensures inside { IfOk result (λ next. has_braces next.braces ≡ inside_after piece true) }
    ensures built { IfOk result (λ next. (tokens : List Piece) → Fits true piece → AreBuilt parts.items (Some braces) tokens → IsBuilt next (tokens ++ piece ∷ [])) }
{
    match piece {
        Piece::Close => closed(parts, braces),
        Piece::Comma => with_comma(alloc, parts, braces),
        Piece::Single(simple) => with_simple(parts, braces, simple),
        Piece::Escaped(c) => with_simple(parts, braces, Simple::Literal(c)),
        Piece::Open | Piece::Bad(_) => Ok(Builder {
            parts,
            braces: Some(braces),
        }),
    }
}

/// Opens braces.
fn opened(alloc: Global, parts: Vec<Part>) -> Builder
    ensures inside { has_braces result.braces ≡ true }
    ensures built { (tokens : List Piece) → AreParts parts.items tokens → IsBuilt result (tokens ++ Open ∷ []) }
{
    let braces = Braces {
        complete: Vec::new(alloc),
        current: Vec::new(alloc),
    };
    Builder {
        parts,
        braces: Some(braces),
    }
}

/// Adds a part outside braces.
fn with_plain(mut parts: Vec<Part>, simple: Simple) -> Result<Builder, OutOfMemory>
    ensures inside { IfOk result (λ next. has_braces next.braces ≡ false) }
    ensures built { IfOk result (λ next. (tokens : List Piece) (piece : Piece) → IsPart (Plain simple) (piece ∷ []) → AreParts parts.items tokens → IsBuilt next (tokens ++ piece ∷ [])) }
{
    parts.push(Part::Plain(simple))?;
    Ok(Builder {
        parts,
        braces: None,
    })
}

/// Closes braces.
fn closed(mut parts: Vec<Part>, braces: Braces) -> Result<Builder, OutOfMemory>
    ensures inside { IfOk result (λ next. has_braces next.braces ≡ false) }
    ensures built { IfOk result (λ next. (tokens : List Piece) → AreBuilt parts.items (Some braces) tokens → IsBuilt next (tokens ++ Close ∷ [])) }
{
    let Braces {
        mut complete,
        current,
    } = braces;
    complete.push(Alternative::new(current))?;
    parts.push(Part::Choice(Choice::new(complete)))?;
    Ok(Builder {
        parts,
        braces: None,
    })
}

/// Begins the next alternative.
fn with_comma(alloc: Global, parts: Vec<Part>, braces: Braces) -> Result<Builder, OutOfMemory>
    ensures inside { IfOk result (λ next. has_braces next.braces ≡ true) }
    ensures built { IfOk result (λ next. (tokens : List Piece) → AreBuilt parts.items (Some braces) tokens → IsBuilt next (tokens ++ Comma ∷ [])) }
{
    let Braces {
        mut complete,
        current,
    } = braces;
    complete.push(Alternative::new(current))?;
    let braces = Braces {
        complete,
        current: Vec::new(alloc),
    };
    Ok(Builder {
        parts,
        braces: Some(braces),
    })
}

/// Adds a part inside braces.
fn with_simple(parts: Vec<Part>, braces: Braces, simple: Simple) -> Result<Builder, OutOfMemory>
    ensures inside { IfOk result (λ next. has_braces next.braces ≡ true) }
    ensures built { IfOk result (λ next. (tokens : List Piece) (piece : Piece) → IsSimple simple piece → AreBuilt parts.items (Some braces) tokens → IsBuilt next (tokens ++ piece ∷ [])) }
{
    let Braces {
        complete,
        mut current,
    } = braces;
    current.push(simple)?;
    let braces = Braces { complete, current };
    Ok(Builder {
        parts,
        braces: Some(braces),
    })
}
