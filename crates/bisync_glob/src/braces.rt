ghost use Rattle.std.specs.Prelude.{◌≡◌, ◌<◌, ◌↔◌, true, false, IsTrue, MatchOption, length};
ghost use Rattle.bisync_glob.specs.declared.faults.FaultKind.{FaultKind};
ghost use Rattle.bisync_glob.specs.Faults.{NoFaultBelow, IsFault, IsInside, IsUnclosed, IsLeftmostFault};
ghost use Rattle.bisync_glob.specs.Building.{inside_after};

use crate::FaultKind;
use crate::tokens::{Piece, Token};

/// The index of the leftmost token at fault, and its kind.
pub fn first_fault(tokens: &[Token]) -> Option<(usize, FaultKind)>
    ensures { MatchOption result (NoFaultBelow tokens.now (length tokens.now)) (λ found. IsLeftmostFault tokens.now found.0 found.1) }
{
    let mut inside = false;
    for k in 0..tokens.len() {
        if let Some(kind) = fault_at(tokens, k, inside) {
            return Some((k, kind));
        }
        inside = inside_after(&tokens[k].piece, inside);
    }
    None
}

/// The fault of one token.
fn fault_at(tokens: &[Token], k: usize, inside: bool) -> Option<FaultKind>
    requires index { k < length tokens.now }
    requires inside { IsTrue inside ↔ IsInside tokens.now k }
    ensures { MatchOption result ((kind : FaultKind) → IsFault tokens.now k kind → ⊥) (λ kind. IsFault tokens.now k kind) }
{
    match &tokens[k].piece {
        Piece::Bad(kind) => Some(*kind),
        Piece::Open if inside || is_unclosed(tokens, k) => Some(FaultKind::Brace),
        Piece::Close if !inside => Some(FaultKind::Brace),
        _ => None,
    }
}

/// Whether no `}` stands behind the token `k`.
fn is_unclosed(tokens: &[Token], k: usize) -> bool
    requires { k < length tokens.now }
    ensures unclosed { result ≡ true → IsUnclosed tokens.now k }
    ensures closed { result ≡ false → IsUnclosed tokens.now k → ⊥ }
{
    for i in k + 1..tokens.len() {
        if let Piece::Close = tokens[i].piece {
            return false;
        }
    }
    true
}

/// Whether what follows a token stands inside braces.
fn inside_after(piece: &Piece, inside: bool) -> bool
    ensures { result ≡ inside_after piece.now inside }
{
    match piece {
        Piece::Open => true,
        Piece::Close => false,
        Piece::Single(_) | Piece::Escaped(_) | Piece::Comma | Piece::Bad(_) => inside,
    }
}
