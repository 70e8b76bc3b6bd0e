//! Words that one space ends, and fixed fronts.

ghost use Rattle.std.specs.Prelude.{◌≡◌, ℕ, List, ◌∷◌, ◌++◌, IfSome, IfNone};
ghost use Rattle.bisync_listing.specs.Words.{Lacks};

/// The bytes before the first space, and those after it.
pub(crate) fn word(text: &[u8]) -> Option<(&[u8], &[u8])>
    ensures found { IfSome result (λ x. (text.now ≡ x.0.now ++ 32 ∷ x.1.now) × Lacks 32 x.0.now) }
    ensures none { IfNone result (Lacks 32 text.now) }
{
    let at = text.iter().position(|b| *b == b' ')?;
    Some((&text[..at], &text[at + 1..]))
}

/// What follows the front of a text, where it has that front.
pub(crate) fn after<'a>(front: &[u8], text: &'a [u8]) -> Option<&'a [u8]>
    ensures found { IfSome result (λ rest. text.now ≡ front.now ++ rest.now) }
    ensures none { IfNone result ((rest : List ℕ) → text.now ≡ front.now ++ rest → ⊥) }
{
    text.strip_prefix(front)
}
