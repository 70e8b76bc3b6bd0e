//! What the definitions of this crate say together.

ghost use Rattle.std.specs.Prelude.{◌≡◌, ◌<◌, ◌^◌, ◌++◌, ℕ, List};
ghost use Rattle.bisync_tree.specs.Rows.{Rows};
ghost use Rattle.bisync_listing.specs.ListingText.{IsListingText};
ghost use Rattle.bisync_listing.specs.FirstBadLine.{IsFirstBadLine, IsSettled};
ghost use Rattle.bisync_listing.specs.declared.headers.Header.{Header};

/// A law: a text is that of one header and one listing.
pub fn listing_texts_are_apart()
    ensures { (limit other : ℕ) (g h : Header) (rows others : Rows) (text : List ℕ) → limit < 2 ^ 64 → other < 2 ^ 64
        → IsListingText limit g rows text → IsListingText other h others text → (g ≡ h) × (rows ≡ others) }
{}

/// A law: a text has one first bad line, and a listing text has none.
pub fn first_bad_lines_are_unique()
    ensures one { (limit m n : ℕ) (text : List ℕ) → IsFirstBadLine limit text m → IsFirstBadLine limit text n → m ≡ n }
    ensures none { (limit n : ℕ) (h : Header) (rows : Rows) (text : List ℕ) → IsListingText limit h rows text → IsFirstBadLine limit text n → ⊥ }
{}

/// A law: a bad line of which it is seen how it ends stays the first bad line, whatever follows.
pub fn settled_bad_lines_stay()
    ensures { (limit n : ℕ) (text more : List ℕ) → limit < 2 ^ 64 → IsFirstBadLine limit text n → IsSettled limit text n
        → IsFirstBadLine limit (text ++ more) n × IsSettled limit (text ++ more) n }
{}
