//! What the definitions of the base and the moves say together. Each law is the contract of a
//! function that does nothing.

ghost use Rattle.std.specs.Prelude.{◌≡◌, ◌⊎◌, ◌<◌, ◌^◌, ℕ, Option, None};
ghost use Rattle.bisync_tree.specs.Rows.{Rows};
ghost use Rattle.bisync_listing.specs.Spelling.{listing_text};
ghost use Rattle.bisync_listing.specs.ListingText.{IsListingText};
ghost use Rattle.bisync_listing.specs.declared.headers.Header.{Header};
ghost use Rattle.bisync_device.specs.WorkFolder.{WorkFolder, IsImage, IsSettled};
ghost use Rattle.bisync_device.specs.declared.works.WorkName.{WorkName};
ghost use Rattle.bisync_work.specs.Base.{Base, HasBaseIn, HasNoBase, IsBase};
ghost use Rattle.bisync_work.specs.Stamps.{IsUnused, IsNewStamp};
ghost use Rattle.bisync_work.specs.BadNames.{IsFirstBad, base_names};
ghost use Rattle.bisync_work.specs.Moves.{KeepsBase, Falls, IsFallen, SameListings, IsReady};
ghost use Rattle.bisync_work.specs.NewListings.{AreWritten};
ghost use Rattle.bisync_work.specs.declared.bases.Pair.{Pair};
ghost use Rattle.bisync_work.specs.declared.bases.Pair.TheVariants.{Old};

/// A law: a folder has one base in one pair of names, or none.
pub fn one_base()
    ensures base { (limit : ℕ) → limit < 2 ^ 64 → (f : WorkFolder) (a b : Option Base) → IsBase limit f a → IsBase limit f b → a ≡ b }
    ensures pair { (limit : ℕ) (f : WorkFolder) (p q : Pair) (a b : Base) → HasBaseIn limit f p a → HasBaseIn limit f q b → p ≡ q }
{}

/// A law: a folder has one new stamp.
pub fn one_new_stamp()
    ensures { (limit : ℕ) (f : WorkFolder) (m n : ℕ) → IsNewStamp limit f m → IsNewStamp limit f n → m ≡ n }
{}

/// A law: a folder has one first bad name with one first bad line, or none.
pub fn one_bad_name()
    ensures { (limit : ℕ) (f : WorkFolder) (a b : Option (WorkName × ℕ)) → IsFirstBad limit f base_names a → IsFirstBad limit f base_names b → a ≡ b }
{}

/// A law: where the same stands under the four names of a base, the base is the same, in the same
/// pair, and so are the stamps that are unused, the new stamp and the first bad name.
pub fn same_listings_same_base()
    ensures keeps { (limit : ℕ) (f g : WorkFolder) → SameListings f g → KeepsBase limit f g }
    ensures pair { (limit : ℕ) (f g : WorkFolder) → SameListings f g → (pair : Pair) (base : Base) → HasBaseIn limit f pair base → HasBaseIn limit g pair base }
    ensures stamp { (limit : ℕ) (f g : WorkFolder) → SameListings f g → (n : ℕ) → IsNewStamp limit f n → IsNewStamp limit g n }
    ensures bad { (limit : ℕ) (f g : WorkFolder) → SameListings f g → (bad : Option (WorkName × ℕ)) → IsFirstBad limit f base_names bad → IsFirstBad limit g base_names bad }
{}

/// A law: an image of a settled folder has the same base, in the same pair.
pub fn image_keeps_the_base()
    ensures keeps { (limit : ℕ) (f g : WorkFolder) → IsSettled f → IsImage f g → KeepsBase limit f g }
    ensures pair { (limit : ℕ) (f g : WorkFolder) → IsSettled f → IsImage f g → (pair : Pair) (base : Base) → HasBaseIn limit f pair base → HasBaseIn limit g pair base }
{}

/// A law: what keeps the base, and what lets it fall, may be done one after the other.
pub fn moves_follow_one_another()
    ensures keeps { (limit : ℕ) (f g h : WorkFolder) → KeepsBase limit f g → KeepsBase limit g h → KeepsBase limit f h }
    ensures falls { (f g h : WorkFolder) → Falls f g → Falls g h → Falls f h }
{}

/// A law: without a base neither of them makes one.
pub fn no_base_stays()
    ensures kept { (limit : ℕ) (f g : WorkFolder) → HasNoBase limit f → KeepsBase limit f g → HasNoBase limit g }
    ensures fallen { (limit : ℕ) (f g : WorkFolder) → HasNoBase limit f → Falls f g → HasNoBase limit g }
{}

/// A law: a fall that was done leaves no base, and no stamp in use.
pub fn fallen_has_no_base()
    ensures none { (limit : ℕ) (f g : WorkFolder) → IsFallen f g → HasNoBase limit g }
    ensures unused { (limit n : ℕ) (f g : WorkFolder) → IsFallen f g → IsUnused limit g n }
{}

/// A law: new listings that were written within the limit, of a stamp that is unused, are ready for
/// the switch, where the base is that of the `-old` names or there is none.
pub fn written_is_ready()
    ensures { (limit : ℕ) (f : WorkFolder) (header : Header) (one two : Rows) → AreWritten header one two f
        → IsListingText limit header one (listing_text header one) → IsListingText limit header two (listing_text header two)
        → IsUnused limit f header.stamp → ((base : Base) × HasBaseIn limit f Old base) ⊎ HasNoBase limit f
        → IsReady limit f (record { header = header; one = one; two = two }) }
{}
