//! Laws on work folders. Each is the contract of a function that does nothing.

ghost use Rattle.std.specs.Prelude.{◌≡◌, ◌≢◌};
ghost use Rattle.bisync_device.specs.WorkFolder.{Held, WorkFolder, at, with_held, IsImage, IsSettled};
ghost use Rattle.bisync_device.specs.WorkImages.{ReadsAlike};
ghost use Rattle.bisync_device.specs.declared.works.WorkName.{WorkName};

/// A change of a name stands there until the next, and leaves each other name.
pub fn a_change_of_one_name()
    ensures twice { (n : WorkName) (a b : Held) (f : WorkFolder) → with_held n a (with_held n b f) ≡ with_held n a f }
    ensures own { (n : WorkName) (f : WorkFolder) → with_held n (at f n) f ≡ f }
    ensures there { (n : WorkName) (h : Held) (f : WorkFolder) → at (with_held n h f) n ≡ h }
    ensures others { (n other : WorkName) (h : Held) (f : WorkFolder) → other ≢ n → at (with_held n h f) other ≡ at f other }
{}

/// Every folder is an image of itself.
pub fn own_image()
    ensures { (f : WorkFolder) → IsImage f f }
{}

/// An image of an image is an image of the first.
pub fn image_of_image()
    ensures { (f g h : WorkFolder) → IsImage f g → IsImage g h → IsImage f h }
{}

/// In an image of a settled folder the listings of a base and the filters file are the same.
pub fn settled_image_reads_alike()
    ensures { (f g : WorkFolder) → IsSettled f → IsImage f g → ReadsAlike f g }
{}

/// An image of a settled folder is settled.
pub fn settled_image()
    ensures { (f g : WorkFolder) → IsSettled f → IsImage f g → IsSettled g }
{}
