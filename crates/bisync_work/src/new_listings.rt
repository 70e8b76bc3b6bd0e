ghost use Rattle.std.specs.Prelude.{◌≡◌, ◌≤◌, ℕ, length, IsTrue, OnOk, is_err};
ghost use Rattle.bisync_listing.specs.Spelling.{listing_text};
ghost use Rattle.bisync_listing.specs.ListingText.{IsListingText};
ghost use Rattle.bisync_listing.specs.Writing.{MayBeWritten};
ghost use Rattle.bisync_device.specs.WorkFolder.{Absent, Kept, with_held};
ghost use Rattle.bisync_work.specs.WorkCalls.{AreWorkCalls};
ghost use Rattle.bisync_work.specs.NewListings.{AreWritten, but_new};

use bisync_device::{Failed, Work, WorkName};
use bisync_listing::{Header, ListingWriter};
use bisync_tree::Listing;

const PIECE: usize = 4096;

/// Writes the text of a listing under a name and syncs it.
fn write_synced<W: Work>(
    work: &mut W,
    name: WorkName,
    header: &Header,
    listing: &Listing,
) -> Result<(), Failed>
    requires { MayBeWritten header.now listing.now }
    ensures written { IsTrue W.tells → OnOk result ((W.state work.new).folder ≡ with_held name (Kept (listing_text header.now listing.now)) (W.state work.old).folder) }
    ensures read_again { OnOk result ((limit : ℕ) → length (listing_text header.now listing.now) ≤ limit → IsListingText limit header.now listing.now (listing_text header.now listing.now)) }
    ensures others { IsTrue W.tells → with_held name Absent (W.state work.new).folder ≡ with_held name Absent (W.state work.old).folder }
    ensures calls { AreWorkCalls (is_err result) (W.state work.old) (W.state work.new) }
{
    work.begin(name)?;
    let mut writer = ListingWriter::new(header, listing);
    let mut buffer = [0u8; PIECE];
    'pieces: loop {
        let count = writer.fill(&mut buffer);
        if count == 0 {
            work.sync()?;
            return Ok(());
        }
        work.append(&buffer[..count])?;
    }
}

/// Writes the texts of two listings under `1.lst-new` and `2.lst-new`, and syncs each. No other name
/// is touched. It takes no memory. Each text is read again under each limit that it does not pass.
pub fn write_new<W: Work>(
    work: &mut W,
    header: &Header,
    one: &Listing,
    two: &Listing,
) -> Result<(), Failed>
    requires one { MayBeWritten header.now one.now }
    requires two { MayBeWritten header.now two.now }
    ensures written { IsTrue W.tells → OnOk result (AreWritten header.now one.now two.now (W.state work.new).folder) }
    ensures read_again1 { OnOk result ((limit : ℕ) → length (listing_text header.now one.now) ≤ limit → IsListingText limit header.now one.now (listing_text header.now one.now)) }
    ensures read_again2 { OnOk result ((limit : ℕ) → length (listing_text header.now two.now) ≤ limit → IsListingText limit header.now two.now (listing_text header.now two.now)) }
    ensures rest { IsTrue W.tells → but_new (W.state work.new).folder ≡ but_new (W.state work.old).folder }
    ensures calls { AreWorkCalls (is_err result) (W.state work.old) (W.state work.new) }
{
    write_synced(work, WorkName::OneNew, header, one)?;
    write_synced(work, WorkName::TwoNew, header, two)
}
