//! A listing text, read and written again.

ghost use Rattle.std.specs.Prelude.{◌≡◌, true, is_some, IfOk};
ghost use Rattle.bisync_listing.specs.Writing.{MayBeWritten};

use bisync_listing::{Header, ListingFault, ListingReader, ListingWriter};
use bisync_tree::{Limits, Listing};
use std::alloc::Global;
use std::io;
use std::process::ExitCode;
use std::rt::Clock;
use std::time::Instant;

/// The bytes of a piece.
const PIECE: usize = 65_536;

/// Times the text being read in pieces, and written again in pieces.
pub fn time<R: AllocGlobal + Print + Eprint + Clock>(rt: &R, text: &[u8]) -> io::Result<ExitCode> {
    let start = Instant::now(rt)?;
    let Ok((header, listing)) = read(rt.alloc(), text) else {
        println!(rt; "no listing of version 2")?;
        return Ok(ExitCode::from(1));
    };
    eprintln!(rt; "read in {} microseconds", start.elapsed(rt)?.as_micros())?;
    let start = Instant::now(rt)?;
    let Some(bytes) = written_len(&header, &listing) else {
        println!(rt; "no listing of version 2")?;
        return Ok(ExitCode::from(1));
    };
    eprintln!(rt;
        "written in {} microseconds",
        start.elapsed(rt)?.as_micros()
    )?;
    println!(rt; "{} files, {bytes} bytes", listing.len())?;
    Ok(ExitCode::SUCCESS)
}

fn read(alloc: Global, text: &[u8]) -> Result<(Header, Listing), ListingFault>
    ensures { IfOk result (λ x. is_some x.0.fields ≡ true → MayBeWritten x.0 x.1) }
{
    let mut reader = ListingReader::new(alloc, &Limits::REAL)?;
    for piece in text.chunks(PIECE) {
        reader.feed(piece)?;
    }
    reader.end()
}

/// The number of bytes that were written in pieces. None for a header of version 1.
fn written_len(header: &Header, listing: &Listing) -> Option<u64>
    requires { is_some header.now.fields ≡ true → MayBeWritten header.now listing.now }
{
    header.fields?;
    let mut writer = ListingWriter::new(header, listing);
    let mut buffer = [0u8; PIECE];
    let mut bytes: u64 = 0;
    for _ in 0..u64::MAX {
        let count = writer.fill(&mut buffer);
        if count == 0 {
            break;
        }
        bytes = bytes.saturating_add(count as u64);
    }
    Some(bytes)
}
