ghost use Rattle.std.specs.Prelude.{◌<◌};

use crate::{
    Header, ListingFault, ListingReader, ListingWriter, read_listing, text_len, write_listing,
};
use bisync_text::Text;
use bisync_tree::{Compare, Entry, Limits, Listing, Window};
use std::alloc::Global;
use std::test::Fail;

const EMPTY: &[u8] = b"# bisync listing v2 stamp 1 fields size,modtime\n# end 0 files\n";

const OLD: &[u8] = b"# bisync listing v1 stamp 1\n";

const SIX_FILES: &[u8] = b"# bisync listing v2 stamp 2 fields size,modtime
- 1 - - 1970-01-01T00:00:10.000000000+0000 \"a.txt\"
- 3 - - 1970-01-01T00:00:30.000000000+0000 \"b.txt\"
- 4 - - 1970-01-01T00:00:10.000000000+0000 \"docs/d.txt\"
- 5 - - 1970-01-01T00:00:10.000000000+0000 \"docs/e.txt\"
- 6 - - 1970-01-01T00:00:10.000000000+0000 \"k.txt\"
- 3 - - 1970-01-01T00:00:20.000000000+0000 \"n.txt\"
# end 6 files
";

// The MD5 digest of `abc`, a path with escapes, and times before 1970.
const DIGESTS: &[u8] = b"# bisync listing v2 stamp 999999999999999999 fields size,modtime,checksum
- 0 md5:d41d8cd98f00b204e9800998ecf8427e - 1969-12-31T23:59:59.999999999+0000 \"a\\x22\\x5c\\x0a\\x7f b\"
- 18446744073709551615 md5:900150983cd24fb0d6963f7d28e17f72 - 1677-09-21T00:12:43.145224192+0000 \"\xc3\xa9\"
# end 2 files
";

const ABC: [u8; 16] = [
    0x90, 0x01, 0x50, 0x98, 0x3c, 0xd2, 0x4f, 0xb0, 0xd6, 0x96, 0x3f, 0x7d, 0x28, 0xe1, 0x7f, 0x72,
];

fn fields(size: bool, time: bool, hash: bool) -> Compare {
    Compare {
        size,
        time,
        hash,
        window: Window::Ns1,
    }
}

fn within(listing: u64) -> Limits {
    Limits {
        listing,
        ..Limits::REAL
    }
}

fn fault_of(alloc: Global, text: &[u8], limit: u64) -> Option<ListingFault> {
    read_listing(alloc, text, &within(limit)).err()
}

// A text of version 2 that is read and written again, with the length that is told of it.
fn written(alloc: Global, text: &[u8]) -> Result<Option<(Text, u64)>, ListingFault> {
    let (header, listing) = read_listing(alloc, text, &Limits::REAL)?;
    if header.fields.is_none() {
        return Ok(None);
    }
    let len = text_len(&header, &listing);
    Ok(Some((write_listing(alloc, &header, &listing)?, len)))
}

// The same text in pieces of that size.
fn pieces(alloc: Global, text: &[u8], size: usize) -> Result<Vec<u8>, ListingFault>
    requires { 0 < size }
{
    let (header, listing) = read_listing(alloc, text, &Limits::REAL)?;
    let Ok(mut buffer) = vec![in alloc; 0u8; size] else {
        return Err(ListingFault::OutOfMemory);
    };
    let mut whole = Vec::new(alloc);
    if header.fields.is_none() {
        return Ok(whole);
    }
    let mut writer = ListingWriter::new(&header, &listing);
    for _ in 0..text.len() + 1 {
        let count = writer.fill(&mut buffer);
        if whole.extend_from_slice(&buffer[..count]).is_err() {
            return Err(ListingFault::OutOfMemory);
        }
    }
    Ok(whole)
}

#[test]
fn what_is_read_is_written_again(rt: HostRuntime) -> Result<(), Fail> {
    let cases = [(EMPTY, 62), (SIX_FILES, 378), (DIGESTS, 290)];
    for (text, len) in cases {
        let again = written(rt.alloc(), text)?;
        assert!(rt; again.is_some());
        if let Some((again, told)) = again {
            assert_eq!(rt; again.as_bytes(), text);
            assert_eq!(rt; told, len);
        }
    }
    Ok(())
}

#[test]
fn an_empty_listing_has_two_lines(rt: HostRuntime) -> Result<(), Fail> {
    let header = Header {
        stamp: 1,
        fields: Some(Compare {
            size: true,
            time: true,
            hash: false,
            window: Window::Ns1,
        }),
    };
    let listing = Listing::new(rt.alloc());
    let text = write_listing(rt.alloc(), &header, &listing)?;
    assert_eq!(rt; text.as_bytes(), EMPTY);
    assert_eq!(rt; text_len(&header, &listing), 62);
    Ok(())
}

#[test]
fn tells_the_first_bad_line(rt: HostRuntime) {
    let cases: [(&[u8], u64, u64); 29] = [
        (b"", 62, 1),
        (b"\n", 62, 1),
        (b"# bisync listing v1 stamp 01\n", 99, 1),
        (OLD, 27, 1),
        (b"# bisync listing v1 stamp 1", 28, 1),
        (b"# bisync listing v1 stamp 0\n", 28, 1),
        (b"# bisync listing v1 stamp 1000000000000000000\n", 99, 1),
        (b"# bisync listing v1 stamp 1\n\n", 99, 2),
        (b"# bisync listing v1 stamp 1\n# end 0 files\n", 99, 2),
        (b"# bisync listing v3 stamp 1\n", 99, 1),
        (
            b"# bisync listing v2 stamp 1 fields modtime,size\n# end 0 files\n",
            99,
            1,
        ),
        (
            b"# bisync listing v2 stamp 1 fields \n# end 0 files\n",
            99,
            1,
        ),
        (b"# bisync listing v2 stamp 1 fields size,modtime\n", 99, 2),
        (
            b"# bisync listing v2 stamp 1 fields size,modtime\n# end 1 files\n",
            99,
            2,
        ),
        (
            b"# bisync listing v2 stamp 1 fields size,modtime\n# end 0 files",
            99,
            2,
        ),
        (
            b"# bisync listing v2 stamp 1 fields size,modtime\n# end 00 files\n",
            99,
            2,
        ),
        (
            b"# bisync listing v2 stamp 1 fields size,modtime\n# end 0 files\nx",
            99,
            3,
        ),
        (
            b"# bisync listing v2 stamp 1 fields size,modtime\n# end 0 files\n# end 0 files\n",
            99,
            3,
        ),
        (EMPTY, 61, 2),
        (EMPTY, 48, 2),
        (EMPTY, 47, 1),
        (
            b"# bisync listing v1 stamp 1\n- 1 - - 1970-01-01T00:00:10.000000000+0000 \"a\"\n- 1 - - 1970-01-01T00:00:10.000000000+0000 \"a\"\n",
            999,
            3,
        ),
        (
            b"# bisync listing v1 stamp 1\n- 1 - - 1970-01-01T00:00:10.000000000+0000 \"b\"\n- 1 - - 1970-01-01T00:00:10.000000000+0000 \"a\"\n",
            999,
            3,
        ),
        (
            b"# bisync listing v1 stamp 1\n- 18446744073709551616 - - 1970-01-01T00:00:10.000000000+0000 \"a\"\n",
            999,
            2,
        ),
        (
            b"# bisync listing v1 stamp 1\n- 1 - - 1970-01-01T00:00:10.000000000+0000 \"../k\"\n",
            999,
            2,
        ),
        (
            b"# bisync listing v1 stamp 1\n- 1 - - 1970-01-01T00:00:10.000000000+0000 \"a\\x41\"\n",
            999,
            2,
        ),
        (
            b"# bisync listing v2 stamp 1 fields checksum\n- 0 md5:d41d8cd98f00b204E9800998ecf8427e - 1970-01-01T00:00:10.000000000+0000 \"a\"\n# end 1 files\n",
            999,
            2,
        ),
        // A digest where checksums aren't compared, and none where they are.
        (
            b"# bisync listing v2 stamp 1 fields size\n- 0 md5:d41d8cd98f00b204e9800998ecf8427e - 1970-01-01T00:00:10.000000000+0000 \"a\"\n# end 1 files\n",
            999,
            2,
        ),
        (
            b"# bisync listing v2 stamp 1 fields checksum\n- 0 - - 1970-01-01T00:00:10.000000000+0000 \"a\"\n# end 1 files\n",
            999,
            2,
        ),
    ];
    for (text, limit, line) in cases {
        assert_eq!(rt;
            fault_of(rt.alloc(), text, limit),
            Some(ListingFault::BadLine(line))
        );
    }
}

#[test]
fn reads_version_1(rt: HostRuntime) -> Result<(), Fail> {
    let (header, listing) = read_listing(rt.alloc(), OLD, &within(28))?;
    assert_eq!(rt;
        header,
        Header {
            stamp: 1,
            fields: None
        }
    );
    assert_eq!(rt; listing.len(), 0);
    Ok(())
}

#[test]
fn what_is_read_byte_by_byte_is_read_at_once(rt: HostRuntime) -> Result<(), Fail> {
    for text in [SIX_FILES, DIGESTS, OLD, EMPTY] {
        let mut reader = ListingReader::new(rt.alloc(), &Limits::REAL)?;
        for byte in text {
            reader.feed(&[*byte])?;
        }
        let (header, listing) = reader.end()?;
        let (whole_header, whole) = read_listing(rt.alloc(), text, &Limits::REAL)?;
        assert_eq!(rt; header, whole_header);
        assert_eq!(rt; listing.len(), whole.len());
        for i in 0..listing.len() {
            if i < whole.len() {
                assert_eq!(rt; listing.path_at(i).as_bytes(), whole.path_at(i).as_bytes());
                assert_eq!(rt; *listing.entry_at(i), *whole.entry_at(i));
            }
        }
    }
    Ok(())
}

#[test]
fn a_line_that_is_cut_off_is_told_at_the_end(rt: HostRuntime) -> Result<(), Fail> {
    let text = b"# bisync listing v1 stamp 1\n- 1 - - 1970-01-01T00:00:01.000000000+0000 \"k";
    let mut whole = ListingReader::new(rt.alloc(), &Limits::REAL)?;
    whole.feed(text)?;
    assert_eq!(rt; whole.end().err(), Some(ListingFault::BadLine(2)));
    let mut bytes = ListingReader::new(rt.alloc(), &Limits::REAL)?;
    for byte in text {
        bytes.feed(&[*byte])?;
    }
    assert_eq!(rt; bytes.end().err(), Some(ListingFault::BadLine(2)));
    Ok(())
}

#[test]
fn a_bad_line_stays(rt: HostRuntime) -> Result<(), Fail> {
    let mut reader = ListingReader::new(rt.alloc(), &within(28))?;
    reader.feed(OLD)?;
    assert_eq!(rt; reader.feed(b"-"), Err(ListingFault::BadLine(2)));
    assert_eq!(rt; reader.feed(b""), Err(ListingFault::BadLine(2)));
    assert_eq!(rt; reader.end().err(), Some(ListingFault::BadLine(2)));
    Ok(())
}

#[test]
fn a_line_that_is_too_long_is_told_before_its_newline(rt: HostRuntime) -> Result<(), Fail> {
    let letters = vec![in rt.alloc(); b'a'; 16_483]?;
    let mut reader = ListingReader::new(rt.alloc(), &Limits::REAL)?;
    reader.feed(&letters)?;
    assert_eq!(rt; reader.feed(b"a"), Err(ListingFault::BadLine(1)));
    Ok(())
}

#[test]
fn what_was_read_is_as_it_stands_in_the_text(rt: HostRuntime) -> Result<(), Fail> {
    let (header, listing) = read_listing(rt.alloc(), DIGESTS, &Limits::REAL)?;
    let expected = Header {
        stamp: 999_999_999_999_999_999,
        fields: Some(fields(true, true, true)),
    };
    assert_eq!(rt; header, expected);
    assert_eq!(rt; listing.len(), 2);
    if listing.len() == 2 {
        assert_eq!(rt; listing.path_at(0).as_bytes(), b"a\"\\\n\x7f b".as_slice());
        assert_eq!(rt; listing.entry_at(0).time, -1);
        let entry = Entry {
            size: u64::MAX,
            time: i64::MIN,
            hash: Some(ABC),
        };
        assert_eq!(rt; listing.path_at(1).as_bytes(), b"\xc3\xa9".as_slice());
        assert_eq!(rt; *listing.entry_at(1), entry);
    }
    Ok(())
}

#[test]
fn pieces_of_any_size_are_the_text(rt: HostRuntime) -> Result<(), Fail> {
    assert_eq!(rt; pieces(rt.alloc(), DIGESTS, 1)?.as_slice(), DIGESTS);
    assert_eq!(rt; pieces(rt.alloc(), DIGESTS, 7)?.as_slice(), DIGESTS);
    assert_eq!(rt; pieces(rt.alloc(), DIGESTS, 4096)?.as_slice(), DIGESTS);
    Ok(())
}
