ghost use Rattle.std.specs.Prelude.{false, [], None};
ghost use Rattle.std.specs.FinMap as finmap;
ghost use Rattle.bisync_tree.specs.declared.windows.Window.TheVariants.{Ns1};

use crate::{ObserveFault, Seen, narrow, observe};
use bisync_device::{Failed, ListFault, Remote};
use bisync_filter::Rules;
use bisync_memory::MemRemote;
use bisync_text::{Path, Text};
use bisync_tree::{Compare, Entry, File, Item, Limits, Listing, Window};
use std::alloc::Global;
use std::test::Fail;

const BY_SIZE: Compare = Compare {
    size: true,
    time: true,
    hash: false,
    window: Window::Ns1,
};

const BY_DIGEST: Compare = Compare {
    size: true,
    time: false,
    hash: true,
    window: Window::Ns1,
};

/// The MD5 digest of `a`, from RFC 1321.
const DIGEST_OF_A: [u8; 16] = [
    0x0c, 0xc1, 0x75, 0xb9, 0xc0, 0xf1, 0xb6, 0xa8, 0x31, 0xc3, 0x99, 0xe2, 0x69, 0x77, 0x26, 0x61,
];

fn remote_of(alloc: Global, files: &[(&str, &str)]) -> Result<MemRemote, Fail> {
    let mut remote = MemRemote::new(alloc);
    for (path, bytes) in files {
        let path = Path::read(alloc, path.as_bytes())?;
        let bytes = Text::from_bytes(alloc, bytes.as_bytes())?;
        remote.put(&path, &File { bytes, time: 7 })?;
    }
    Ok(remote)
}

fn seen<R: Remote>(
    alloc: Global,
    remote: &mut R,
    rules: &str,
    compare: &Compare,
    limits: &Limits,
) -> Result<Result<Seen, ObserveFault>, Fail> {
    let rules = Rules::read(alloc, rules.as_bytes())?;
    Ok(observe(alloc, remote, &rules, compare, limits))
}

fn whole<R: Remote>(
    alloc: Global,
    remote: &mut R,
    rules: &str,
    compare: &Compare,
) -> Result<Seen, Fail> {
    Ok(seen(alloc, remote, rules, compare, &Limits::REAL)?.map_err(|_| Failed)?)
}

type Outcome = Result<Seen, ObserveFault>;

fn too_many(outcome: &Outcome) -> Option<(u64, u64)> {
    match outcome {
        Err(ObserveFault::TooMany(files, bytes)) => Some((*files, *bytes)),
        _ => None,
    }
}

fn is_bad_path(outcome: &Outcome, text: &str) -> bool {
    match outcome {
        Err(ObserveFault::BadPath(bad)) => bad.as_bytes() == text.as_bytes(),
        _ => false,
    }
}

/// The size listed and the size read of a file that moved.
fn moved_sizes(outcome: &Outcome) -> Option<(u64, Option<u64>)> {
    match outcome {
        Err(ObserveFault::Moved(_, listed, read)) => {
            Some((listed.size, read.as_ref().map(|entry| entry.size)))
        }
        _ => None,
    }
}

fn has_row(listing: &Listing, i: usize, path: &str, entry: &Entry) -> bool {
    i < listing.len()
        && listing.path_at(i).as_bytes() == path.as_bytes()
        && listing.entry_at(i) == entry
}

#[test]
fn a_side_is_seen_with_its_digests(rt: HostRuntime) -> Result<(), Fail> {
    let mut remote = remote_of(rt.alloc(), &[("b", "bb"), ("a.txt", "a")])?;
    let one = whole(rt.alloc(), &mut remote, "- b\n", &BY_DIGEST)?;
    let entry = Entry {
        size: 1,
        time: 7,
        hash: Some(DIGEST_OF_A),
    };
    assert_eq!(rt; one.names.len(), 2);
    assert_eq!(rt; one.listing.len(), 1);
    assert!(rt; has_row(&one.listing, 0, "a.txt", &entry));
    Ok(())
}

#[test]
fn no_content_is_read_without_checksums(rt: HostRuntime) -> Result<(), Fail> {
    let mut remote = remote_of(rt.alloc(), &[("a", "a"), ("b", "bb")])?;
    let one = whole(rt.alloc(), &mut remote, "", &BY_SIZE)?;
    let entry = Entry {
        size: 2,
        time: 7,
        hash: None,
    };
    assert_eq!(rt; remote.calls(), 1);
    assert!(rt; has_row(&one.listing, 1, "b", &entry));
    Ok(())
}

#[test]
fn an_empty_remote_has_nothing(rt: HostRuntime) -> Result<(), Fail> {
    let mut remote = remote_of(rt.alloc(), &[])?;
    let one = whole(rt.alloc(), &mut remote, "", &BY_DIGEST)?;
    assert_eq!(rt; one.names.len(), 0);
    assert_eq!(rt; one.listing.len(), 0);
    Ok(())
}

#[test]
fn a_limit_is_passed(rt: HostRuntime) -> Result<(), Fail> {
    // The greatest numbers of files and of bytes of names, and what three names of one byte come to.
    let cases = [(2, 9, Some((3, 3))), (9, 2, Some((3, 3))), (3, 3, None)];
    for (files, names, wanted) in cases {
        let mut remote = remote_of(rt.alloc(), &[("x", ""), ("y", ""), ("z", "")])?;
        let limits = Limits {
            files,
            names,
            listing: 0,
        };
        let one = seen(rt.alloc(), &mut remote, "- *\n", &BY_SIZE, &limits)?;
        assert_eq!(rt; too_many(&one), wanted);
        assert_eq!(rt; one.is_ok(), wanted.is_none());
    }
    Ok(())
}

#[test]
fn a_failed_call_is_the_remotes_fault(rt: HostRuntime) -> Result<(), Fail> {
    for call in 1..4 {
        let mut remote = remote_of(rt.alloc(), &[("a", "a")])?;
        remote.fail_at(call, false)?;
        let one = seen(rt.alloc(), &mut remote, "", &BY_DIGEST, &Limits::REAL)?;
        assert!(rt; matches!(one, Err(ObserveFault::RemoteFault)));
        assert_eq!(rt; remote.faults(), 1);
    }
    Ok(())
}

#[test]
fn a_listing_is_narrowed(rt: HostRuntime) -> Result<(), Fail> {
    let entry = Entry {
        size: 1,
        time: 7,
        hash: None,
    };
    let mut listing = Listing::new(rt.alloc());
    for path in ["a.txt", "b"] {
        let path = Path::read(rt.alloc(), path.as_bytes())?;
        if listing.may_push(&path) {
            listing.push(path, entry)?;
        }
    }
    let rules = Rules::read(rt.alloc(), b"+ *.txt\n- *\n")?;
    let narrowed = narrow(rt.alloc(), &listing, &rules)?;
    assert_eq!(rt; narrowed.len(), 1);
    assert!(rt; has_row(&narrowed, 0, "a.txt", &entry));
    Ok(())
}

/// A remote that tells nothing, lists the items that it was given, and always fills the buffer.
#[derive(Drop)]
struct Untold {
    items: Vec<Item>,
    opened: bool,
    begun: bool,
}

impl Untold {
    fn new(alloc: Global, listed: &[(&str, u64)]) -> Result<Untold, Fail> {
        let mut items = Vec::new(alloc);
        for (text, size) in listed {
            let path = Text::from_bytes(alloc, text.as_bytes())?;
            items.push(Item {
                path,
                size: *size,
                time: 7,
            })?;
        }
        Ok(Untold {
            items,
            opened: false,
            begun: false,
        })
    }
}

impl Remote for Untold {
    ghost tells = { false };

    ghost state = { λ untold. record {
      tree = finmap.empty;
      folders = finmap.empty;
      changes = 0;
      reading = record { opened = untold.opened; rest = [] };
      begun = untold.begun;
      part = [];
      faults = 0;
      left = None;
      window = Ns1;
    } };

    fn window(&self) -> Window {
        Window::Ns1
    }

    fn attach(&mut self, _root: &Text) -> Result<(), Failed> {
        self.opened = false;
        self.begun = false;
        Ok(())
    }

    fn list(&mut self, _alloc: Global, out: &mut Vec<Item>) -> Result<(), ListFault> {
        match out.append(&mut self.items) {
            Ok(()) => Ok(()),
            Err(_) => Err(ListFault::OutOfMemory),
        }
    }

    fn open(&mut self, _path: &Path) -> Result<bool, Failed> {
        self.opened = true;
        Ok(true)
    }

    fn read(&mut self, buffer: &mut [u8]) -> Result<usize, Failed> {
        Ok(buffer.len())
    }

    fn begin(&mut self) -> Result<(), Failed> {
        self.begun = true;
        Ok(())
    }

    fn append(&mut self, _bytes: &[u8]) -> Result<(), Failed> {
        Ok(())
    }

    fn commit(&mut self, _path: &Path, _time: i64) -> Result<(), Failed> {
        self.begun = false;
        Ok(())
    }

    fn rename(&mut self, _from: &Path, _to: &Path) -> Result<bool, Failed> {
        Ok(false)
    }

    fn delete(&mut self, _path: &Path) -> Result<bool, Failed> {
        Ok(false)
    }
}

#[test]
fn the_first_bad_text_is_told(rt: HostRuntime) -> Result<(), Fail> {
    let mut remote = Untold::new(rt.alloc(), &[("k", 1), ("a//b", 1), ("/", 1)])?;
    let limits = Limits {
        files: 0,
        names: 0,
        listing: 0,
    };
    let one = seen(rt.alloc(), &mut remote, "", &BY_SIZE, &limits)?;
    assert!(rt; is_bad_path(&one, "a//b"));
    Ok(())
}

#[test]
fn the_earlier_of_equal_texts_counts(rt: HostRuntime) -> Result<(), Fail> {
    let mut remote = Untold::new(rt.alloc(), &[("k", 1), ("f", 2), ("k", 3)])?;
    let one = whole(rt.alloc(), &mut remote, "", &BY_SIZE)?;
    assert_eq!(rt; one.names.len(), 2);
    assert_eq!(rt; one.listing.len(), 2);
    assert!(rt;
        has_row(
            &one.listing,
            1,
            "k",
            &Entry {
                size: 1,
                time: 7,
                hash: None
            }
        )
    );
    Ok(())
}

#[test]
fn a_file_that_grew_has_moved(rt: HostRuntime) -> Result<(), Fail> {
    let mut remote = Untold::new(rt.alloc(), &[("f", 1)])?;
    let one = seen(rt.alloc(), &mut remote, "", &BY_DIGEST, &Limits::REAL)?;
    assert!(rt; matches!(moved_sizes(&one), Some((1, Some(65_536)))));
    Ok(())
}
