use crate::MemRemote;
use bisync_device::{Edits, Failed, Folders, Remote, Wakes};
use bisync_text::{Path, Text};
use bisync_tree::{File, Window};
use std::alloc::Global;
use std::test::Fail;

/// A remote whose calls take texts for paths.
#[derive(Drop)]
struct Tried {
    alloc: Global,
    remote: MemRemote,
}

fn is(text: &Text, want: &str) -> bool {
    text.as_bytes() == want.as_bytes()
}

impl Tried {
    fn new(alloc: Global) -> Tried {
        Tried {
            alloc,
            remote: MemRemote::new(alloc),
        }
    }

    fn path(&self, text: &str) -> Result<Path, Fail> {
        Ok(Path::read(self.alloc, text.as_bytes())?)
    }

    fn file(&self, bytes: &str, time: i64) -> Result<File, Fail> {
        let bytes = Text::from_bytes(self.alloc, bytes.as_bytes())?;
        Ok(File { bytes, time })
    }

    fn put(&mut self, path: &str, bytes: &str, time: i64) -> Result<(), Fail> {
        let (path, file) = (self.path(path)?, self.file(bytes, time)?);
        Ok(self.remote.put(&path, &file)?)
    }

    fn edit(&mut self, path: &str, bytes: &str, time: i64) -> Result<(), Fail> {
        let (path, file) = (self.path(path)?, self.file(bytes, time)?);
        Ok(self.remote.edit(&path, Some(&file))?)
    }

    fn take_away(&mut self, path: &str) -> Result<Result<(), Failed>, Fail> {
        let path = self.path(path)?;
        Ok(self.remote.edit(&path, None))
    }

    fn holds(&self, path: &str, bytes: &str, time: i64) -> Result<bool, Fail> {
        let path = self.path(path)?;
        Ok(match self.remote.get(&path) {
            Some(file) => is(&file.bytes, bytes) && file.time == time,
            None => false,
        })
    }

    fn has_file(&self, path: &str) -> Result<bool, Fail> {
        let path = self.path(path)?;
        Ok(self.remote.get(&path).is_some())
    }

    fn attach(&mut self) -> Result<(), Fail> {
        let root = Text::from_bytes(self.alloc, b"root")?;
        Ok(self.remote.attach(&root)?)
    }

    fn write(&mut self, path: &str, bytes: &str, time: i64) -> Result<Result<(), Failed>, Fail> {
        let path = self.path(path)?;
        self.remote.begin()?;
        self.remote.append(bytes.as_bytes())?;
        Ok(self.remote.commit(&path, time))
    }

    fn rename(&mut self, from: &str, to: &str) -> Result<Result<bool, Failed>, Fail> {
        let (from, to) = (self.path(from)?, self.path(to)?);
        Ok(self.remote.rename(&from, &to))
    }

    fn delete(&mut self, path: &str) -> Result<Result<bool, Failed>, Fail> {
        let path = self.path(path)?;
        Ok(self.remote.delete(&path))
    }

    fn open(&mut self, path: &str) -> Result<bool, Fail> {
        let path = self.path(path)?;
        Ok(self.remote.open(&path)?)
    }

    /// Whether the file begins with these bytes, read in one call.
    fn reads(&mut self, path: &str, bytes: &str) -> Result<bool, Fail> {
        let path = self.path(path)?;
        let mut buffer = [0; 3];
        if !self.remote.open(&path)? {
            return Ok(false);
        }
        let count = self.remote.read(&mut buffer)?;
        Ok(count == 3 && buffer.as_slice() == bytes.as_bytes())
    }

    fn lists(&mut self, path: &str, size: u64, time: i64) -> Result<bool, Fail> {
        let mut items = Vec::new(self.alloc);
        self.remote.list(self.alloc, &mut items)?;
        Ok(match items.as_slice() {
            [item] => is(&item.path, path) && item.size == size && item.time == time,
            _ => false,
        })
    }

    fn lists_folders(&mut self, first: &str, second: &str) -> Result<bool, Fail> {
        let mut texts = Vec::new(self.alloc);
        self.remote.list_folders(self.alloc, &mut texts)?;
        Ok(match texts.as_slice() {
            [one, two] => is(one, first) && is(two, second),
            _ => false,
        })
    }

    fn put_folder(&mut self, path: &str) -> Result<(), Fail> {
        let path = self.path(path)?;
        Ok(self.remote.put_folder(&path)?)
    }

    fn has_folder(&self, path: &str) -> Result<bool, Fail> {
        let path = self.path(path)?;
        Ok(self.remote.has_folder(&path))
    }

    fn make_folder(&mut self, path: &str) -> Result<Result<bool, Failed>, Fail> {
        let path = self.path(path)?;
        Ok(self.remote.make_folder(&path))
    }

    fn remove_folder(&mut self, path: &str) -> Result<bool, Fail> {
        let path = self.path(path)?;
        Ok(self.remote.remove_folder(&path)?)
    }

    fn fail_at(&mut self, call: u64, done: bool) -> Result<(), Fail> {
        Ok(self.remote.fail_at(call, done)?)
    }

    fn counts(&self) -> (u64, u64) {
        (self.remote.calls(), self.remote.faults())
    }

    fn arm(&mut self, calls: u64) {
        self.remote.arm(calls);
    }

    fn wake(&mut self) {
        self.remote.wake();
    }

    fn set_window(&mut self, window: Window) {
        self.remote.set_window(window);
    }
}

#[test]
fn holds_what_was_put_and_what_was_edited(rt: HostRuntime) -> Result<(), Fail> {
    let mut tried = Tried::new(rt.alloc());
    tried.put("d/a", "one", -7)?;
    tried.edit("b", "two", 9)?;
    assert!(rt; tried.holds("d/a", "one", -7)?);
    assert!(rt; tried.holds("b", "two", 9)?);
    assert!(rt; tried.has_folder("d")?);
    assert_eq!(rt; tried.take_away("b")?, Ok(()));
    assert!(rt; !tried.has_file("b")?);
    assert_eq!(rt; tried.counts(), (0, 0));
    Ok(())
}

#[test]
fn lists_and_reads_what_was_committed(rt: HostRuntime) -> Result<(), Fail> {
    let mut tried = Tried::new(rt.alloc());
    tried.attach()?;
    assert_eq!(rt; tried.write("a", "hello", 5)?, Ok(()));
    assert_eq!(rt; tried.rename("a", "b")?, Ok(true));
    assert_eq!(rt; tried.rename("a", "b")?, Ok(false));
    assert!(rt; tried.lists("b", 5, 5)?);
    assert!(rt; !tried.open("a")?);
    assert!(rt; tried.reads("b", "hel")?);
    Ok(())
}

#[test]
fn keeps_times_in_whole_windows(rt: HostRuntime) -> Result<(), Fail> {
    for (window, want) in [
        (Window::Ns1, i64::MIN),
        (Window::S1, -9_223_372_036_000_000_000),
    ] {
        let mut tried = Tried::new(rt.alloc());
        tried.set_window(window);
        assert_eq!(rt; tried.write("a", "", i64::MIN)?, Ok(()));
        assert!(rt; tried.holds("a", "", want)?, "{window:?}");
    }
    Ok(())
}

#[test]
fn fails_where_it_is_listed(rt: HostRuntime) -> Result<(), Fail> {
    for done in [false, true] {
        let mut tried = Tried::new(rt.alloc());
        tried.put("a", "", 0)?;
        tried.fail_at(1, done)?;
        assert_eq!(rt; tried.delete("a")?, Err(Failed));
        assert_eq!(rt; tried.counts(), (1, 1));
        assert_eq!(rt; tried.has_file("a")?, !done);
        assert_eq!(rt; tried.delete("a")?, Ok(!done));
    }
    Ok(())
}

#[test]
fn does_what_is_listed_as_done(rt: HostRuntime) -> Result<(), Fail> {
    for done in [false, true] {
        let mut tried = Tried::new(rt.alloc());
        tried.put("a", "one", 0)?;
        for call in [3, 4, 5] {
            tried.fail_at(call, done)?;
        }
        assert_eq!(rt; tried.write("n/b", "two", 0)?, Err(Failed));
        assert_eq!(rt; tried.has_file("n/b")?, done);
        assert_eq!(rt; tried.has_folder("n")?, done);
        assert_eq!(rt; tried.rename("a", "m/c")?, Err(Failed));
        assert_eq!(rt; tried.has_file("m/c")?, done);
        assert_eq!(rt; tried.has_file("a")?, !done);
        assert_eq!(rt; tried.make_folder("e")?, Err(Failed));
        assert_eq!(rt; tried.has_folder("e")?, done);
    }
    Ok(())
}

#[test]
fn stops_and_wakes(rt: HostRuntime) -> Result<(), Fail> {
    let mut tried = Tried::new(rt.alloc());
    tried.put("a", "", 0)?;
    tried.arm(1);
    assert!(rt; tried.open("a")?);
    assert_eq!(rt; tried.delete("a")?, Err(Failed));
    assert_eq!(rt; tried.take_away("a")?, Err(Failed));
    assert_eq!(rt; tried.counts(), (2, 2));
    tried.wake();
    assert_eq!(rt; tried.delete("a")?, Ok(true));
    Ok(())
}

#[test]
fn makes_and_removes_folders(rt: HostRuntime) -> Result<(), Fail> {
    let mut tried = Tried::new(rt.alloc());
    tried.put("a/f", "", 0)?;
    tried.put_folder("e/g")?;
    for (path, made, removed) in [
        ("a", false, false),
        ("a/f", false, false),
        ("a/f/x", false, false),
        ("e", false, false),
        ("n/m", true, true),
        ("n", false, true),
    ] {
        assert_eq!(rt; tried.make_folder(path)?, Ok(made), "{path}");
        assert_eq!(rt; tried.remove_folder(path)?, removed, "{path}");
    }
    Ok(())
}

#[test]
fn keeps_the_folders_above_files(rt: HostRuntime) -> Result<(), Fail> {
    let mut tried = Tried::new(rt.alloc());
    assert_eq!(rt; tried.write("a/b/c", "", 0)?, Ok(()));
    assert_eq!(rt; tried.write(".bisync-partial/x", "", 0)?, Ok(()));
    tried.put_folder("e/g")?;
    assert_eq!(rt; tried.write("e", "", 0)?, Ok(()));
    assert_eq!(rt; tried.delete("a/b/c")?, Ok(true));
    for (path, there) in [
        ("a", true),
        ("a/b", true),
        ("a/b/c", false),
        ("e", false),
        ("e/g", false),
    ] {
        assert_eq!(rt; tried.has_folder(path)?, there, "{path}");
    }
    assert!(rt; tried.lists_folders("a", "a/b")?);
    Ok(())
}
