use crate::LocalRemote;
use crate::tests::make_room;
use bisync_device::{Failed, Folders, Remote};
use bisync_text::{Path, Text};
use bisync_tree::Item;
use std::alloc::Global;
use std::fs;
use std::os::unix::fs::symlink;
use std::test::Fail;

/// A remote whose calls take texts for paths.
#[derive(Drop)]
struct Tried<'a> {
    alloc: Global,
    remote: LocalRemote<'a, HostRuntime>,
}

type Answer<T> = Result<Result<T, Failed>, Fail>;

impl<'a> Tried<'a> {
    fn new(rt: &'a HostRuntime) -> Tried<'a> {
        Tried {
            alloc: rt.alloc(),
            remote: LocalRemote::new(rt),
        }
    }

    fn path(&self, text: &str) -> Result<Path, Fail> {
        Ok(Path::read(self.alloc, text.as_bytes())?)
    }

    fn attach(&mut self, root: &str) -> Answer<()> {
        let root = Text::from_bytes(self.alloc, root.as_bytes())?;
        Ok(self.remote.attach(&root))
    }

    fn put(&mut self, path: &str, bytes: &str, time: i64) -> Answer<()> {
        let path = self.path(path)?;
        self.remote.begin()?;
        self.remote.append(bytes.as_bytes())?;
        Ok(self.remote.commit(&path, time))
    }

    fn open(&mut self, path: &str) -> Answer<bool> {
        let path = self.path(path)?;
        Ok(self.remote.open(&path))
    }

    fn rename(&mut self, from: &str, to: &str) -> Answer<bool> {
        let (from, to) = (self.path(from)?, self.path(to)?);
        Ok(self.remote.rename(&from, &to))
    }

    fn delete(&mut self, path: &str) -> Answer<bool> {
        let path = self.path(path)?;
        Ok(self.remote.delete(&path))
    }

    fn make_folder(&mut self, path: &str) -> Answer<bool> {
        let path = self.path(path)?;
        Ok(self.remote.make_folder(&path))
    }

    fn remove_folder(&mut self, path: &str) -> Answer<bool> {
        let path = self.path(path)?;
        Ok(self.remote.remove_folder(&path))
    }

    /// Whether the file begins with these three bytes.
    fn reads(&mut self, path: &str, bytes: &str) -> Result<bool, Fail> {
        let path = self.path(path)?;
        let mut buffer = [0; 3];
        if !self.remote.open(&path)? {
            return Ok(false);
        }
        let count = self.remote.read(&mut buffer)?;
        Ok(count == 3 && buffer.as_slice() == bytes.as_bytes())
    }

    /// Whether these files are listed, each with its size and time, and no other.
    fn lists(&mut self, wants: &[(&str, u64, i64)]) -> Result<bool, Fail> {
        let mut items = Vec::new(self.alloc);
        self.remote.list(self.alloc, &mut items)?;
        let all = wants
            .iter()
            .all(|want| items.iter().any(|item| is(item, want)));
        Ok(all && items.len() == wants.len())
    }

    fn lists_folders(&mut self, wants: &[&str]) -> Result<bool, Fail> {
        let mut folders: Vec<Text> = Vec::new(self.alloc);
        self.remote.list_folders(self.alloc, &mut folders)?;
        let all = wants.iter().all(|want| folders
            .iter()
            .any(|folder| folder.as_bytes() == want.as_bytes()));
        Ok(all && folders.len() == wants.len())
    }
}

fn is(item: &Item, want: &(&str, u64, i64)) -> bool {
    item.path.as_bytes() == want.0.as_bytes() && item.size == want.1 && item.time == want.2
}

#[test]
fn files_are_put_listed_and_read(rt: HostRuntime) -> Result<(), Fail> {
    make_room(&rt, "put-room")?;
    let mut tried = Tried::new(&rt);
    assert!(rt; tried.remote.begin() == Err(Failed));
    assert!(rt; tried.attach("put-room/a root")? == Err(Failed));
    assert!(rt; tried.attach("")? == Err(Failed));
    fs::create_dir(&rt, "put-room/a root")?;
    assert!(rt; tried.attach("put-room/a root/")? == Ok(()));
    let wants = [
        ("plain.txt", 3, 1_700_000_000_123_456_789),
        ("new folder/deep/a \"quote\"", 3, -1),
        ("new folder/deep/line\nbreak", 0, 0),
        ("-\u{e9}lan/\\", 5, -2_000_000_000_000_000_123),
    ];
    let texts = ["one", "two", "", "three"];
    for (want, text) in wants.iter().zip(texts.iter()) {
        assert!(rt; tried.put(want.0, text, want.2)? == Ok(()));
    }
    fs::write(&rt, "put-room/a root/.bisync-partial", "left")?;
    assert!(rt; tried.lists(&wants)?);
    assert!(rt; tried.reads("new folder/deep/a \"quote\"", "two")?);
    for path in ["new folder", "absent", "plain.txt/below", "absent/below"] {
        assert!(rt; tried.open(path)? == Ok(false), "at {path}");
    }
    assert!(rt; tried.put("new folder", "one", 0)? == Err(Failed));
    assert!(rt; tried.put("plain.txt/below", "one", 0)? == Err(Failed));
    assert_eq!(rt; tried.remote.faults(), 5);
    fs::remove_dir_all(&rt, "put-room")?;
    Ok(())
}

#[test]
fn links_are_not_followed(rt: HostRuntime) -> Result<(), Fail> {
    make_room(&rt, "link-room")?;
    fs::create_dir_all(&rt, "link-room/root/folder")?;
    fs::create_dir(&rt, "link-room/outside")?;
    fs::write(&rt, "link-room/outside/secret", "secret")?;
    symlink(&rt, "../outside", "link-room/root/link")?;
    symlink(&rt, "../../outside/secret", "link-room/root/folder/file")?;
    let mut tried = Tried::new(&rt);
    assert!(rt; tried.attach("link-room/root")? == Ok(()));
    assert!(rt; tried.lists(&[])?);
    assert!(rt; tried.lists_folders(&["folder"])?);
    assert!(rt; tried.open("folder/file")? == Ok(false));
    assert!(rt; tried.delete("folder/file")? == Ok(false));
    assert!(rt; tried.remove_folder("folder")? == Ok(false));
    assert!(rt; tried.remove_folder("link")? == Ok(false));
    symlink(&rt, "../outside/secret", "link-room/root/.bisync-partial")?;
    assert!(rt; tried.put("own", "own", 7)? == Ok(()));
    assert!(rt; tried.put("folder/file", "own", 7)? == Ok(()));
    assert_eq!(rt; tried.remote.faults(), 0);
    assert!(rt; tried.open("link/secret")? == Err(Failed));
    assert!(rt; tried.put("link/new", "new", 0)? == Err(Failed));
    assert!(rt; tried.rename("own", "link/own")? == Err(Failed));
    assert!(rt; tried.rename("link/secret", "secret")? == Err(Failed));
    assert!(rt; tried.delete("link/secret")? == Err(Failed));
    assert!(rt; tried.make_folder("link/new")? == Err(Failed));
    assert_eq!(rt; tried.remote.faults(), 6);
    assert!(rt; tried.lists(&[("own", 3, 7), ("folder/file", 3, 7)])?);
    assert!(rt; tried.attach("link-room/outside")? == Ok(()));
    assert!(rt; tried.reads("secret", "sec")?);
    assert!(rt; tried.delete("secret")? == Ok(true));
    assert!(rt; tried.lists(&[])?);
    fs::remove_dir_all(&rt, "link-room")?;
    Ok(())
}

#[test]
fn files_move_and_folders_make_way(rt: HostRuntime) -> Result<(), Fail> {
    make_room(&rt, "move-room")?;
    fs::create_dir_all(&rt, "move-room/root/empty/inner")?;
    let mut tried = Tried::new(&rt);
    assert!(rt; tried.attach("move-room/root")? == Ok(()));
    for path in ["a", "b", "c"] {
        assert!(rt; tried.put(path, path, 1)? == Ok(()));
    }
    assert!(rt; tried.rename("a", "b")? == Ok(true));
    assert!(rt; tried.rename("a", "b")? == Ok(false));
    assert!(rt; tried.rename("b", "new/deep/b")? == Ok(true));
    assert!(rt; tried.rename("c", "empty")? == Ok(true));
    assert!(rt; tried.rename("empty", "new/deep")? == Err(Failed));
    assert!(rt; tried.lists(&[("new/deep/b", 1, 1), ("empty", 1, 1)])?);
    assert!(rt; tried.delete("empty")? == Ok(true));
    assert!(rt; tried.delete("empty")? == Ok(false));
    assert!(rt; tried.make_folder("empty/inner/last")? == Ok(true));
    assert!(rt; tried.make_folder("empty/inner")? == Ok(false));
    assert!(rt; tried.make_folder("new/deep/b/c")? == Ok(false));
    assert!(rt;
        tried.lists_folders(&[
            "new",
            "new/deep",
            "empty",
            "empty/inner",
            "empty/inner/last"
        ])?
    );
    assert!(rt; tried.remove_folder("empty/inner")? == Ok(false));
    assert!(rt; tried.remove_folder("empty/inner/last")? == Ok(true));
    assert!(rt; tried.remove_folder("empty/inner/last")? == Ok(false));
    assert!(rt; tried.put("empty", "d", 1)? == Ok(()));
    assert!(rt; tried.lists(&[("new/deep/b", 1, 1), ("empty", 1, 1)])?);
    assert_eq!(rt; tried.remote.faults(), 1);
    fs::remove_dir_all(&rt, "move-room")?;
    Ok(())
}
