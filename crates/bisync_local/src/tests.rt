mod devices;
mod remotes;
mod works;

use std::fs;
use std::test::Fail;

/// Makes an empty folder for a test, in place of what an earlier run left.
fn make_room(rt: &HostRuntime, room: &str) -> Result<(), Fail> {
    if fs::exists(rt, room)? {
        fs::remove_dir_all(rt, room)?;
    }
    fs::create_dir(rt, room)?;
    Ok(())
}
