mod ends;
mod plans;

use bisync_tree::{Compare, Entry, Window};

const COMPARE: Compare = Compare {
    size: true,
    time: true,
    hash: false,
    window: Window::Ns1,
};

/// An entry of this size and time.
fn entry(size: u64, time: i64) -> Entry {
    Entry {
        size,
        time,
        hash: None,
    }
}
