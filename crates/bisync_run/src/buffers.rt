//! The buffer through which files are copied.

ghost use Rattle.std.specs.Prelude.{◌<◌, IfOk, length};

use bisync_text::OutOfMemory;
use std::alloc::Global;

/// The bytes of the buffer through which files are copied.
const BUFFER: usize = 65_536;

/// The buffer through which files are copied.
pub fn copy_buffer(alloc: Global) -> Result<Vec<u8>, OutOfMemory>
    ensures { IfOk result (λ buffer. 0 < length buffer.items) }
{
    Ok(vec![in alloc; 0; BUFFER]?)
}
