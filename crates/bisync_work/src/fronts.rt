//! The front of what stands under a name.

ghost use Rattle.std.specs.Prelude.{◌≡◌, ◌≤◌, length, None, IsTrue, IfOk, IfSome, is_err};
ghost use Rattle.bisync_device.specs.Faults.{HasCause};
ghost use Rattle.bisync_device.specs.Work.{KeepsFolder};
ghost use Rattle.bisync_device.specs.WorkFolder.{at};
ghost use Rattle.bisync_work.specs.Fronts.{IsFront};

use bisync_device::{Failed, Work, WorkName};

/// Reads into the buffer what stands under a name, as far as the buffer goes. The number of the bytes
/// read, or None where the name isn't there.
pub fn read_front<W: Work>(
    work: &mut W,
    name: WorkName,
    buffer: &mut [u8],
) -> Result<Option<usize>, Failed>
    ensures within { IfOk result (λ found. IfSome found (λ count. count ≤ length buffer.new)) }
    ensures front { IsTrue W.tells → IfOk result (λ found. IsFront found buffer.new (at (W.state work.old).folder name)) }
    ensures folder { KeepsFolder W.tells (W.state work.old) (W.state work.new) }
    ensures left { (W.state work.old).left ≡ None → (W.state work.new).left ≡ None }
    ensures cause { HasCause (is_err result) (W.state work.old).faults (W.state work.new).faults }
{
    if !work.open(name)? {
        return Ok(None);
    }
    let mut count = 0;
    while count < buffer.len() {
        let more = work.read(&mut buffer[count..])?;
        if more == 0 {
            break;
        }
        count += more;
    }
    Ok(Some(count))
}
