ghost use Rattle.std.specs.Prelude.{◌≡◌, true, is_err, Ok, Err, IfOk};
ghost use Rattle.bisync_device.specs.Faults.{HasCause, is_failed};

use bisync_device::{Failed, ListFault};
use std::io;
use std::io::ErrorKind;

/// A count of faults, which stands still at the greatest `u64`.
#[derive(Drop)]
pub struct Faults {
    pub count: u64,
}

impl Faults {
    pub fn new() -> Faults
        ensures { result.count ≡ 0 }
    {
        Faults { count: 0 }
    }

    /// Counts one fault.
    pub fn rise(&mut self) -> Failed
        ensures { HasCause true self.old.count self.new.count }
    {
        self.count = self.count.saturating_add(1);
        Failed
    }

    /// What a device answers where the system answered this.
    pub fn answer<T: Drop>(&mut self, outcome: io::Result<T>) -> Result<T, Failed>
        ensures cause { HasCause (is_err result) self.old.count self.new.count }
        ensures value { IfOk result (λ value. outcome ≡ Ok value) }
        ensures failed { is_err result ≡ is_err outcome }
    {
        match outcome {
            Ok(value) => Ok(value),
            Err(_) => Err(self.rise()),
        }
    }

    /// What a device answers to `list` where the system failed like this. Want of memory is no fault.
    pub fn list_fault(&mut self, e: &io::Error) -> ListFault
        ensures { HasCause (is_failed (Err result)) self.old.count self.new.count }
    {
        if e.kind() == ErrorKind::OutOfMemory {
            ListFault::OutOfMemory
        } else {
            self.rise();
            ListFault::Failed
        }
    }
}
