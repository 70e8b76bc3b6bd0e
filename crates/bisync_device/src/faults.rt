/// A call of a device failed, and the device's count of faults rose: it is greater than before, or
/// stands at the greatest `u64`.
#[derive(Clone, Copy, Debug, PartialEq, Eq)]
pub struct Failed;

/// Why a device gave no list.
#[derive(Clone, Copy, Debug, PartialEq, Eq)]
pub enum ListFault {
    /// The call failed, and the count of faults rose.
    Failed,
    /// Memory for the list was refused.
    OutOfMemory,
}
