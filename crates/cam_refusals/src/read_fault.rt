//! Why a file is no layer.

use crate::refusal::Refusal;

/// Why a file is no layer: the fault, and the place of the command or line at fault, in bytes from the start of the
/// file: that of its first byte, of an extended command its `%`, or the file's length where the end is missing. For
/// want of memory the place is 0.
///
/// ```rust
/// use cam_refusals::{ReadFault, Refusal};
///
/// let fault = ReadFault { code: Refusal::NoEnd, at: 40 };
/// assert!(rt; fault.code.number() == 26);
/// ```
#[derive(Clone, Copy, Debug, PartialEq, Eq)]
pub struct ReadFault {
    pub code: Refusal,
    pub at: usize,
}

impl ReadFault {
    /// Memory was refused.
    pub const NO_MEMORY: ReadFault = ReadFault {
        code: Refusal::NoMemory,
        at: 0,
    };
}
