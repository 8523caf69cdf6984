//! Why a reader of pages gives up.

ghost use Rattle.std.specs.Prelude.{◌≡◌};

use crate::streams::Failed;
use std::alloc::{AllocError, AllocFailed};

/// Why a call that reads pages has no answer.
#[derive(Clone, Copy, Debug, PartialEq, Eq)]
pub enum PageFault {
    /// A page was not given.
    Failed,
    /// The page that was read last is not one for its place.
    Damaged {
        /// Its number on the device.
        page: u32,
    },
    /// There is no memory for what was found.
    OutOfMemory,
}

impl From<Failed> for PageFault {
    ghost use Rattle.dev_model.specs.declared.page_faults.PageFault.TheVariants.{Failed};

    ghost from_gives = { λ _ fault. fault ≡ Failed };

    fn from(_: Failed) -> Self {
        PageFault::Failed
    }
}

impl From<AllocError> for PageFault {
    ghost use Rattle.dev_model.specs.declared.page_faults.PageFault.TheVariants.{OutOfMemory};

    ghost from_gives = { λ _ fault. fault ≡ OutOfMemory };

    fn from(_: AllocError) -> Self {
        PageFault::OutOfMemory
    }
}

impl<T: Drop> From<AllocFailed<T>> for PageFault {
    ghost use Rattle.dev_model.specs.declared.page_faults.PageFault.TheVariants.{OutOfMemory};

    ghost from_gives = { λ _ fault. fault ≡ OutOfMemory };

    fn from(_: AllocFailed<T>) -> Self {
        PageFault::OutOfMemory
    }
}
