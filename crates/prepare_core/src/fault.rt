ghost use Rattle.std.specs.Prelude.{◌≡◌};

use std::alloc::AllocError;
use thiserror::Error;

/// Why a module was not prepared.
#[derive(Debug, Drop, Error)]
pub enum PrepareFault {
    #[error("out of memory")]
    NoMemory,
}

impl From<AllocError> for PrepareFault {
    ghost use Rattle.prepare_core.specs.declared.fault.PrepareFault.TheVariants.{NoMemory};

    ghost from_gives = { λ _ e. e ≡ NoMemory };

    fn from(_: AllocError) -> PrepareFault {
        PrepareFault::NoMemory
    }
}
