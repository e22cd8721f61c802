use std::alloc::AllocError;
use thiserror::Error;

/// Why a text was not read.
#[derive(Debug, Drop, Error)]
pub enum ReadFault {
    /// The text spells no small module of a depth of at most 512; `at` is about where it goes wrong, in bytes, and 0
    /// where its form is right and the module is not small.
    #[error("no small module is read at byte {at}")]
    Unread { at: usize },
    #[error("out of memory")]
    NoMemory,
}

impl From<AllocError> for ReadFault {
    ghost use Rattle.std.specs.Prelude.{◌≡◌};
    ghost use Rattle.js_read.specs.declared.fault.ReadFault.TheVariants.{NoMemory};

    ghost from_gives = { λ _ e. e ≡ NoMemory };

    fn from(_: AllocError) -> ReadFault {
        ReadFault::NoMemory
    }
}

/// Why reading stops; where it does, the tokens say.
#[derive(Clone, Copy, Debug)]
pub(crate) enum Halt {
    Unread,
    NoMemory,
}

impl From<AllocError> for Halt {
    ghost use Rattle.std.specs.Prelude.{◌≡◌};
    ghost use Rattle.js_read.specs.declared.fault.Halt.TheVariants.{NoMemory};

    ghost from_gives = { λ _ e. e ≡ NoMemory };

    fn from(_: AllocError) -> Halt {
        Halt::NoMemory
    }
}
