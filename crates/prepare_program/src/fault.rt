// Why no module was prepared.
ghost use Rattle.std.specs.Prelude.{◌≡◌};

use std::alloc::AllocError;

/// Why a request is refused, or want of memory.
#[derive(Debug, Drop)]
pub(crate) enum Fault {
    NotJson,
    BadRequest { key: String },
    Unread,
    NoMemory,
}

impl From<AllocError> for Fault {
    ghost use Rattle.prepare_program.specs.declared.fault.Fault.TheVariants.{NoMemory};

    ghost from_gives = { λ _ e. e ≡ NoMemory };

    fn from(_: AllocError) -> Fault {
        Fault::NoMemory
    }
}
