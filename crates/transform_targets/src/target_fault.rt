ghost use Rattle.std.specs.Prelude.{Some, ◌++◌, codes};

use js_ident::Ident;
use std::alloc::AllocError;
use std::fmt::{self, Display, Formatter, Write};

/// Why words are no targets, with the first word that is none.
#[derive(Debug, Drop)]
pub enum TargetFault {
    /// The word is no edition, and its letters are no engine's.
    NoMatch { word: Ident },
    /// The word is no edition, and what stands behind its engine is no version.
    Version { word: Ident },
    /// The engine was given before, or an edition was, where the word is one.
    Duplicate { word: Ident },
    NoMemory,
}

impl From<AllocError> for TargetFault {
    ghost use Rattle.std.specs.Prelude.{◌≡◌};
    ghost use Rattle.transform_targets.specs.declared.target_fault.TargetFault.TheVariants.{NoMemory};

    ghost from_gives = { λ _ e. e ≡ NoMemory };

    fn from(_: AllocError) -> TargetFault {
        TargetFault::NoMemory
    }
}

impl Display for TargetFault {
    ghost use Rattle.transform_targets.specs.Faults.{message};

    ghost output = { λ fault. Some (message fault) };

    fn fmt<W: Write>(&self, f: &mut Formatter<W>) -> fmt::Result {
        match self {
            TargetFault::NoMatch { word } => write!(f, "no matching target: {word}"),
            TargetFault::Version { word } => write!(f, "invalid version: {word}"),
            TargetFault::Duplicate { word } => write!(f, "duplicate target: {word}"),
            TargetFault::NoMemory => write!(f, "out of memory"),
        }
    }
}
