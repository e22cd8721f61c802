ghost use Rattle.std.specs.Prelude.{◌≡◌, Some, IfOk};
ghost use Rattle.babel_options.specs.Faults as spec;
ghost use Rattle.babel_options.specs.Plugins.{RefusesOnce};
ghost use Rattle.transform_targets.specs.Faults as targets;

use js_ident::Ident;
use std::alloc::{AllocError, Global};
use std::error::Error;
use std::fmt::{self, Display, Formatter, Write};
use transform_targets::TargetFault;

/// Why options are refused.
#[derive(Debug, Drop)]
pub enum OptionsFault {
    /// What is wrong with them.
    Refused { errors: Vec<Ident> },
    NoMemory,
}

impl OptionsFault {
    /// The refusal of words that are no targets, with the text of their fault.
    pub fn of_targets(alloc: Global, fault: &TargetFault) -> Result<OptionsFault, AllocError>
        ensures { IfOk result (RefusesOnce (Some (targets.message fault.now))) }
    {
        if let TargetFault::NoMemory = fault {
            return Ok(OptionsFault::NoMemory);
        }
        let text = format!(in alloc; "{fault}")?;
        let error = Ident::new(alloc, text.as_str())?;
        let mut errors = Vec::new(alloc);
        errors.push(error)?;
        Ok(OptionsFault::Refused { errors })
    }
}

impl From<AllocError> for OptionsFault {
    ghost use Rattle.babel_options.specs.declared.fault.OptionsFault.TheVariants.{NoMemory};

    ghost from_gives = { λ _ e. e ≡ NoMemory };

    fn from(_: AllocError) -> OptionsFault {
        OptionsFault::NoMemory
    }
}

impl Display for OptionsFault {
    ghost output = { λ fault. Some (spec.message fault) };

    fn fmt<W: Write>(&self, f: &mut Formatter<W>) -> fmt::Result {
        match self {
            OptionsFault::Refused { errors } => {
                write!(f, "the options are refused")?;
                for error in errors {
                    write!(f, "; {error}")?;
                }
                Ok(())
            }
            OptionsFault::NoMemory => write!(f, "out of memory"),
        }
    }
}

impl Error for OptionsFault {}
