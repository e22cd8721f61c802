ghost use Rattle.std.specs.Prelude.{◌≡◌, ◌++◌, IfOk, string_bytes, Some};
ghost use Rattle.babel_options.specs.Plugins.{RefusesOnce};

use crate::fault::OptionsFault;
use js_ident::Ident;
use std::alloc::{AllocError, Global};

// The refusal for one error: what is wrong of this name.
pub(crate) fn refusal(alloc: Global, name: &str, wrong: &str) -> Result<OptionsFault, AllocError>
    ensures { IfOk result (RefusesOnce (Some (name.now ++ wrong.now))) }
{
    let mut message = String::from_str(alloc, name)?;
    message.push_str(wrong)?;
    let mut errors = Vec::new(alloc);
    let error = Ident::new(alloc, message.as_str())?;
    errors.push(error)?;
    Ok(OptionsFault::Refused { errors })
}
