// The members of an object. An absent one has its default.
ghost use Rattle.std.specs.Prelude.{◌≡◌, option_map, option_and_then, unwrap_or, IfOk};
ghost use Rattle.serde_json.specs.Find.{as_bool, as_str};
ghost use Rattle.serde_json.specs.View.{view};
ghost use Rattle.babel_values.specs.Members as spec;

use js_ident::Ident;
use serde_json::Value;
use std::alloc::{AllocError, Global};

/// Whether the member is a text or absent.
pub fn is_text(member: Option<&Value>) -> bool
    ensures { result ≡ spec.is_text (option_map (λ v. view v.now) member.entry) }
{
    match member {
        Some(value) => value.is_string(),
        None => true,
    }
}

/// Whether the member is a text, null or absent.
pub fn is_text_or_null(member: Option<&Value>) -> bool
    ensures { result ≡ spec.is_text_or_null (option_map (λ v. view v.now) member.entry) }
{
    match member {
        Some(value) => value.is_string() || value.is_null(),
        None => true,
    }
}

/// Whether the member is a bool or absent.
pub fn is_flag(member: Option<&Value>) -> bool
    ensures { result ≡ spec.is_flag (option_map (λ v. view v.now) member.entry) }
{
    match member {
        Some(value) => value.is_boolean(),
        None => true,
    }
}

/// Whether the member is a bool, null or absent.
pub fn is_flag_or_null(member: Option<&Value>) -> bool
    ensures { result ≡ spec.is_flag_or_null (option_map (λ v. view v.now) member.entry) }
{
    match member {
        Some(value) => value.is_boolean() || value.is_null(),
        None => true,
    }
}

/// The member, where it is a bool, and else the default.
pub fn flag(member: Option<&Value>, default: bool) -> bool
    ensures { result ≡ spec.flag default (option_map (λ v. view v.now) member.entry) }
{
    member.and_then(Value::as_bool).unwrap_or(default)
}

/// The text of the member, where it is one.
pub fn text(alloc: Global, member: Option<&Value>) -> Result<Option<Ident>, AllocError>
    ensures { IfOk result (λ text. text ≡ spec.text (option_map (λ v. view v.now) member.entry)) }
{
    match member.and_then(Value::as_str) {
        Some(text) => {
            let text = Ident::new(alloc, text)?;
            Ok(Some(text))
        }
        None => Ok(None),
    }
}
