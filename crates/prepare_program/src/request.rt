// The module text that a request asks for, or the name of its first wrong member.
ghost use Rattle.std.specs.Prelude.{◌≡◌, option_map, MatchResult};
ghost use Rattle.serde_json.specs.View.{view, members_view};
ghost use Rattle.prepare_program.specs.Request.{for_module, bad_request, asked_of, first_unlisted};

use serde_json::{Map, Value};

/// The text of the module, or the name of the first member that is wrong.
pub(crate) fn module_of(value: &Value) -> Result<&str, &str>
    ensures { MatchResult result (λ text. asked_of (view value.now) ≡ for_module text.now)
        (λ name. asked_of (view value.now) ≡ bad_request name.now) }
{
    let Some(members) = value.as_object() else {
        return Err("");
    };
    let Some(text) = value.get("module").and_then(Value::as_str) else {
        return Err("module");
    };
    match unlisted(members) {
        Some(name) => Err(name),
        None => Ok(text),
    }
}

// The first name that no request has, by bytes.
fn unlisted(members: &Map<String, Value>) -> Option<&str>
    ensures { option_map (λ name. name.now) result
        ≡ first_unlisted (members_view members.now.entries) }
{
    for name in members.keys() {
        if name.as_str() != "module" {
            return Some(name.as_str());
        }
    }
    None
}
