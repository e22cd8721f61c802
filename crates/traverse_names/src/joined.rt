ghost use Rattle.std.specs.Prelude.{◌≡◌, ◌++◌, ◌-◌, ◌≤◌, [], IfOk, OnOk};
ghost use Rattle.std.specs.Str.{chars};
ghost use Rattle.std.specs.String.{string_bytes, string_len};
ghost use Rattle.traverse_names.specs.Identifier.{without_underscores, fitting, joined, finished};

use crate::identifier::to_identifier;
use crate::uid_text::count_underscores;
use std::alloc::{AllocError, Global};
use std::marker::Model;

/// How many bytes a joined name has at most.
const LIMIT: usize = 20;

/// A name that is made of a node's parts, one by one. Contracts see the characters joined so far.
#[derive(Drop)]
pub struct JoinedParts {
    text: String,
}

impl Model for JoinedParts {
    ghost use Rattle.std.specs.Prelude.{List, ℕ, ◌≤◌};
    ghost use Rattle.std.specs.Str.{chars};
    ghost use Rattle.std.specs.String.{string_bytes, string_len};

    ghost Value = { List ℕ };

    ghost view = { λ a. chars (string_bytes a.text) };

    ghost invariant = { λ a. string_len a.text ≤ 20 };
}

impl JoinedParts {
    /// No parts yet.
    pub fn new(alloc: Global) -> JoinedParts
        ensures { result ≡ [] }
    {
        JoinedParts {
            text: String::new(alloc),
        }
    }

    /// Takes the next part. After an error the name is of no use.
    pub fn push(&mut self, part: &str) -> Result<(), AllocError>
        ensures { OnOk result (self.new ≡ joined self.old (chars part.now)) }
    {
        if self.text.is_empty() {
            return push_fitting(&mut self.text, skip_underscores(part));
        }
        if self.text.len() >= LIMIT {
            return Ok(());
        }
        self.text.push('$')?;
        push_fitting(&mut self.text, part)
    }

    /// The name of all parts, as an identifier name once `_` stands before it.
    pub fn finish(self, alloc: Global) -> Result<String, AllocError>
        ensures { IfOk result (λ text. chars (string_bytes text) ≡ finished self) }
    {
        let JoinedParts { text } = self;
        if text.is_empty() {
            return String::from_str(alloc, "ref");
        }
        to_identifier(alloc, text)
    }
}

fn skip_underscores(part: &str) -> &str
    ensures { chars result.now ≡ without_underscores (chars part.now) }
{
    &part[count_underscores(part)..]
}

/// Appends the part up to the last character that leaves the text within the limit.
fn push_fitting(text: &mut String, part: &str) -> Result<(), AllocError>
    requires { string_len text.old ≤ 20 }
    ensures within { string_len text.new ≤ 20 }
    ensures fitted { OnOk result (chars (string_bytes text.new) ≡ chars (string_bytes text.old) ++ fitting (20 - string_len text.old) (chars part.now)) }
{
    for c in part.chars() {
        if text.len() + c.len_utf8() > LIMIT {
            return Ok(());
        }
        text.push(c)?;
    }
    Ok(())
}
