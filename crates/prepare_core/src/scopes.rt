ghost use Rattle.js_term.specs.Lexeme.{is_one_of};
ghost use Rattle.js_term.specs.Node.{identifier_of};
ghost use Rattle.js_term.specs.Scope.{import_of, resolve};
ghost use Rattle.module_model.specs.Run.{written};
ghost use Rattle.prepare_core.specs.Names.{hidden, names_env};
ghost use Rattle.std.specs.Prelude.{◌≡◌, MatchOption, Some};

use crate::imported::Import;
use small_tree::Ident;
use std::collections::{HashMap, HashSet};

fn is_hidden(scopes: &[HashSet<Ident>], name: &Ident) -> bool
    ensures { result ≡ hidden scopes.now name.now }
{
    for scope in scopes {
        if scope.contains(name) {
            return true;
        }
    }
    false
}

/// What `name` is imported as, unless a function round it declares the name.
#[tactic(auto, using(crate::proofs::Look::is_hidden))]
pub(crate) fn find_import<'a>(
    imports: &'a HashMap<Ident, Import>,
    scopes: &[HashSet<Ident>],
    name: &Ident,
) -> Option<&'a Import>
    ensures { MatchOption result (written (names_env imports.now scopes.now) name.now ≡ identifier_of name.now) (λ i. resolve (names_env imports.now scopes.now) name.now ≡ import_of i.now.request (Some i.now.name)) }
{
    if is_hidden(scopes, name) {
        None
    } else {
        imports.get(name)
    }
}
