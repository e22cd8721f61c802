//! Nodes with a name, and the names that nodes have.

ghost use Rattle.std.specs.Prelude.{◌≡◌, [], ◌∷◌, IfOk};
ghost use Rattle.std.specs.Option.{option_copied};
ghost use Rattle.js_tree.specs.Tree.{made, tree_of};
ghost use Rattle.js_tree.specs.Words.{texts_seen};
ghost use Rattle.tree_tests.specs.Names.{only, name_at, bound_at, has};

use js_ident::Ident;
use js_term::Kind;
use js_tree::{Form, Node, Texts};
use std::alloc::{AllocError, Global};

/// A node of one text and no parts.
pub(crate) fn leaf(alloc: Global, kind: Kind, text: &str) -> Result<Node, AllocError>
    ensures { IfOk result (λ n. tree_of n ≡ made kind (text.now ∷ []) []) }
{
    let text = Ident::new(alloc, text)?;
    Ok(Node::leaf(alloc, kind, Texts::Text(text)))
}

/// The text of a node that has one.
fn only_text(texts: &Texts) -> Option<&str>
    ensures { option_copied result ≡ only (texts_seen texts.now) }
{
    match texts {
        Texts::Text(text) => Some(text.as_str()),
        Texts::One(word) => Some(word.as_str()),
        _ => None,
    }
}

/// The name that a node refers to, if it is an identifier.
#[tactic(auto, using(crate::proofs::Names::name_is), unfolding(js_tree::specs::Parts::top))]
pub(crate) fn identifier_name(node: &Node) -> Option<&str>
    ensures { option_copied result ≡ name_at (tree_of node.now) }
{
    match node.form() {
        Form::Node(Kind::Identifier) => only_text(node.texts()),
        _ => None,
    }
}

/// The name that a node declares, if it is a binding identifier.
#[tactic(auto, using(crate::proofs::Names::bound_is), unfolding(js_tree::specs::Parts::top))]
pub(crate) fn binding_name(node: &Node) -> Option<&str>
    ensures { option_copied result ≡ bound_at (tree_of node.now) }
{
    match node.form() {
        Form::Node(Kind::BindingIdentifier) => only_text(node.texts()),
        _ => None,
    }
}

/// Whether the name is one of these.
pub(crate) fn is_listed(names: &[Ident], name: &str) -> bool
    ensures { result ≡ has names.now name.now }
{
    for one in names {
        if one.as_str() == name {
            return true;
        }
    }
    false
}
