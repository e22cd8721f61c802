//! Names read from their module, where a function's own name hides an import inside it.

ghost use Rattle.std.specs.Prelude.{◌≡◌, [], OnOk, IfOk};
ghost use Rattle.std.specs.Option.{option_copied};
ghost use Rattle.js_tree.specs.Tree.{tree_of};
ghost use Rattle.tree_tests.specs.Names.{name_at};
ghost use Rattle.tree_tests.specs.Reading.{inside, read_name};
ghost use Rattle.tree_tests.specs.Hiding.{is_function, own_names, is_hidden, seen_name, read_seen, read_in};
ghost use Rattle.tree_tests.specs.declared.reading.Standing.TheVariants as S;

use crate::build::{binding_name, identifier_name, is_listed};
use crate::reading::{Import, Standing, part_standing};
use js_ident::Ident;
use js_items::Items;
use js_term::Kind;
use js_tree::{Form, Node};
use std::alloc::{AllocError, Global};
use tree_rewrite::{ScopedRewrite, rewrite_scoped};

fn is_hidden(scopes: &[Items<Ident>], name: &str) -> bool
    ensures { result ≡ is_hidden scopes.now name.now }
{
    for names in scopes {
        if is_listed(names.as_slice(), name) {
            return true;
        }
    }
    false
}

/// The name that a function declares for what is inside it.
#[tactic(auto, using(crate::proofs::Names::own_is))]
fn own_names(alloc: Global, node: &Node) -> Result<Items<Ident>, AllocError>
    ensures { IfOk result (λ it. it ≡ own_names (tree_of node.now)) }
{
    let mut own = Items::new(alloc);
    let Some(first) = node.kid(0) else {
        return Ok(own);
    };
    let Some(name) = binding_name(first) else {
        return Ok(own);
    };
    own.push(Ident::new(alloc, name)?)?;
    Ok(own)
}

/// The name that a node refers to, where no scope hides it.
fn seen_name<'a>(scopes: &[Items<Ident>], node: &'a Node) -> Option<&'a str>
    ensures { option_copied result ≡ seen_name scopes.now (name_at (tree_of node.now)) }
{
    let name = identifier_name(node)?;
    if is_hidden(scopes, name) {
        None
    } else {
        Some(name)
    }
}

impl ScopedRewrite for Import {
    type Place = Standing;

    type Scope = Items<Ident>;

    type Fault = AllocError;

    ghost opens = { λ p t. is_function t.form };

    ghost scope = { λ env s p t. own_names t };

    ghost before = { λ env s p t. (read_seen s.names s.source env p t, s) };

    ghost inside = { inside };

    ghost after = { λ env s p t. (t, s) };

    #[tactic(auto, unfolding(js_tree::specs::Parts::top))]
    fn opens(_place: Standing, node: &Node) -> bool {
        matches!(
            node.form(),
            Form::Node(Kind::FunctionDeclaration | Kind::FunctionExpression)
        )
    }

    fn scope(
        &self,
        alloc: Global,
        _scopes: &[Items<Ident>],
        _place: Standing,
        node: &Node,
    ) -> Result<Items<Ident>, AllocError> {
        own_names(alloc, node)
    }

    fn before(
        &mut self,
        alloc: Global,
        scopes: &[Items<Ident>],
        place: Standing,
        node: &Node,
    ) -> Result<Option<Node>, AllocError> {
        match seen_name(scopes, node) {
            Some(name) => self.read_name(alloc, name, place),
            None => Ok(None),
        }
    }

    #[tactic(auto, unfolding(js_tree::specs::Parts::top))]
    fn inside(_place: Standing, node: &Node, k: usize) -> Standing {
        part_standing(node.form(), k)
    }

    fn after(
        &mut self,
        _alloc: Global,
        _scopes: &[Items<Ident>],
        _place: Standing,
        _node: &mut Node,
    ) -> Result<(), AllocError> {
        Ok(())
    }
}

/// Reads the imported names from their module, in a whole tree, but for those that a function hides.
pub fn read_visible(alloc: Global, import: Import, node: &mut Node) -> Result<(), AllocError>
    ensures { OnOk result (tree_of node.new ≡ read_in import.names import.source [] S.Plain (tree_of node.old)) }
{
    let _import = rewrite_scoped(alloc, import, Standing::Plain, node)?;
    Ok(())
}
