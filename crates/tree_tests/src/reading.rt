//! Names read from their module, by the place that they stand at.

ghost use Rattle.std.specs.Prelude.{◌≡◌, OnOk, IfOk, Some, option_map};
ghost use Rattle.js_tree.specs.Tree.{tree_of};
ghost use Rattle.tree_tests.specs.Names.{name_at};
ghost use Rattle.tree_tests.specs.Reading.{member, detached, read_from, part_standing, inside, read_name, read};
ghost use Rattle.tree_tests.specs.declared.reading.Standing.TheVariants as S;

use crate::build::{identifier_name, is_listed, leaf};
use js_ident::Ident;
use js_items::Items;
use js_term::Kind;
use js_tree::{Form, Node, Texts, Word};
use std::alloc::{AllocError, Global};
use tree_rewrite::{Rewrite, rewrite_tree};

/// Where an expression stands.
#[derive(Clone, Copy)]
pub enum Standing {
    Plain,
    /// What a call calls.
    Callee,
}

/// The names that are imported from one module.
#[derive(Drop)]
pub struct Import {
    pub names: Items<Ident>,
    pub source: Ident,
}

/// `source.name`
fn member(alloc: Global, source: &str, name: &str) -> Result<Node, AllocError>
    ensures { IfOk result (λ n. tree_of n ≡ member source.now name.now) }
{
    let object = leaf(alloc, Kind::Identifier, source)?;
    let property = leaf(alloc, Kind::IdentifierName, name)?;
    Node::of_two(
        alloc,
        Kind::StaticMemberExpression,
        Texts::One(Word::Unset),
        object,
        property,
    )
}

/// `(0, part)`
fn detached(alloc: Global, part: Node) -> Result<Node, AllocError>
    ensures { IfOk result (λ n. tree_of n ≡ detached (tree_of part)) }
{
    let zero = leaf(alloc, Kind::NumericLiteral, "0")?;
    let mut parts = Items::with_capacity(alloc, 2)?;
    parts.push(zero)?;
    parts.push(part)?;
    Node::of_list(alloc, Kind::SequenceExpression, Texts::None, parts)
}

/// What stands for a name of the module at a place.
fn read_from(
    alloc: Global,
    source: &str,
    name: &str,
    standing: Standing,
) -> Result<Node, AllocError>
    ensures { IfOk result (λ n. tree_of n ≡ read_from source.now name.now standing) }
{
    let member = member(alloc, source, name)?;
    match standing {
        Standing::Plain => Ok(member),
        Standing::Callee => detached(alloc, member),
    }
}

impl Import {
    /// What stands for a name at a place, if it is imported.
    pub(crate) fn read_name(
        &self,
        alloc: Global,
        name: &str,
        standing: Standing,
    ) -> Result<Option<Node>, AllocError>
        ensures { IfOk result (λ r. option_map tree_of r ≡ read_name self.now.names self.now.source standing (Some name.now)) }
    {
        if !is_listed(self.names.as_slice(), name) {
            return Ok(None);
        }
        let read = read_from(alloc, self.source.as_str(), name, standing)?;
        Ok(Some(read))
    }
}

/// Where the part `k` of a node stands.
pub(crate) fn part_standing(form: Form, k: usize) -> Standing
    ensures { result ≡ part_standing form k }
{
    match (form, k) {
        (Form::Node(Kind::CallExpression), 0) => Standing::Callee,
        _ => Standing::Plain,
    }
}

impl Rewrite for Import {
    type Place = Standing;

    type Fault = AllocError;

    ghost before = { λ s p t. (read_name s.names s.source p (name_at t), s) };

    ghost inside = { inside };

    ghost after = { λ s p t. (t, s) };

    fn before(
        &mut self,
        alloc: Global,
        place: Standing,
        node: &Node,
    ) -> Result<Option<Node>, AllocError> {
        match identifier_name(node) {
            Some(name) => self.read_name(alloc, name, place),
            None => Ok(None),
        }
    }

    #[tactic(auto, unfolding(js_tree::specs::Parts::top))]
    fn inside(_place: Standing, node: &Node, k: usize) -> Standing {
        part_standing(node.form(), k)
    }

    fn after(
        &mut self,
        _alloc: Global,
        _place: Standing,
        _node: &mut Node,
    ) -> Result<(), AllocError> {
        Ok(())
    }
}

/// Reads the imported names from their module, in a whole tree.
pub fn read_all(alloc: Global, import: &mut Import, node: &mut Node) -> Result<(), AllocError>
    ensures { OnOk result (tree_of node.new ≡ read import.old.names import.old.source S.Plain (tree_of node.old)) }
{
    rewrite_tree(alloc, import, Standing::Plain, node)
}
