//! The names that the identifiers of a tree refer to.

ghost use Rattle.std.specs.Prelude.{◌≡◌, ◌++◌, OnOk};
ghost use Rattle.js_tree.specs.Tree.{tree_of};
ghost use Rattle.tree_tests.specs.Names.{name_at, listed};
ghost use Rattle.tree_tests.specs.Collecting.{identifiers};

use crate::build::identifier_name;
use js_ident::Ident;
use js_items::Items;
use js_tree::Node;
use std::alloc::AllocError;
use tree_rewrite::{Visit, visit_tree};

#[derive(Drop)]
pub struct Identifiers {
    pub names: Items<Ident>,
}

impl Visit for Identifiers {
    type Place = ();

    type Fault = AllocError;

    ghost enter = { λ s p t. record { names = s.names ++ listed (name_at t) } };

    ghost inside = { λ p t k. p };

    ghost leave = { λ s p t. s };

    fn enter(&mut self, _place: (), node: &Node) -> Result<(), AllocError> {
        if let Some(name) = identifier_name(node) {
            let name = Ident::new(self.names.allocator(), name)?;
            self.names.push(name)?;
        }
        Ok(())
    }

    fn inside(_place: (), _node: &Node, _k: usize) {}

    fn leave(&mut self, _place: (), _node: &Node) -> Result<(), AllocError> {
        Ok(())
    }
}

/// Adds the names that the identifiers of a tree refer to, in text order.
pub fn collect_identifiers(found: &mut Identifiers, node: &Node) -> Result<(), AllocError>
    ensures { OnOk result (found.new.names ≡ found.old.names ++ identifiers (tree_of node.now)) }
{
    visit_tree(found, (), node)
}
