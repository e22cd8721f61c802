ghost use Rattle.std.specs.Prelude.{◌≡◌, ℕ, List, [], Bool, Option, OnOk, IfOk, option_map};
ghost use Rattle.js_tree.specs.Parts.{Top, top};
ghost use Rattle.js_tree.specs.Tree.{Tree, tree_of};
ghost use Rattle.tree_rewrite.specs.Rewritten.{rewritten};
ghost use Rattle.tree_rewrite.specs.Run.{run_with};
ghost use Rattle.tree_rewrite.specs.Stacks.{before_on, after_on};

use crate::rewrite::{Rewrite, rewrite_tree};
use js_items::Items;
use js_tree::Node;
use std::alloc::{AllocError, Global};

/// What becomes of each node at its place, in an environment: the scopes that the nodes round it opened, the outermost
/// first. The value itself is a state that is handed on from node to node.
pub trait ScopedRewrite {
    /// What a place says of the node that stands there.
    type Place: Copy;

    /// What a node that opens a scope says of what stands inside it, as the names that it declares.
    type Scope: Drop;

    type Fault: From<AllocError>;

    /// Whether a node opens a scope, by the node without its parts.
    ghost opens: { Self.Place → Top → Bool };

    /// The scope that a node opens, before its parts are rewritten.
    ghost scope: { List Self.Scope → Self → Self.Place → Tree → Self.Scope };

    /// What is put in a tree's place, by the environment round it.
    ghost before: { List Self.Scope → Self → Self.Place → Tree → Option Tree × Self };

    /// The place of each part, by the place of the node and the node without its parts.
    ghost inside: { Self.Place → Top → ℕ → Self.Place };

    /// What becomes of a tree whose parts are rewritten already, by the environment inside it.
    ghost after: { List Self.Scope → Self → Self.Place → Tree → Tree × Self };

    fn opens(place: Self::Place, node: &Node) -> bool
        ensures { result ≡ opens place (top node.now) };

    fn scope(
        &self,
        alloc: Global,
        scopes: &[Self::Scope],
        place: Self::Place,
        node: &Node,
    ) -> Result<Self::Scope, Self::Fault>
        ensures { IfOk result (λ s. s ≡ scope scopes.now self.now place (tree_of node.now)) };

    fn before(
        &mut self,
        alloc: Global,
        scopes: &[Self::Scope],
        place: Self::Place,
        node: &Node,
    ) -> Result<Option<Node>, Self::Fault>
        ensures { IfOk result (λ r. (option_map tree_of r, self.new) ≡ before scopes.now self.old place (tree_of node.now)) };

    fn inside(place: Self::Place, node: &Node, k: usize) -> Self::Place
        ensures { result ≡ inside place (top node.now) k };

    fn after(
        &mut self,
        alloc: Global,
        scopes: &[Self::Scope],
        place: Self::Place,
        node: &mut Node,
    ) -> Result<(), Self::Fault>
        ensures { OnOk result ((tree_of node.new, self.new) ≡ after scopes.now self.old place (tree_of node.old)) };
}

/// The rules, with the scopes that are open as a stack.
#[derive(Drop)]
struct Stacked<R, E> {
    scopes: Items<E>,
    rules: R,
}

impl<R: ScopedRewrite> Rewrite for Stacked<R, R::Scope> {
    type Place = R::Place;

    type Fault = R::Fault;

    ghost before = { λ s p t. before_on (λ l r. record { scopes = l; rules = r }) R.opens R.scope R.before R.after s.scopes s.rules p t };

    ghost inside = { R.inside };

    ghost after = { λ s p t. after_on (λ l r. record { scopes = l; rules = r }) R.opens R.scope R.before R.after s.scopes s.rules p t };

    fn before(
        &mut self,
        alloc: Global,
        place: R::Place,
        node: &Node,
    ) -> Result<Option<Node>, R::Fault> {
        if let Some(put) = self
            .rules
            .before(alloc, self.scopes.as_slice(), place, node)?
        {
            return Ok(Some(put));
        }
        if !R::opens(place, node) {
            return Ok(None);
        }
        let scope = self
            .rules
            .scope(alloc, self.scopes.as_slice(), place, node)?;
        self.scopes.push(scope)?;
        Ok(None)
    }

    fn inside(place: R::Place, node: &Node, k: usize) -> R::Place {
        R::inside(place, node, k)
    }

    fn after(&mut self, alloc: Global, place: R::Place, node: &mut Node) -> Result<(), R::Fault> {
        let opened = R::opens(place, node);
        self.rules
            .after(alloc, self.scopes.as_slice(), place, node)?;
        if opened {
            drop(self.scopes.pop());
        }
        Ok(())
    }
}

/// Rewrites a whole tree in place, which stands in no scope, and hands the rules back as they are then.
pub fn rewrite_scoped<R: ScopedRewrite + Drop>(
    alloc: Global,
    rules: R,
    place: R::Place,
    node: &mut Node,
) -> Result<R, R::Fault>
    ensures { IfOk result (λ r. (tree_of node.new, r) ≡ run_with R.opens R.scope R.before R.inside R.after [] place rules (tree_of node.old)) }
{
    let mut stacked = Stacked {
        scopes: Items::new(alloc),
        rules,
    };
    rewrite_tree(alloc, &mut stacked, place, node)?;
    let Stacked { scopes, rules } = stacked;
    drop(scopes);
    Ok(rules)
}
