//! Nodes of any kind, by their texts and parts.

ghost use Rattle.std.specs.Prelude.{◌≡◌, ◌∷◌, [], IfOk, map};
ghost use Rattle.js_term.specs.Term.{all, list, more, node, none, one, two};
ghost use Rattle.js_tree.specs.Words.{texts_seen};
ghost use Rattle.js_tree.specs.Parts.{kids as kids_of};
ghost use Rattle.js_tree.specs.TermOf.{term};
ghost use Rattle.js_tree.specs.Tree.{listed, made, tree_of};

use crate::node::{Form, Node};
use crate::span::Span;
use crate::texts::Texts;
use js_items::Items;
use js_term::Kind;
use std::alloc::{AllocError, Global};

impl Node {
    /// A node of a kind, that stands in no text and has no id.
    #[tactic(auto, using(crate::proofs::TermOf::term_roll, crate::proofs::Trees::tree_roll), unfolding(crate::specs::Parts::kids))]
    pub fn new(kind: Kind, texts: Texts, kids: Items<Node>) -> Node
        ensures seen { term result ≡ node kind (texts_seen texts) (all (map term kids)) }
        ensures tree { tree_of result ≡ made kind (texts_seen texts) (map tree_of kids) }
        ensures held { kids_of result ≡ kids }
    {
        Node {
            form: Form::Node(kind),
            id: None,
            span: Span::NOWHERE,
            texts,
            kids,
        }
    }

    /// A node without parts. It takes no memory.
    pub fn leaf(alloc: Global, kind: Kind, texts: Texts) -> Node
        ensures seen { term result ≡ node kind (texts_seen texts) none }
        ensures tree { tree_of result ≡ made kind (texts_seen texts) [] }
    {
        Node::new(kind, texts, Items::new(alloc))
    }

    /// A list without items. It takes no memory.
    pub fn empty_list(alloc: Global) -> Node
        ensures seen { term result ≡ list none }
        ensures tree { tree_of result ≡ listed [] }
    {
        Node::list(Items::new(alloc))
    }

    /// A node with one part.
    pub fn of_one(alloc: Global, kind: Kind, texts: Texts, part: Node) -> Result<Node, AllocError>
        ensures seen { IfOk result (λ it. term it ≡ node kind (texts_seen texts) (one (term part))) }
        ensures tree { IfOk result (λ it. tree_of it ≡ made kind (texts_seen texts) (tree_of part ∷ [])) }
    {
        let kids = items_of_one(alloc, part)?;
        Ok(Node::new(kind, texts, kids))
    }

    /// A node whose one part is a list.
    pub fn of_list(
        alloc: Global,
        kind: Kind,
        texts: Texts,
        items: Items<Node>,
    ) -> Result<Node, AllocError>
        ensures seen { IfOk result (λ it. term it ≡ node kind (texts_seen texts) (one (list (all (map term items))))) }
        ensures tree { IfOk result (λ it. tree_of it ≡ made kind (texts_seen texts) (listed (map tree_of items) ∷ [])) }
    {
        Node::of_one(alloc, kind, texts, Node::list(items))
    }

    /// A node with two parts.
    pub fn of_two(
        alloc: Global,
        kind: Kind,
        texts: Texts,
        first: Node,
        second: Node,
    ) -> Result<Node, AllocError>
        ensures seen { IfOk result (λ it. term it ≡ node kind (texts_seen texts) (two (term first) (term second))) }
        ensures tree { IfOk result (λ it. tree_of it ≡ made kind (texts_seen texts) (tree_of first ∷ tree_of second ∷ [])) }
    {
        let kids = items_of_two(alloc, first, second)?;
        Ok(Node::new(kind, texts, kids))
    }

    /// A node with three parts.
    pub fn of_three(
        alloc: Global,
        kind: Kind,
        texts: Texts,
        first: Node,
        second: Node,
        third: Node,
    ) -> Result<Node, AllocError>
        ensures seen { IfOk result (λ it. term it ≡ node kind (texts_seen texts) (more (term first) (two (term second) (term third)))) }
        ensures tree { IfOk result (λ it. tree_of it ≡ made kind (texts_seen texts) (tree_of first ∷ tree_of second ∷ tree_of third ∷ [])) }
    {
        let kids = items_of_three(alloc, first, second, third)?;
        Ok(Node::new(kind, texts, kids))
    }
}

/// One part.
pub(crate) fn items_of_one(alloc: Global, part: Node) -> Result<Items<Node>, AllocError>
    ensures { IfOk result (λ it. it ≡ part ∷ []) }
{
    let mut items = Items::with_capacity(alloc, 1)?;
    items.push(part)?;
    Ok(items)
}

/// Two parts.
pub(crate) fn items_of_two(
    alloc: Global,
    first: Node,
    second: Node,
) -> Result<Items<Node>, AllocError>
    ensures { IfOk result (λ it. it ≡ first ∷ second ∷ []) }
{
    let mut items = Items::with_capacity(alloc, 2)?;
    items.push(first)?;
    items.push(second)?;
    Ok(items)
}

/// Three parts.
fn items_of_three(
    alloc: Global,
    first: Node,
    second: Node,
    third: Node,
) -> Result<Items<Node>, AllocError>
    ensures { IfOk result (λ it. it ≡ first ∷ second ∷ third ∷ []) }
{
    let mut items = Items::with_capacity(alloc, 3)?;
    items.push(first)?;
    items.push(second)?;
    items.push(third)?;
    Ok(items)
}
