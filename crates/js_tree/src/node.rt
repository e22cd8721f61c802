ghost use Rattle.std.specs.Prelude.{◌≡◌, [], map};
ghost use Rattle.js_term.specs.Term.{all, list};
ghost use Rattle.js_tree.specs.Parts.{hole, kids as kids_of};
ghost use Rattle.js_tree.specs.TermOf.{term};
ghost use Rattle.js_tree.specs.Tree.{listed, tree_of};

use crate::free::free;
use crate::span::Span;
use crate::texts::Texts;
use js_items::Items;
use js_term::Kind;
use std::alloc::Global;

/// What stands at a place: nothing, a list of parts, or a node of a kind.
#[derive(Clone, Copy, Debug, PartialEq, Eq)]
pub enum Form {
    Absent,
    List,
    Node(Kind),
}

/// A part of a syntax tree: a node, a list of parts, or nothing at a place. A node is its kind, its texts and its
/// parts in text order, as its term is; beside it stand its place in the text and the id by which a table names it.
pub struct Node {
    pub(crate) form: Form,
    pub(crate) id: Option<u32>,
    pub(crate) span: Span,
    pub(crate) texts: Texts,
    pub(crate) kids: Items<Node>,
}

impl Drop for Node {
    fn drop(self) {
        free(self);
    }
}

impl Node {
    /// What stands at an empty place. It takes no memory.
    #[tactic(auto, unfolding(crate::specs::Parts::hole))]
    pub fn absent(alloc: Global) -> Node
        ensures { result ≡ hole }
    {
        Node {
            form: Form::Absent,
            id: None,
            span: Span::NOWHERE,
            texts: Texts::None,
            kids: Items::new(alloc),
        }
    }

    /// A list of these.
    #[tactic(auto, using(crate::proofs::TermOf::term_roll, crate::proofs::Trees::tree_roll), unfolding(crate::specs::Parts::kids))]
    pub fn list(kids: Items<Node>) -> Node
        ensures seen { term result ≡ list (all (map term kids)) }
        ensures tree { tree_of result ≡ listed (map tree_of kids) }
        ensures held { kids_of result ≡ kids }
    {
        Node {
            form: Form::List,
            id: None,
            span: Span::NOWHERE,
            texts: Texts::None,
            kids,
        }
    }

    /// Frees the node but for its kids.
    #[tactic(auto, unfolding(crate::specs::Parts::kids))]
    pub(crate) fn into_kids(self) -> Items<Node>
        ensures { result ≡ kids_of self }
    {
        let Node {
            form: _,
            id: _,
            span: _,
            texts,
            kids,
        } = self;
        drop(texts);
        kids
    }
}
