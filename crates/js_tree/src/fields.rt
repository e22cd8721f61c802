//! What a node says of itself: its form, its texts, its place in the text and its id.

ghost use Rattle.std.specs.Prelude.{◌≡◌, ◌↔◌, ◌∷◌, [], IsTrue, Some};
ghost use Rattle.js_term.specs.Term.{first};
ghost use Rattle.js_tree.specs.Words.{texts_seen};
ghost use Rattle.js_tree.specs.Parts.{kind_of, texts_of, top};
ghost use Rattle.js_tree.specs.TermOf.{retexted, term};
ghost use Rattle.js_tree.specs.Tree.{tree_of, with_id, with_span, with_texts};
ghost use Rattle.js_tree.specs.declared.node.Form.TheVariants as form;

use crate::node::{Form, Node};
use crate::span::Span;
use crate::texts::Texts;
use js_ident::Ident;
use js_term::{Kind, is_kind};
use std::mem;

impl Node {
    /// What stands here: nothing, a list, or a node of a kind.
    #[tactic(auto, unfolding(crate::specs::Parts::top))]
    pub fn form(&self) -> Form
        ensures { result ≡ (top self.now).form }
    {
        self.form
    }

    /// The kind of the node; none for a list and for what is absent.
    #[tactic(auto, unfolding(crate::specs::Parts::top))]
    pub fn kind(&self) -> Option<Kind>
        ensures { result ≡ kind_of (top self.now).form }
    {
        match self.form {
            Form::Node(kind) => Some(kind),
            Form::Absent => None,
            Form::List => None,
        }
    }

    /// Whether it is a node of this kind.
    pub fn is(&self, kind: Kind) -> bool
        ensures { IsTrue result ↔ ((top self.now).form ≡ form.Node kind) }
    {
        match self.form() {
            Form::Node(here) => is_kind(here, kind),
            Form::Absent => false,
            Form::List => false,
        }
    }

    /// Whether nothing stands here.
    pub fn is_absent(&self) -> bool
        ensures { IsTrue result ↔ ((top self.now).form ≡ form.Absent) }
    {
        matches!(self.form(), Form::Absent)
    }

    /// Where it stands in the text that it was read from.
    #[tactic(auto, unfolding(crate::specs::Parts::top))]
    pub fn span(&self) -> Span
        ensures { result ≡ (top self.now).span }
    {
        self.span
    }

    /// The id by which a table names it.
    #[tactic(auto, unfolding(crate::specs::Parts::top))]
    pub fn id(&self) -> Option<u32>
        ensures { result ≡ (top self.now).id }
    {
        self.id
    }

    #[tactic(auto, unfolding(crate::specs::Parts::texts_of, crate::specs::Parts::top))]
    pub fn texts(&self) -> &Texts
        ensures own { result.now ≡ texts_of self.now }
        ensures seen { texts_seen result.now ≡ (top self.now).texts }
    {
        &self.texts
    }

    /// The first of its texts; the empty one where it has none.
    pub fn text(&self) -> &str
        ensures { result.now ≡ first (top self.now).texts }
    {
        self.texts().first()
    }

    /// Gives the node the id by which a table names it.
    #[tactic(auto, using(crate::proofs::Trees::tree_is, crate::proofs::Trees::tree_roll, crate::proofs::TermOf::term_is, crate::proofs::TermOf::term_roll), unfolding(crate::specs::Parts::kids, crate::specs::Parts::top))]
    pub fn set_id(&mut self, id: u32)
        ensures tree { tree_of self.new ≡ with_id (Some id) (tree_of self.old) }
        ensures seen { term self.new ≡ term self.old }
    {
        self.id = Some(id);
    }

    /// Gives the node a place in the text.
    #[tactic(auto, using(crate::proofs::Trees::tree_is, crate::proofs::Trees::tree_roll, crate::proofs::TermOf::term_is, crate::proofs::TermOf::term_roll), unfolding(crate::specs::Parts::kids, crate::specs::Parts::top))]
    pub fn set_span(&mut self, span: Span)
        ensures tree { tree_of self.new ≡ with_span span (tree_of self.old) }
        ensures seen { term self.new ≡ term self.old }
    {
        self.span = span;
    }

    /// The node at this place in the text.
    pub fn with_span(self, span: Span) -> Node
        ensures tree { tree_of result ≡ with_span span (tree_of self) }
        ensures seen { term result ≡ term self }
    {
        let mut node = self;
        node.set_span(span);
        node
    }

    /// Puts one text in the place of all that the node has.
    #[tactic(auto, using(crate::proofs::Trees::tree_is, crate::proofs::Trees::tree_roll, crate::proofs::TermOf::term_is, crate::proofs::TermOf::term_roll, crate::proofs::TermOf::retexted_form), unfolding(crate::specs::Parts::kids, crate::specs::Parts::top))]
    pub fn set_text(&mut self, text: Ident)
        ensures tree { tree_of self.new ≡ with_texts (text ∷ []) (tree_of self.old) }
        ensures seen { term self.new ≡ retexted (text ∷ []) (term self.old) }
    {
        drop(mem::replace(&mut self.texts, Texts::Text(text)));
    }
}
