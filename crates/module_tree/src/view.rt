ghost use Rattle.std.specs.Prelude.{◌≡◌};
ghost use Rattle.module_tree.specs.ViewTerm.{part_term};

use crate::node_texts::{has_texts, is_text_set};
use js_rules::{Form, Kind, Lexicon, View};
use js_tree::{self as tree, Node};

/// A part of a tree, as rules look at it; a part that is missing is absent.
#[derive(Clone, Copy)]
pub struct TreePart<'a>(pub Option<&'a Node>);

impl<'a> View for TreePart<'a> {
    ghost term = { part_term };

    #[tactic(auto, using(js_tree::proofs::TermOf::term_is))]
    fn form(&self) -> Form {
        match self.0 {
            None => Form::Absent,
            Some(n) => match n.form() {
                tree::Form::Absent => Form::Absent,
                tree::Form::List => Form::List,
                tree::Form::Node(kind) => Form::Node(kind),
            },
        }
    }

    #[tactic(auto, using(js_tree::proofs::TermOf::term_is, crate::proofs::Kids::count_all_map))]
    fn count(&self) -> usize {
        match self.0 {
            None => 0,
            Some(n) => match n.form() {
                tree::Form::Absent => 0,
                _ => n.kid_count(),
            },
        }
    }

    #[tactic(auto, using(js_tree::proofs::TermOf::term_is, crate::proofs::Kids::kid_all_map))]
    fn part(&self, n: usize) -> Self {
        match self.0 {
            None => TreePart(None),
            Some(node) => match node.form() {
                tree::Form::Absent => TreePart(None),
                _ => TreePart(node.kid(n)),
            },
        }
    }

    #[tactic(auto, using(js_tree::proofs::TermOf::term_is))]
    fn text(&self) -> &str {
        match self.0 {
            None => "",
            Some(n) => match n.form() {
                tree::Form::Node(_) => n.text(),
                _ => "",
            },
        }
    }

    #[tactic(auto, using(js_tree::proofs::TermOf::term_is))]
    fn is_set(&self, n: usize) -> bool {
        match self.0 {
            None => false,
            Some(node) => match node.form() {
                tree::Form::Node(_) => is_text_set(node.texts(), n),
                _ => false,
            },
        }
    }

    #[tactic(auto, using(js_tree::proofs::TermOf::term_is))]
    fn has_texts<L: Lexicon>(&self, kind: Kind) -> bool {
        match self.0 {
            None => false,
            Some(n) => match n.form() {
                tree::Form::Node(_) => has_texts::<L>(kind, n.texts()),
                _ => false,
            },
        }
    }
}
