ghost use Rattle.std.specs.Prelude.{◌≡◌};
ghost use Rattle.js_tree.specs.TermOf.{term};
ghost use Rattle.js_syntax.specs.Printable.{is_printable};
ghost use Rattle.js_syntax.specs.ModuleTree.{is_module_tree, is_module_value};

use crate::lexicon::LexicalGrammar;
use crate::rules;
use crate::view::TreePart;
use js_tree::Node;

/// A tree that can be asked whether it is that of a module. No question takes memory; each goes down the tree by
/// calling itself.
pub trait ModuleTree {
    /// Whether it is a printable program without the early errors that the rules of module trees name (ECMAScript 13 to
    /// 16). Other early errors are not looked for.
    fn is_module_tree(&self) -> bool;

    /// Whether it is an expression that may stand as a value at module level.
    fn is_module_value(&self) -> bool;

    /// Whether it is a program that has a text, early errors aside.
    fn is_printable(&self) -> bool;
}

impl ModuleTree for Node {
    fn is_module_tree(&self) -> bool
        ensures { result ≡ is_module_tree (term self.now) }
    {
        rules::is_module_tree::<LexicalGrammar, _>(TreePart(Some(self)))
    }

    fn is_module_value(&self) -> bool
        ensures { result ≡ is_module_value (term self.now) }
    {
        rules::is_module_value::<LexicalGrammar, _>(TreePart(Some(self)))
    }

    fn is_printable(&self) -> bool
        ensures { result ≡ is_printable (term self.now) }
    {
        rules::is_printable::<LexicalGrammar, _>(TreePart(Some(self)))
    }
}
