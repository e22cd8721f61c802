//! The view of a regular expression.

ghost use Rattle.std.specs.Prelude.{◌≡◌, MatchOption};
ghost use Rattle.js_term.specs.declared.kind.Kind.TheVariants as Kind;
ghost use Rattle.js_tree.specs.Parts.{texts_of, top};
ghost use Rattle.js_tree.specs.declared.node.Form.TheVariants as form;
ghost use Rattle.js_tree.specs.declared.texts.Texts.TheVariants as texts;

use js_tree::{Ident, Kind, Node, RegExpFlags, Texts};

/// `/pattern/flags`.
#[derive(Clone, Copy)]
pub struct RegExpLiteral<'a> {
    pub pattern: &'a Ident,
    pub flags: RegExpFlags,
}

impl<'a> RegExpLiteral<'a> {
    /// The node as a `RegExpLiteral`, if it is one.
    pub fn of(node: &'a Node) -> Option<RegExpLiteral<'a>>
        ensures { MatchOption result ((flags : _) (x : _) → (top node.now).form ≡ form.Node Kind.RegExpLiteral → texts_of node.now ≡ texts.RegExp flags x → ⊥) (λ v. ((top node.now).form ≡ form.Node Kind.RegExpLiteral) × (texts_of node.now ≡ texts.RegExp v.flags v.pattern.now)) }
    {
        if !node.is(Kind::RegExpLiteral) {
            return None;
        }
        match node.texts() {
            Texts::RegExp(flags, pattern) => Some(RegExpLiteral {
                pattern,
                flags: *flags,
            }),
            _ => None,
        }
    }
}
