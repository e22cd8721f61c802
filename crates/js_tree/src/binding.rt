//! The names that patterns, declarations and parameters bind (BoundNames, ECMAScript, sections 8.2.1 and 16.2.2).

ghost use Rattle.std.specs.Fn.{CalledAt};
ghost use Rattle.std.specs.List.{FoldsTo};
ghost use Rattle.std.specs.Prelude.{◌≡◌};
ghost use Rattle.js_tree.specs.BoundNames.{CallableAtEach, all_names, binding_at, binding_of, names};
ghost use Rattle.js_tree.specs.Parts.{top};

use crate::node::{Form, Node};
use js_term::Kind;

/// Where the names of a node stand.
enum Binding {
    Name,
    Kids,
    Kid(usize),
    Nothing,
}

/// Where the names of a node of this kind stand.
fn binding_of(kind: Kind) -> Binding
    ensures { result ≡ binding_of kind }
{
    match kind {
        Kind::BindingIdentifier => Binding::Name,
        Kind::ObjectPattern
        | Kind::ArrayPattern
        | Kind::BindingRestElement
        | Kind::VariableDeclaration
        | Kind::FormalParameters
        | Kind::FormalParameterRest
        | Kind::CatchParameter
        | Kind::ImportDefaultSpecifier
        | Kind::ImportNamespaceSpecifier
        | Kind::ExportDeclaration => Binding::Kids,
        Kind::AssignmentPattern
        | Kind::VariableDeclarator
        | Kind::FunctionDeclaration
        | Kind::ClassDeclaration
        | Kind::FormalParameter
        | Kind::ImportDeclaration => Binding::Kid(0),
        Kind::BindingProperty | Kind::ImportSpecifier => Binding::Kid(1),
        _ => Binding::Nothing,
    }
}

fn binding_at(form: Form) -> Binding
    ensures { result ≡ binding_at form }
{
    match form {
        Form::Absent => Binding::Nothing,
        Form::List => Binding::Kids,
        Form::Node(kind) => binding_of(kind),
    }
}

impl Node {
    /// Calls `f` on each identifier that is bound here, in text order.
    #[cycle(names)]
    pub fn bound_names<F: FnMut(&Node)>(&self, f: &mut F)
        requires { CallableAtEach F.FnMut f.old (names self.now) }
        ensures { FoldsTo (λ p n q. CalledAt F.FnMut p n tt q) f.old (names self.now) f.new }
    {
        match binding_at(self.form()) {
            Binding::Name => f(self),
            Binding::Kids => each_name(self.kids.as_slice(), f),
            Binding::Kid(at) => {
                if let Some(kid) = self.kids.get(at) {
                    kid.bound_names(f);
                }
            }
            Binding::Nothing => {}
        }
    }
}

#[cycle(names)]
fn each_name<F: FnMut(&Node)>(parts: &[Node], f: &mut F)
    requires { CallableAtEach F.FnMut f.old (all_names parts.now) }
    ensures { FoldsTo (λ p n q. CalledAt F.FnMut p n tt q) f.old (all_names parts.now) f.new }
{
    for part in parts {
        part.bound_names(f);
    }
}
