ghost use Rattle.js_term.specs.Lexeme.{is_one_of};
ghost use Rattle.js_term.specs.Scope.{declared, declared_all};
ghost use Rattle.js_term.specs.Term.{is_text, all, maybe};
ghost use Rattle.small_tree.specs.TermOf.{binding_term, pattern_term, parameter_term, declaration_term, statement_term, declarator_term, function_term};
ghost use Rattle.prepare_core.specs.Names.{function_names, inside, outside, IsScopeOf};
ghost use Rattle.std.specs.Prelude.{◌≡◌, ◌++◌, ◌∷◌, [], map, option_map, IfOk, OnOk};

use small_tree::{
    BindingIdentifier, BindingPattern, Declaration, FormalParameter, Function, FunctionKind, Ident,
    Items, Statement, VariableDeclarator,
};
use std::alloc::{AllocError, Global};
use std::collections::HashSet;

fn push_pattern(out: &mut Items<Ident>, pattern: &BindingPattern) -> Result<(), AllocError>
    ensures { OnOk result (out.new ≡ out.old ++ declared (pattern_term pattern.now)) }
{
    match pattern {
        BindingPattern::BindingIdentifier(n) => out.push(n.name.clone()?),
    }
}

fn push_id(out: &mut Items<Ident>, id: &Option<BindingIdentifier>) -> Result<(), AllocError>
    ensures { OnOk result (out.new ≡ out.old ++ declared (maybe (option_map binding_term id.now))) }
{
    match id {
        Some(n) => out.push(n.name.clone()?),
        None => Ok(()),
    }
}

#[tactic(auto, using(crate::proofs::Declares::declarators_more))]
fn push_declarators(out: &mut Items<Ident>, items: &[VariableDeclarator]) -> Result<(), AllocError>
    ensures { OnOk result (out.new ≡ out.old ++ declared_all (all (map declarator_term items.now))) }
{
    for one in items {
        push_pattern(out, &one.id)?;
    }
    Ok(())
}

#[tactic(auto, using(crate::proofs::Declares::parameters_more))]
fn push_parameters(out: &mut Items<Ident>, items: &[FormalParameter]) -> Result<(), AllocError>
    ensures { OnOk result (out.new ≡ out.old ++ declared_all (all (map parameter_term items.now))) }
{
    for one in items {
        push_pattern(out, &one.pattern)?;
    }
    Ok(())
}

/// The name of a declaration is declared round it, the name of an expression inside it.
#[tactic(auto, using(crate::proofs::Declares::function_declared))]
fn push_function(out: &mut Items<Ident>, n: &Function) -> Result<(), AllocError>
    ensures { OnOk result (out.new ≡ out.old ++ declared (function_term n.now)) }
{
    match n.kind {
        FunctionKind::FunctionDeclaration => push_id(out, &n.id),
        FunctionKind::FunctionExpression => Ok(()),
    }
}

fn push_inner_name(out: &mut Items<Ident>, n: &Function) -> Result<(), AllocError>
    ensures { OnOk result (out.new ≡ out.old ++ inside n.now.kind (declared (maybe (option_map binding_term n.now.id)))) }
{
    match n.kind {
        FunctionKind::FunctionDeclaration => Ok(()),
        FunctionKind::FunctionExpression => push_id(out, &n.id),
    }
}

/// Adds the names that `d` declares.
#[tactic(auto, using(crate::proofs::Declares::variables_declared, crate::proofs::Declares::d_function_declared))]
pub(crate) fn push_declaration(out: &mut Items<Ident>, d: &Declaration) -> Result<(), AllocError>
    ensures { OnOk result (out.new ≡ out.old ++ declared (declaration_term d.now)) }
{
    match d {
        Declaration::VariableDeclaration(n) => push_declarators(out, n.declarations.as_slice()),
        Declaration::FunctionDeclaration(n) => push_function(out, n.get()),
    }
}

#[tactic(auto, using(crate::proofs::Declares::statement_variables, crate::proofs::Declares::statement_function, crate::proofs::Declares::statement_export, crate::proofs::Declares::statement_import, crate::proofs::Declares::statement_return, crate::proofs::Declares::statement_expression, std::proofs::lemmas::Grind::common_steps))]
fn push_statement(out: &mut Items<Ident>, s: &Statement) -> Result<(), AllocError>
    ensures { OnOk result (out.new ≡ out.old ++ declared (statement_term s.now)) }
{
    match s {
        Statement::VariableDeclaration(n) => push_declarators(out, n.declarations.as_slice()),
        Statement::FunctionDeclaration(n) => push_function(out, n.get()),
        Statement::ExportDeclaration(n) => push_declaration(out, &n.declaration),
        Statement::ImportDeclaration(_)
        | Statement::ReturnStatement(_)
        | Statement::ExpressionStatement(_) => Ok(()),
    }
}

#[tactic(auto, using(crate::proofs::Declares::statements_more))]
fn push_statements(out: &mut Items<Ident>, items: &[Statement]) -> Result<(), AllocError>
    ensures { OnOk result (out.new ≡ out.old ++ declared_all (all (map statement_term items.now))) }
{
    for one in items {
        push_statement(out, one)?;
    }
    Ok(())
}

/// The names that hide imports in the body of `n`.
#[tactic(auto, using(crate::proofs::Declares::names_inside))]
fn names_of_function(alloc: Global, n: &Function) -> Result<Items<Ident>, AllocError>
    ensures { IfOk result (λ it. it ≡ function_names n.now) }
{
    let mut out = Items::new(alloc);
    out.push(Ident::new(alloc, "arguments")?)?;
    push_inner_name(&mut out, n)?;
    push_parameters(&mut out, n.params.items.as_slice())?;
    push_statements(&mut out, n.body.statements.as_slice())?;
    Ok(out)
}

#[tactic(auto, using(crate::proofs::Look::one_more_name))]
fn scope_of(alloc: Global, names: &[Ident]) -> Result<HashSet<Ident>, AllocError>
    ensures { IfOk result (λ s. IsScopeOf s.keys names.now) }
{
    let mut scope = HashSet::new(alloc);
    for one in names {
        scope.insert(one.clone()?)?;
    }
    Ok(scope)
}

/// The scope of the body of `n`.
pub(crate) fn function_scope(alloc: Global, n: &Function) -> Result<HashSet<Ident>, AllocError>
    ensures { IfOk result (λ s. IsScopeOf s.keys (function_names n.now)) }
{
    let names = names_of_function(alloc, n)?;
    scope_of(alloc, names.as_slice())
}
