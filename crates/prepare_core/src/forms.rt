//! The two forms that the runner gives a meaning: getters of exports, and requests.
ghost use Rattle.js_term.specs.Node.{identifier_of, member_of, array_of, object_of, property_of, method_of, method_property_of, return_of, string_of, await_of, const_of};
ghost use Rattle.js_term.specs.Term.{all, one, more};
ghost use Rattle.small_tree.specs.TermOf.{expression_term, statement_term, property_term, function_term};
ghost use Rattle.module_model.specs.Shape.{marked, descriptor, getter, request, strings, names_argument};
ghost use Rattle.std.specs.Prelude.{◌≡◌, ◌∷◌, [], IfOk, map, codes};

use crate::made::{
    MADE, call, identifier_named, import_text, member, property, string, true_property,
};
use crate::rebuilt::{array, awaited, effect, object, returned};
use crate::room::room;
use crate::runner_names::RunnerNames;
use small_tree::{
    BindingIdentifier, BindingPattern, Boxed, Expression, FormalParameters, Function, FunctionBody,
    FunctionKind, Ident, IdentifierName, Items, ObjectProperty, PropertyKind, Statement,
    VariableDeclaration, VariableDeclarationKind, VariableDeclarator,
};
use std::alloc::{AllocError, Global};

/// `() { return target; }`
#[tactic(auto, using(crate::proofs::Nodes::method_made))]
fn returning(alloc: Global, target: Expression) -> Result<Function, AllocError>
    ensures { IfOk result (λ it. function_term it ≡ method_of [] (one (return_of (expression_term target)))) }
{
    let argument = Boxed::new(alloc, target)?;
    let mut statements = room(alloc, 1)?;
    statements.push(returned(MADE, Some(argument)))?;
    Ok(Function {
        span: MADE,
        kind: FunctionKind::FunctionExpression,
        id: None,
        is_async: false,
        is_generator: false,
        params: FormalParameters {
            span: MADE,
            items: Items::new(alloc),
        },
        body: FunctionBody {
            span: MADE,
            directives: Items::new(alloc),
            statements,
        },
        scope_id: None,
    })
}

#[tactic(auto, using(crate::proofs::Nodes::value_made))]
fn get_method(
    alloc: Global,
    names: &RunnerNames,
    target: Expression,
) -> Result<ObjectProperty, AllocError>
    ensures { IfOk result (λ it. property_term expression_term it ≡ method_property_of (codes "get") [] (one (return_of (expression_term target)))) }
{
    let name = names.get.clone()?;
    let made = Boxed::new(alloc, returning(alloc, target)?)?;
    let value = Boxed::new(alloc, Expression::FunctionExpression(made))?;
    Ok(ObjectProperty {
        span: MADE,
        kind: PropertyKind::Init,
        key: IdentifierName { span: MADE, name },
        value,
        method: true,
        shorthand: false,
        computed: false,
    })
}

fn described(
    alloc: Global,
    names: &RunnerNames,
    target: Expression,
) -> Result<Expression, AllocError>
    ensures { IfOk result (λ it. expression_term it ≡ object_of (descriptor (expression_term target))) }
{
    let mut properties = room(alloc, 3)?;
    properties.push(true_property(alloc, &names.enumerable)?)?;
    properties.push(true_property(alloc, &names.configurable)?)?;
    properties.push(get_method(alloc, names, target)?)?;
    Ok(object(MADE, properties))
}

fn define_property(alloc: Global, names: &RunnerNames) -> Result<Expression, AllocError>
    ensures { IfOk result (λ it. expression_term it ≡ member_of (identifier_of (codes "Object")) (codes "defineProperty")) }
{
    let global = identifier_named(&names.object)?;
    member(alloc, global, names.define_property.clone()?)
}

/// The getter of the export `name`, which reads `target` when it is called.
pub(crate) fn getter(
    alloc: Global,
    names: &RunnerNames,
    name: Ident,
    target: Expression,
) -> Result<Statement, AllocError>
    ensures { IfOk result (λ it. statement_term it ≡ getter name (expression_term target)) }
{
    let mut arguments = room(alloc, 3)?;
    arguments.push(identifier_named(&names.exports)?)?;
    arguments.push(string(name))?;
    arguments.push(described(alloc, names, target)?)?;
    let expression = call(alloc, define_property(alloc, names)?, arguments)?;
    Ok(effect(MADE, Boxed::new(alloc, expression)?))
}

#[tactic(auto, using(crate::proofs::Nodes::strings_more))]
fn names_array(alloc: Global, imported: &[Ident]) -> Result<Expression, AllocError>
    ensures { IfOk result (λ it. expression_term it ≡ array_of (strings imported.now)) }
{
    let mut elements = room(alloc, imported.len())?;
    for one in imported {
        elements.push(string(one.clone()?))?;
    }
    Ok(array(MADE, elements))
}

fn names_object(
    alloc: Global,
    names: &RunnerNames,
    imported: &[Ident],
) -> Result<Expression, AllocError>
    ensures { IfOk result (λ it. expression_term it ≡ object_of (one (property_of (codes "importedNames") (array_of (strings imported.now))))) }
{
    let array = names_array(alloc, imported)?;
    let mut properties = room(alloc, 1)?;
    properties.push(property(alloc, &names.imported_names, array)?)?;
    Ok(object(MADE, properties))
}

fn request_arguments(
    alloc: Global,
    names: &RunnerNames,
    source: Ident,
    imported: Option<Items<Ident>>,
) -> Result<Items<Expression>, AllocError>
    ensures { IfOk result (λ it. all (map expression_term it) ≡ more (string_of source) (names_argument imported)) }
{
    let mut arguments = room(alloc, 2)?;
    arguments.push(string(source))?;
    if let Some(imported) = imported {
        arguments.push(names_object(alloc, names, imported.as_slice())?)?;
    }
    Ok(arguments)
}

#[tactic(auto, using(crate::proofs::Nodes::const_made))]
fn constant(alloc: Global, name: Ident, value: Expression) -> Result<Statement, AllocError>
    ensures { IfOk result (λ it. statement_term it ≡ const_of name (expression_term value)) }
{
    let init = Boxed::new(alloc, value)?;
    let mut declarations = room(alloc, 1)?;
    declarations.push(VariableDeclarator {
        span: MADE,
        id: BindingPattern::BindingIdentifier(BindingIdentifier {
            span: MADE,
            name,
            symbol_id: None,
        }),
        init: Some(init),
    })?;
    Ok(Statement::VariableDeclaration(VariableDeclaration {
        span: MADE,
        kind: VariableDeclarationKind::Const,
        declarations,
    }))
}

/// The request with this number, which names what is imported, where there are names.
pub(crate) fn request(
    alloc: Global,
    names: &RunnerNames,
    number: usize,
    source: Ident,
    imported: Option<Items<Ident>>,
) -> Result<Statement, AllocError>
    ensures { IfOk result (λ it. statement_term it ≡ request number source imported) }
{
    let callee = identifier_named(&names.import)?;
    let asked = call(
        alloc,
        callee,
        request_arguments(alloc, names, source, imported)?,
    )?;
    let value = awaited(MADE, Boxed::new(alloc, asked)?);
    constant(alloc, import_text(alloc, number)?, value)
}
