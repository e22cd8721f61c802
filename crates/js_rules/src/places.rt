ghost use Rattle.std.specs.Prelude.{◌≡◌, length};
ghost use Rattle.js_syntax.specs.Parts.{texts_of};
ghost use Rattle.js_syntax.specs.Places.{key_place, object_place, function_places, class_places, method_place, value_place, target_place, yield_place, statement_places, module_places, function_kind_places, pattern_places, places, part_places_at, places_at, place_at};
ghost use Rattle.js_rules.specs.SortsSeen.{sort_seen, place_seen, places_seen};

use crate::sort::{Place, Sort};
use crate::view::View;
use js_term::Kind;

/// The places of a node's kids.
#[derive(Clone, Copy)]
pub enum PlaceList {
    Zero,
    One(Place),
    Two(Place, Place),
    Three(Place, Place, Place),
    Four(Place, Place, Place, Place),
}

/// The place numbered `n`.
pub fn place_at(places: PlaceList, n: usize) -> Place
    ensures { place_seen result ≡ place_at n (places_seen places) }
{
    match (places, n) {
        (
            PlaceList::One(p)
            | PlaceList::Two(p, _)
            | PlaceList::Three(p, _, _)
            | PlaceList::Four(p, _, _, _),
            0,
        ) => p,
        (PlaceList::Two(_, p) | PlaceList::Three(_, p, _) | PlaceList::Four(_, p, _, _), 1) => p,
        (PlaceList::Three(_, _, p) | PlaceList::Four(_, _, p, _), 2) => p,
        (PlaceList::Four(_, _, _, p), 3) => p,
        _ => Place::Nowhere,
    }
}

/// How many they are.
pub fn place_count(places: PlaceList) -> usize
    ensures { result ≡ length (places_seen places) }
{
    match places {
        PlaceList::Zero => 0,
        PlaceList::One(_) => 1,
        PlaceList::Two(_, _) => 2,
        PlaceList::Three(_, _, _) => 3,
        PlaceList::Four(_, _, _, _) => 4,
    }
}

/// A key stands in brackets where the flag is set.
fn key_place(computed: bool, sort: Sort) -> Place
    ensures { place_seen result ≡ key_place computed (sort_seen sort) }
{
    Place::One(if computed { Sort::Expression } else { sort })
}

fn object_place<V: View>(member: &V) -> Place
    ensures { place_seen result ≡ object_place (texts_of (V.term member.now)) }
{
    if member.is_set(0) {
        Place::One(Sort::Expression)
    } else {
        Place::One(Sort::Object)
    }
}

fn function_places(name: Place) -> PlaceList
    ensures { places_seen result ≡ function_places (place_seen name) }
{
    PlaceList::Three(
        name,
        Place::One(Sort::Only(Kind::FormalParameters)),
        Place::One(Sort::Only(Kind::FunctionBody)),
    )
}

fn class_places(name: Place) -> PlaceList
    ensures { places_seen result ≡ class_places (place_seen name) }
{
    PlaceList::Three(
        name,
        Place::Optional(Sort::Expression),
        Place::One(Sort::Only(Kind::ClassBody)),
    )
}

fn method_place(is_method: bool) -> Place
    ensures { place_seen result ≡ method_place is_method }
{
    if is_method {
        Place::One(Sort::Method)
    } else {
        Place::One(Sort::PlainMethod)
    }
}

/// The value of an object's property: that of a getter or setter, of a method, or any value.
fn value_place<V: View>(property: &V) -> Place
    ensures { place_seen result ≡ value_place (texts_of (V.term property.now)) }
{
    if !property.text_is("init") {
        Place::One(Sort::PlainMethod)
    } else if property.is_set(1) {
        Place::One(Sort::Method)
    } else {
        Place::One(Sort::Expression)
    }
}

fn target_place<V: View>(assignment: &V) -> Place
    ensures { place_seen result ≡ target_place (texts_of (V.term assignment.now)) }
{
    if assignment.text_is("=") {
        Place::One(Sort::Target)
    } else {
        Place::One(Sort::SimpleTarget)
    }
}

fn yield_place<V: View>(expression: &V) -> Place
    ensures { place_seen result ≡ yield_place (texts_of (V.term expression.now)) }
{
    if expression.is_set(0) {
        Place::One(Sort::Expression)
    } else {
        Place::Optional(Sort::Expression)
    }
}

/// The places of a statement's parts; other kinds that no table names have no parts.
fn statement_places<V: View>(kind: Kind, _view: &V) -> PlaceList
    ensures { places_seen result ≡ statement_places kind (texts_of (V.term _view.now)) }
{
    match kind {
        Kind::BlockStatement => PlaceList::One(Place::Many(Sort::Statement)),
        Kind::BreakStatement | Kind::ContinueStatement => PlaceList::One(Place::Optional(Sort::Only(
            Kind::LabelIdentifier,
        ))),
        Kind::DoWhileStatement => PlaceList::Two(
            Place::One(Sort::Body),
            Place::One(Sort::Expression),
        ),
        Kind::ExpressionStatement | Kind::ThrowStatement => PlaceList::One(Place::One(
            Sort::Expression,
        )),
        Kind::ForInStatement | Kind::ForOfStatement => PlaceList::Three(
            Place::One(Sort::ForLeft),
            Place::One(Sort::Expression),
            Place::One(Sort::Body),
        ),
        Kind::ForStatement => PlaceList::Four(
            Place::Optional(Sort::ForInit),
            Place::Optional(Sort::Expression),
            Place::Optional(Sort::Expression),
            Place::One(Sort::Body),
        ),
        Kind::IfStatement => PlaceList::Three(
            Place::One(Sort::Expression),
            Place::One(Sort::Body),
            Place::Optional(Sort::Body),
        ),
        Kind::LabeledStatement => PlaceList::Two(
            Place::One(Sort::Only(Kind::LabelIdentifier)),
            Place::One(Sort::Body),
        ),
        Kind::ReturnStatement => PlaceList::One(Place::Optional(Sort::Expression)),
        Kind::SwitchStatement => PlaceList::Two(
            Place::One(Sort::Expression),
            Place::Many(Sort::Only(Kind::SwitchCase)),
        ),
        Kind::SwitchCase => PlaceList::Two(
            Place::Optional(Sort::Expression),
            Place::Many(Sort::Statement),
        ),
        Kind::TryStatement => PlaceList::Three(
            Place::One(Sort::Only(Kind::BlockStatement)),
            Place::Optional(Sort::Only(Kind::CatchClause)),
            Place::Optional(Sort::Only(Kind::BlockStatement)),
        ),
        Kind::CatchClause => PlaceList::Two(
            Place::Optional(Sort::Only(Kind::CatchParameter)),
            Place::One(Sort::Only(Kind::BlockStatement)),
        ),
        Kind::CatchParameter => PlaceList::One(Place::One(Sort::Pattern)),
        Kind::WhileStatement => PlaceList::Two(
            Place::One(Sort::Expression),
            Place::One(Sort::Body),
        ),
        Kind::VariableDeclaration => PlaceList::One(Place::Some(Sort::Only(
            Kind::VariableDeclarator,
        ))),
        Kind::VariableDeclarator => PlaceList::Two(
            Place::One(Sort::Pattern),
            Place::Optional(Sort::Expression),
        ),
        _ => PlaceList::Zero,
    }
}

fn module_places<V: View>(kind: Kind, view: &V) -> PlaceList
    ensures { places_seen result ≡ module_places kind (texts_of (V.term view.now)) }
{
    match kind {
        Kind::Program => PlaceList::Two(
            Place::Many(Sort::Only(Kind::Directive)),
            Place::Many(Sort::ModuleItem),
        ),
        Kind::ImportDeclaration => PlaceList::Two(
            Place::OptionalList(Sort::ImportSpecifier),
            Place::One(Sort::Only(Kind::StringLiteral)),
        ),
        Kind::ImportSpecifier => PlaceList::Two(
            Place::One(Sort::ModuleExportName),
            Place::One(Sort::Only(Kind::BindingIdentifier)),
        ),
        Kind::ImportDefaultSpecifier | Kind::ImportNamespaceSpecifier => PlaceList::One(Place::One(
            Sort::Only(Kind::BindingIdentifier),
        )),
        Kind::ExportAllDeclaration => PlaceList::Two(
            Place::Optional(Sort::ModuleExportName),
            Place::One(Sort::Only(Kind::StringLiteral)),
        ),
        Kind::ExportNamedDeclaration => PlaceList::One(Place::Many(Sort::Only(
            Kind::ExportSpecifier,
        ))),
        Kind::ExportFromDeclaration => PlaceList::Two(
            Place::Many(Sort::ExportFromSpecifier),
            Place::One(Sort::Only(Kind::StringLiteral)),
        ),
        Kind::ExportSpecifier => PlaceList::Two(
            Place::One(Sort::LocalExportName),
            Place::One(Sort::ModuleExportName),
        ),
        Kind::ExportDeclaration => PlaceList::One(Place::One(Sort::Exported)),
        Kind::ExportDefaultDeclaration => PlaceList::One(Place::One(Sort::ExportedDefault)),
        _ => statement_places(kind, view),
    }
}

fn function_kind_places<V: View>(kind: Kind, view: &V) -> PlaceList
    ensures { places_seen result ≡ function_kind_places kind (texts_of (V.term view.now)) }
{
    match kind {
        Kind::FunctionDeclaration => function_places(Place::One(Sort::Only(
            Kind::BindingIdentifier,
        ))),
        Kind::FunctionExpression => function_places(Place::Optional(Sort::Only(
            Kind::BindingIdentifier,
        ))),
        Kind::FormalParameters => PlaceList::Two(
            Place::Many(Sort::Only(Kind::FormalParameter)),
            Place::Optional(Sort::Only(Kind::FormalParameterRest)),
        ),
        Kind::FormalParameter => PlaceList::Two(
            Place::One(Sort::Pattern),
            Place::Optional(Sort::Expression),
        ),
        Kind::FormalParameterRest => PlaceList::One(Place::One(Sort::Only(
            Kind::BindingRestElement,
        ))),
        Kind::FunctionBody => PlaceList::Two(
            Place::Many(Sort::Only(Kind::Directive)),
            Place::Many(Sort::Statement),
        ),
        Kind::ClassDeclaration => class_places(Place::One(Sort::Only(Kind::BindingIdentifier))),
        Kind::ClassExpression => class_places(Place::Optional(Sort::Only(Kind::BindingIdentifier))),
        Kind::ClassBody => PlaceList::One(Place::Many(Sort::ClassElement)),
        Kind::StaticBlock => PlaceList::One(Place::Many(Sort::Statement)),
        Kind::MethodDefinition => PlaceList::Two(
            key_place(view.is_set(1), Sort::ClassKey),
            method_place(view.text_is("method")),
        ),
        Kind::PropertyDefinition => PlaceList::Two(
            key_place(view.is_set(0), Sort::ClassKey),
            Place::Optional(Sort::Expression),
        ),
        _ => module_places(kind, view),
    }
}

fn pattern_places<V: View>(kind: Kind, view: &V) -> PlaceList
    ensures { places_seen result ≡ pattern_places kind (texts_of (V.term view.now)) }
{
    match kind {
        Kind::ObjectPattern => PlaceList::Two(
            Place::Many(Sort::Only(Kind::BindingProperty)),
            Place::Optional(Sort::ObjectRest),
        ),
        Kind::BindingProperty => PlaceList::Two(
            key_place(view.is_set(0), Sort::Key),
            Place::One(Sort::PatternElement),
        ),
        Kind::ArrayPattern => PlaceList::Two(
            Place::Spaced(Sort::PatternElement),
            Place::Optional(Sort::Only(Kind::BindingRestElement)),
        ),
        Kind::AssignmentPattern => PlaceList::Two(
            Place::One(Sort::Pattern),
            Place::One(Sort::Expression),
        ),
        Kind::BindingRestElement => PlaceList::One(Place::One(Sort::Pattern)),
        Kind::ArrayAssignmentTarget => PlaceList::Two(
            Place::Spaced(Sort::TargetElement),
            Place::Optional(Sort::Only(Kind::AssignmentTargetRest)),
        ),
        Kind::ObjectAssignmentTarget => PlaceList::Two(
            Place::Many(Sort::Only(Kind::AssignmentTargetProperty)),
            Place::Optional(Sort::ObjectTargetRest),
        ),
        Kind::AssignmentTargetProperty => PlaceList::Two(
            key_place(view.is_set(0), Sort::Key),
            Place::One(Sort::TargetElement),
        ),
        Kind::AssignmentTargetWithDefault => PlaceList::Two(
            Place::One(Sort::Target),
            Place::One(Sort::Expression),
        ),
        Kind::AssignmentTargetRest => PlaceList::One(Place::One(Sort::Target)),
        _ => function_kind_places(kind, view),
    }
}

fn places<V: View>(kind: Kind, view: &V) -> PlaceList
    ensures { places_seen result ≡ places kind (texts_of (V.term view.now)) }
{
    match kind {
        Kind::TemplateLiteral => PlaceList::Two(
            Place::Some(Sort::TemplateText),
            Place::Many(Sort::Expression),
        ),
        Kind::ParenthesizedExpression
        | Kind::SpreadElement
        | Kind::UnaryExpression
        | Kind::AwaitExpression => PlaceList::One(Place::One(Sort::Expression)),
        Kind::ArrayExpression => PlaceList::One(Place::Spaced(Sort::Argument)),
        Kind::ObjectExpression => PlaceList::One(Place::Many(Sort::Property)),
        Kind::ObjectProperty => PlaceList::Two(
            key_place(view.is_set(3), Sort::Key),
            value_place(view),
        ),
        Kind::SequenceExpression => PlaceList::One(Place::Several(Sort::Expression)),
        Kind::AssignmentExpression => PlaceList::Two(
            target_place(view),
            Place::One(Sort::Expression),
        ),
        Kind::ArrowFunctionExpression => PlaceList::Two(
            Place::One(Sort::Only(Kind::FormalParameters)),
            Place::One(Sort::ArrowBody),
        ),
        Kind::YieldExpression => PlaceList::One(yield_place(view)),
        Kind::ConditionalExpression => PlaceList::Three(
            Place::One(Sort::Expression),
            Place::One(Sort::Expression),
            Place::One(Sort::Expression),
        ),
        Kind::LogicalExpression | Kind::BinaryExpression => PlaceList::Two(
            Place::One(Sort::Expression),
            Place::One(Sort::Expression),
        ),
        Kind::PrivateInExpression => PlaceList::Two(
            Place::One(Sort::Only(Kind::PrivateIdentifier)),
            Place::One(Sort::Expression),
        ),
        Kind::UpdateExpression => PlaceList::One(Place::One(Sort::SimpleTarget)),
        Kind::ChainExpression => PlaceList::One(Place::One(Sort::ChainElement)),
        Kind::CallExpression => PlaceList::Two(object_place(view), Place::Many(Sort::Argument)),
        Kind::ImportExpression => PlaceList::Two(
            Place::One(Sort::Expression),
            Place::Optional(Sort::Expression),
        ),
        Kind::StaticMemberExpression => PlaceList::Two(
            object_place(view),
            Place::One(Sort::Only(Kind::IdentifierName)),
        ),
        Kind::ComputedMemberExpression => PlaceList::Two(
            object_place(view),
            Place::One(Sort::Expression),
        ),
        Kind::PrivateFieldExpression => PlaceList::Two(
            Place::One(Sort::Expression),
            Place::One(Sort::Only(Kind::PrivateIdentifier)),
        ),
        Kind::TaggedTemplateExpression => PlaceList::Two(
            Place::One(Sort::Expression),
            Place::One(Sort::TaggedTemplate),
        ),
        Kind::NewExpression => PlaceList::Two(
            Place::One(Sort::Expression),
            Place::Many(Sort::Argument),
        ),
        _ => pattern_places(kind, view),
    }
}

fn part_places_at<V: View>(sort: Sort, kind: Kind, view: &V) -> PlaceList
    ensures { places_seen result ≡ part_places_at (sort_seen sort) kind (texts_of (V.term view.now)) }
{
    match sort {
        Sort::ObjectRest => match kind {
            Kind::BindingRestElement => {
                PlaceList::One(Place::One(Sort::Only(Kind::BindingIdentifier)))
            }
            _ => places(kind, view),
        },
        Sort::ObjectTargetRest => match kind {
            Kind::AssignmentTargetRest => PlaceList::One(Place::One(Sort::SimpleTarget)),
            _ => places(kind, view),
        },
        Sort::TaggedTemplate => match kind {
            Kind::TemplateLiteral => PlaceList::Two(
                Place::Some(Sort::Only(Kind::TemplateElement)),
                Place::Many(Sort::Expression),
            ),
            _ => places(kind, view),
        },
        _ => places(kind, view),
    }
}

/// The places of the parts of a node that stands at the sort.
pub fn places_at<V: View>(sort: Sort, kind: Kind, view: &V) -> PlaceList
    ensures { places_seen result ≡ places_at (sort_seen sort) kind (texts_of (V.term view.now)) }
{
    match sort {
        Sort::ExportedDefault => match kind {
            Kind::FunctionDeclaration => {
                function_places(Place::Optional(Sort::Only(Kind::BindingIdentifier)))
            }
            Kind::ClassDeclaration => {
                class_places(Place::Optional(Sort::Only(Kind::BindingIdentifier)))
            }
            _ => places(kind, view),
        },
        Sort::Method | Sort::PlainMethod => match kind {
            Kind::FunctionExpression => function_places(Place::Nothing),
            _ => places(kind, view),
        },
        Sort::ForLeft => match kind {
            Kind::VariableDeclaration => PlaceList::One(Place::Single(Sort::ForDeclarator)),
            _ => places(kind, view),
        },
        Sort::ForDeclarator => match kind {
            Kind::VariableDeclarator => {
                PlaceList::Two(Place::One(Sort::Pattern), Place::Nothing)
            }
            _ => places(kind, view),
        },
        Sort::ExportFromSpecifier => match kind {
            Kind::ExportSpecifier => PlaceList::Two(
                Place::One(Sort::ModuleExportName),
                Place::One(Sort::ModuleExportName),
            ),
            _ => places(kind, view),
        },
        _ => part_places_at(sort, kind, view),
    }
}
