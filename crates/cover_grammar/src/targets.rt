//! What was read as an expression, as an assignment target (ECMAScript 13.15.5).

ghost use Rattle.std.specs.Prelude.{◌≡◌, false, map, true};
ghost use Rattle.js_term.specs.Term.{all};
ghost use Rattle.js_syntax.specs.Edges.{is_simple_target as is_simple};
ghost use Rattle.js_tree.specs.Parts.{kids, top};
ghost use Rattle.js_tree.specs.TermOf.{term};
ghost use Rattle.js_tree.specs.Words.{texts_seen};
ghost use Rattle.js_reading.specs.Targets.{target_of, pair_texts};
ghost use Rattle.js_syntax.specs.Sorts as sorts;
ghost use Rattle.cover_grammar.specs.Becomes.{Becomes, sole, both};
ghost use Rattle.cover_grammar.specs.Converted as converted;

use crate::taken::{into_both, into_list, into_sole};
use js_items::Items;
use js_reader::Halt;
use js_term::is_kind;
use js_tree::{Form, Kind, Node, Texts};
use std::alloc::Global;

/// What is asked of a part of a literal.
#[derive(Clone, Copy)]
enum Becoming {
    Target,
    /// A target, one with a default, or a hole.
    Element,
    Property,
    /// The rest of an object: a name or a member.
    Simple,
}

#[derive(Clone, Copy)]
enum Literal {
    Array,
    Object,
}

/// What is done with a part, by its form.
#[derive(Clone, Copy)]
enum Step {
    Keep,
    Default,
    Pair,
    Items(Literal),
    Refuse,
}

/// The items of a target, and its rest or nothing.
#[derive(Drop)]
struct Gathered {
    items: Items<Node>,
    rest: Node,
}

impl Literal {
    fn item(self) -> Becoming
        ensures { result ≡ converted.item_becomes self }
    {
        match self {
            Literal::Array => Becoming::Element,
            Literal::Object => Becoming::Property,
        }
    }

    fn rest(self) -> Becoming
        ensures { result ≡ converted.rest_becomes self }
    {
        match self {
            Literal::Array => Becoming::Target,
            Literal::Object => Becoming::Simple,
        }
    }

    fn target_kind(self) -> Kind
        ensures { result ≡ converted.kind_becomes self }
    {
        match self {
            Literal::Array => Kind::ArrayAssignmentTarget,
            Literal::Object => Kind::ObjectAssignmentTarget,
        }
    }
}

fn is_simple_kind(kind: Kind) -> bool
    ensures { result ≡ sorts.is_simple_target kind }
{
    matches!(
        kind,
        Kind::Identifier
            | Kind::StaticMemberExpression
            | Kind::ComputedMemberExpression
            | Kind::PrivateFieldExpression
    )
}

fn simple_step(kind: Kind) -> Step
    ensures { result ≡ converted.simple_step kind }
{
    if is_simple_kind(kind) {
        Step::Keep
    } else {
        Step::Refuse
    }
}

fn target_step(kind: Kind) -> Step
    ensures { result ≡ converted.target_step kind }
{
    match kind {
        Kind::ObjectExpression => Step::Items(Literal::Object),
        Kind::ArrayExpression => Step::Items(Literal::Array),
        _ => simple_step(kind),
    }
}

fn element_step(kind: Kind) -> Step
    ensures { result ≡ converted.element_step kind }
{
    match kind {
        Kind::AssignmentExpression => Step::Default,
        _ => target_step(kind),
    }
}

fn property_step(kind: Kind) -> Step
    ensures { result ≡ converted.property_step kind }
{
    match kind {
        Kind::ObjectProperty => Step::Pair,
        Kind::AssignmentTargetProperty => Step::Keep,
        _ => Step::Refuse,
    }
}

fn absent_step(becoming: Becoming) -> Step
    ensures { result ≡ converted.absent_step becoming }
{
    match becoming {
        Becoming::Element => Step::Keep,
        _ => Step::Refuse,
    }
}

fn kind_step(becoming: Becoming, kind: Kind) -> Step
    ensures { result ≡ converted.kind_step becoming kind }
{
    match becoming {
        Becoming::Target => target_step(kind),
        Becoming::Element => element_step(kind),
        Becoming::Property => property_step(kind),
        Becoming::Simple => simple_step(kind),
    }
}

fn step_of(becoming: Becoming, form: Form) -> Step
    ensures { result ≡ converted.step_of becoming form }
{
    match form {
        Form::Absent => absent_step(becoming),
        Form::List => Step::Refuse,
        Form::Node(kind) => kind_step(becoming, kind),
    }
}

/// Whether a name or a member stands here (AssignmentTargetType, ECMAScript 8.6.4).
#[tactic(auto, using(js_tree::proofs::TermOf::term_is))]
pub(crate) fn is_simple_target(node: &Node) -> bool
    ensures { result ≡ is_simple (term node.now) }
{
    match node.form() {
        Form::Node(kind) => is_simple_kind(kind),
        Form::Absent => false,
        Form::List => false,
    }
}

/// The flags of a property of a target: computed and shorthand.
#[tactic(auto, unfolding(js_tree::specs::Parts::top))]
fn pair_texts(node: &Node) -> Texts
    ensures { texts_seen result ≡ pair_texts (top node.now).texts }
{
    match node.texts() {
        Texts::Four(_, _, shorthand, computed) => Texts::Two(*computed, *shorthand),
        _ => Texts::None,
    }
}

/// Whether the operator of an assignment is `=`.
fn is_assign(node: &Node) -> bool
    ensures { result ≡ converted.is_assign (top node.now).texts }
{
    match node.texts() {
        Texts::One(operator) => operator.as_str() == "=",
        Texts::Text(operator) => operator.as_str() == "=",
        _ => false,
    }
}

fn with_default(alloc: Global, node: Node) -> Result<Node, Halt>
    ensures { Becomes term (converted.default_in (top node).texts (both (kids node))) result }
{
    let assigns = is_assign(&node);
    let (target, value) = into_both(alloc, node)?;
    if !assigns {
        return Err(Halt::Unread);
    }
    Ok(Node::of_two(
        alloc,
        Kind::AssignmentTargetWithDefault,
        Texts::None,
        target,
        value,
    )?)
}

fn is_spread(form: Form) -> bool
    ensures { result ≡ converted.is_spread form }
{
    match form {
        Form::Absent => false,
        Form::List => false,
        Form::Node(kind) => is_kind(kind, Kind::SpreadElement),
    }
}

/// Whether a spread of one part stands here.
#[tactic(auto, using(crate::proofs::Converting::rest_is))]
fn is_rest(node: &Node) -> bool
    ensures { result ≡ converted.is_rest (term node.now) }
{
    is_spread(node.form()) && node.kid_count() == 1
}

/// How many items of a list stand before its rest.
fn plain_count(list: &Node) -> usize
    ensures { result ≡ converted.plain_count (map term (kids list.now)) }
{
    let count = list.kid_count();
    if count == 0 {
        return 0;
    }
    match list.kid(count - 1) {
        None => 0,
        Some(last) => { if is_rest(last) { count - 1 } else { count } }
    }
}

#[cycle(convert)]
fn convert(alloc: Global, becoming: Becoming, node: Node) -> Result<Node, Halt>
    ensures { Becomes term (converted.become becoming (term node)) result }
{
    match step_of(becoming, node.form()) {
        Step::Keep => Ok(node),
        Step::Refuse => Err(Halt::Unread),
        Step::Default => with_default(alloc, node),
        Step::Pair => {
            let texts = pair_texts(&node);
            let (key, value) = into_both(alloc, node)?;
            let target = convert(alloc, Becoming::Element, value)?;
            Ok(Node::of_two(alloc, Kind::AssignmentTargetProperty, texts, key, target)?)
        }
        Step::Items(literal) => {
            let list = into_list(alloc, node)?;
            let Gathered { items, rest } = gather(alloc, literal, list)?;
            let kind = literal.target_kind();
            Ok(Node::of_two(alloc, kind, Texts::None, Node::list(items), rest)?)
        }
    }
}

/// Converts the items of a list one by one; a spread at the end becomes the rest.
#[cycle(convert)]
fn gather(alloc: Global, literal: Literal, list: Node) -> Result<Gathered, Halt>
    ensures { Becomes converted.gathered_of (converted.targets literal (all (map term (kids list)))) result }
{
    let count = list.kid_count();
    let plain = plain_count(&list);
    let mut list = list;
    let mut items = Items::with_capacity(alloc, plain)?;
    for k in 0..plain {
        let item = list.replace_kid(k, Node::absent(alloc));
        let target = convert(alloc, literal.item(), item)?;
        items.push(target)?;
    }
    if plain == count {
        let rest = Node::absent(alloc);
        return Ok(Gathered { items, rest });
    }
    let spread = list.replace_kid(plain, Node::absent(alloc));
    let argument = into_sole(alloc, spread)?;
    let target = convert(alloc, literal.rest(), argument)?;
    let rest = Node::of_one(alloc, Kind::AssignmentTargetRest, Texts::None, target)?;
    Ok(Gathered { items, rest })
}

/// The target that was read as an expression. What is a target already stays as it is.
pub fn to_target(alloc: Global, node: Node) -> Result<Node, Halt>
    ensures { Becomes term (target_of false (term node)) result }
{
    convert(alloc, Becoming::Target, node)
}

/// The target, target with a default, or hole that was read as an element of an array.
pub fn to_target_element(alloc: Global, node: Node) -> Result<Node, Halt>
    ensures { Becomes term (target_of true (term node)) result }
{
    convert(alloc, Becoming::Element, node)
}
