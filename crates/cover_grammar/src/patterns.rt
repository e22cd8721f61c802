//! What was read as an assignment target, as a binding pattern (ECMAScript 14.3.3).

ghost use Rattle.std.specs.Prelude.{◌≡◌, false, map, true};
ghost use Rattle.js_tree.specs.Parts.{kids, top};
ghost use Rattle.js_tree.specs.TermOf.{term};
ghost use Rattle.js_tree.specs.Words.{texts_seen};
ghost use Rattle.js_reading.specs.Targets.{pattern_of, pattern_rest};
ghost use Rattle.cover_grammar.specs.Becomes.{Becomes, both};
ghost use Rattle.cover_grammar.specs.Bound as bound;

use crate::taken::{into_both, into_sole};
use js_items as lists;
use js_reader::Halt;
use js_tree::{Form, Kind, Node, Texts};
use std::alloc::Global;

/// What is asked of a part of a target.
#[derive(Clone, Copy)]
enum Binding {
    Pattern,
    /// A pattern, one with a default, or a hole.
    Element,
    Property,
    ArrayRest,
    ObjectRest,
    Name,
}

/// What the items of a pattern are.
#[derive(Clone, Copy)]
enum Items {
    Elements,
    Properties,
}

/// What is done with a part, by its form.
#[derive(Clone, Copy)]
enum Turn {
    Keep,
    Refuse,
    Name,
    Default,
    Pair,
    Rest(Binding),
    Pattern(Items),
}

impl Items {
    fn item(self) -> Binding
        ensures { result ≡ bound.item_binds self }
    {
        match self {
            Items::Elements => Binding::Element,
            Items::Properties => Binding::Property,
        }
    }

    fn rest(self) -> Binding
        ensures { result ≡ bound.rest_binds self }
    {
        match self {
            Items::Elements => Binding::ArrayRest,
            Items::Properties => Binding::ObjectRest,
        }
    }

    fn pattern_kind(self) -> Kind
        ensures { result ≡ bound.kind_binds self }
    {
        match self {
            Items::Elements => Kind::ArrayPattern,
            Items::Properties => Kind::ObjectPattern,
        }
    }
}

fn name_turn(kind: Kind) -> Turn
    ensures { result ≡ bound.name_turn kind }
{
    match kind {
        Kind::Identifier => Turn::Name,
        _ => Turn::Refuse,
    }
}

fn pattern_turn(kind: Kind) -> Turn
    ensures { result ≡ bound.pattern_turn kind }
{
    match kind {
        Kind::ObjectAssignmentTarget => Turn::Pattern(Items::Properties),
        Kind::ArrayAssignmentTarget => Turn::Pattern(Items::Elements),
        _ => name_turn(kind),
    }
}

fn element_turn(kind: Kind) -> Turn
    ensures { result ≡ bound.element_turn kind }
{
    match kind {
        Kind::AssignmentTargetWithDefault => Turn::Default,
        _ => pattern_turn(kind),
    }
}

fn property_turn(kind: Kind) -> Turn
    ensures { result ≡ bound.property_turn kind }
{
    match kind {
        Kind::AssignmentTargetProperty => Turn::Pair,
        _ => Turn::Refuse,
    }
}

fn rest_turn(inner: Binding, kind: Kind) -> Turn
    ensures { result ≡ bound.rest_turn inner kind }
{
    match kind {
        Kind::AssignmentTargetRest => Turn::Rest(inner),
        _ => Turn::Refuse,
    }
}

fn absent_turn(binding: Binding) -> Turn
    ensures { result ≡ bound.absent_turn binding }
{
    match binding {
        Binding::Element => Turn::Keep,
        Binding::ArrayRest => Turn::Keep,
        Binding::ObjectRest => Turn::Keep,
        _ => Turn::Refuse,
    }
}

fn kind_turn(binding: Binding, kind: Kind) -> Turn
    ensures { result ≡ bound.kind_turn binding kind }
{
    match binding {
        Binding::Pattern => pattern_turn(kind),
        Binding::Element => element_turn(kind),
        Binding::Property => property_turn(kind),
        Binding::ArrayRest => rest_turn(Binding::Pattern, kind),
        Binding::ObjectRest => rest_turn(Binding::Name, kind),
        Binding::Name => name_turn(kind),
    }
}

fn turn_of(binding: Binding, form: Form) -> Turn
    ensures { result ≡ bound.turn_of binding form }
{
    match form {
        Form::Absent => absent_turn(binding),
        Form::List => Turn::Refuse,
        Form::Node(kind) => kind_turn(binding, kind),
    }
}

/// Whether the node has one text alone.
fn is_single(node: &Node) -> bool
    ensures { result ≡ bound.is_single (top node.now).texts }
{
    match node.texts() {
        Texts::Text(_) => true,
        Texts::One(_) => true,
        _ => false,
    }
}

/// The texts of a node, which share their letters with it.
#[tactic(auto, unfolding(js_tree::specs::Parts::top, js_tree::specs::Parts::texts_of))]
fn texts_of(node: &Node) -> Result<Texts, Halt>
    ensures { Becomes texts_seen (Some (top node.now).texts) result }
{
    let texts = node.texts().try_clone()?;
    Ok(texts)
}

fn to_name(alloc: Global, node: Node) -> Result<Node, Halt>
    ensures { Becomes term (bound.name_in (top node).texts (kids node)) result }
{
    if !is_single(&node) || node.kid_count() != 0 {
        return Err(Halt::Unread);
    }
    let texts = texts_of(&node)?;
    Ok(Node::leaf(alloc, Kind::BindingIdentifier, texts))
}

/// The list of a pattern's target, and its rest or nothing.
fn into_listed(alloc: Global, node: Node) -> Result<(Node, Node), Halt>
    ensures { Becomes (λ p. (p.0, p.1)) (bound.listed_both (both (kids node))) result }
{
    let (list, rest) = into_both(alloc, node)?;
    match list.form() {
        Form::List => Ok((list, rest)),
        Form::Absent => Err(Halt::Unread),
        Form::Node(_) => Err(Halt::Unread),
    }
}

#[cycle(bind)]
fn bind(alloc: Global, binding: Binding, node: Node) -> Result<Node, Halt>
    ensures { Becomes term (bound.bind binding (term node)) result }
{
    match turn_of(binding, node.form()) {
        Turn::Keep => Ok(node),
        Turn::Refuse => Err(Halt::Unread),
        Turn::Name => to_name(alloc, node),
        Turn::Default => {
            let (target, value) = into_both(alloc, node)?;
            let pattern = bind(alloc, Binding::Pattern, target)?;
            let kind = Kind::AssignmentPattern;
            Ok(Node::of_two(alloc, kind, Texts::None, pattern, value)?)
        }
        Turn::Pair => {
            let texts = texts_of(&node)?;
            let (key, value) = into_both(alloc, node)?;
            let pattern = bind(alloc, Binding::Element, value)?;
            Ok(Node::of_two(alloc, Kind::BindingProperty, texts, key, pattern)?)
        }
        Turn::Rest(inner) => {
            let target = into_sole(alloc, node)?;
            let pattern = bind(alloc, inner, target)?;
            Ok(Node::of_one(alloc, Kind::BindingRestElement, Texts::None, pattern)?)
        }
        Turn::Pattern(items) => {
            let (list, rest) = into_listed(alloc, node)?;
            let kind = items.pattern_kind();
            let patterns = bind_all(alloc, items.item(), list)?;
            let rest = bind(alloc, items.rest(), rest)?;
            Ok(Node::of_two(alloc, kind, Texts::None, Node::list(patterns), rest)?)
        }
    }
}

/// Converts the items of a list one by one.
#[cycle(bind)]
fn bind_all(alloc: Global, binding: Binding, list: Node) -> Result<lists::Items<Node>, Halt>
    ensures { Becomes (map term) (bound.each_as (bound.bind binding) (map term (kids list))) result }
{
    let count = list.kid_count();
    let mut list = list;
    let mut patterns = lists::Items::with_capacity(alloc, count)?;
    for k in 0..count {
        let item = list.replace_kid(k, Node::absent(alloc));
        let pattern = bind(alloc, binding, item)?;
        patterns.push(pattern)?;
    }
    Ok(patterns)
}

/// The binding pattern that was read as a target.
pub fn to_pattern(alloc: Global, node: Node) -> Result<Node, Halt>
    ensures { Becomes term (pattern_of false (term node)) result }
{
    bind(alloc, Binding::Pattern, node)
}

/// The pattern, pattern with a default, or hole that was read as an element of a target.
pub fn to_pattern_element(alloc: Global, node: Node) -> Result<Node, Halt>
    ensures { Becomes term (pattern_of true (term node)) result }
{
    bind(alloc, Binding::Element, node)
}

/// The rest of an array's pattern that was read as that of a target; nothing stays nothing.
pub(crate) fn to_pattern_rest(alloc: Global, node: Node) -> Result<Node, Halt>
    ensures { Becomes term (pattern_rest (term node)) result }
{
    bind(alloc, Binding::ArrayRest, node)
}
