//! Expressions. What holds expressions takes the reader of those as a parameter, so that each is proved by itself.

ghost use Rattle.std.specs.Prelude.{◌≡◌, ◌≤◌, ◌<◌, ◌+◌, ◌^◌, [], length, map, IfOk};
ghost use Rattle.js_term.specs.Lexeme.{right_paren};
ghost use Rattle.js_read.specs.Read as spec;
ghost use Rattle.js_read.specs.Gives.{Reads};
ghost use Rattle.js_read.specs.Nests.{Nests, listing, tree};

use crate::fault::Halt;
use crate::found::{Found, Listing};
use crate::{found, names};
use js_lex::{Lexeme, Tokens};
use small_tree::{BindingIdentifier, Ident, Items};
use std::alloc::Global;

/// A name, a number or a string.
#[tactic(auto, unfolding(crate::specs::Read::primary, crate::specs::Read::binding, crate::specs::Read::name, crate::specs::Read::source))]
fn primary(alloc: Global, tokens: &mut Tokens<'_>) -> Result<Found, Halt>
    ensures reads { Reads tree (spec.primary tokens.old) result tokens.new }
    ensures flat { IfOk result (λ f. f.depth ≡ 1) }
{
    let start = tokens.start();
    match tokens.peek() {
        Some(Lexeme::Word(_)) => {
            let BindingIdentifier { span, name, .. } = names::binding(alloc, tokens)?;
            Ok(found::identifier(span, name))
        }
        Some(Lexeme::Number(text)) => {
            let raw = Ident::new(alloc, text)?;
            tokens.advance();
            Ok(found::number(names::span_from(start, tokens), raw))
        }
        Some(Lexeme::String(_)) => Ok(found::string(names::string(alloc, tokens)?)),
        _ => Err(Halt::Unread),
    }
}

/// Whether an expression goes on behind what was read of it.
fn goes_on(tokens: &Tokens<'_>) -> bool
    ensures { result ≡ spec.goes_on tokens.now }
{
    tokens.sees(b'(') || tokens.sees(b'.')
}

/// The member behind the `.`, of an object that begins at `start`.
#[tactic(auto, unfolding(crate::specs::Read::member))]
fn member(alloc: Global, tokens: &mut Tokens<'_>, start: u32, object: Found) -> Result<Found, Halt>
    requires { object.depth < 2 ^ 32 }
    ensures reads { Reads tree (spec.member (tree object) tokens.old) result tokens.new }
    ensures flat { IfOk result (λ f. f.depth ≡ object.depth + 1) }
{
    let property = names::name(alloc, tokens)?;
    let span = names::span_from(start, tokens);
    Ok(found::member(alloc, span, object, property)?)
}

/// What reads the parts of an expression, and what holds such parts.
#[derive(Clone, Copy)]
struct Grammar<F> {
    alloc: Global,
    /// How deep a part may be.
    depth: u16,
    part: F,
}

impl<F: Fn(Global, &mut Tokens<'_>, u16) -> Result<Found, Halt>> Grammar<F> {
    fn part(&self, tokens: &mut Tokens<'_>) -> Result<Found, Halt>
        requires { Nests self.now.depth (F.pre self.now.part) (F.post self.now.part) }
        ensures reads { Reads tree (spec.read self.now.depth tokens.old) result tokens.new }
        ensures flat { IfOk result (λ f. f.depth ≤ self.now.depth) }
    {
        (self.part)(self.alloc, tokens, self.depth)
    }

    fn items(&self, tokens: &mut Tokens<'_>) -> Result<Listing, Halt>
        requires { Nests self.now.depth (F.pre self.now.part) (F.post self.now.part) }
        ensures reads { Reads listing (spec.separated (spec.read self.now.depth) (length tokens.old) [] tokens.old) result tokens.new }
        ensures flat { IfOk result (λ l. l.deepest ≤ self.now.depth) }
    {
        let mut items = Items::from_vec(Vec::with_capacity(self.alloc, 2)?);
        let mut deepest = 0;
        for _turn in 0..tokens.left() {
            let found = self.part(tokens)?;
            deepest = found.depth.max(deepest);
            items.push(found.tree)?;
            if !tokens.sees(b',') {
                return Ok(Listing { items, deepest });
            }
            tokens.advance();
        }
        Err(Halt::Unread)
    }

    fn arguments(&self, tokens: &mut Tokens<'_>) -> Result<Listing, Halt>
        requires { Nests self.now.depth (F.pre self.now.part) (F.post self.now.part) }
        ensures reads { Reads listing (spec.separated_until (spec.read self.now.depth) right_paren tokens.old) result tokens.new }
        ensures flat { IfOk result (λ l. l.deepest ≤ self.now.depth) }
    {
        if tokens.sees(b')') {
            return Ok(Listing {
                items: Items::new(self.alloc),
                deepest: 0,
            });
        }
        self.items(tokens)
    }

    /// The call behind the `(`, of a callee that begins at `start`.
    #[tactic(auto, unfolding(crate::specs::Read::call))]
    fn call(&self, tokens: &mut Tokens<'_>, start: u32, callee: Found) -> Result<Found, Halt>
        requires nests { Nests self.now.depth (F.pre self.now.part) (F.post self.now.part) }
        requires flat { callee.depth ≤ self.now.depth }
        ensures reads { Reads tree (spec.call (spec.read self.now.depth) (tree callee) tokens.old) result tokens.new }
        ensures flat { IfOk result (λ f. f.depth ≤ self.now.depth + 1) }
    {
        let arguments = self.arguments(tokens)?;
        names::expect(tokens, b')')?;
        let span = names::span_from(start, tokens);
        Ok(found::call(self.alloc, span, callee, arguments)?)
    }

    #[tactic(auto, unfolding(crate::specs::Read::extended))]
    fn extended(&self, tokens: &mut Tokens<'_>, start: u32, left: Found) -> Result<Found, Halt>
        requires { Nests self.now.depth (F.pre self.now.part) (F.post self.now.part) }
        ensures reads { Reads tree (spec.extended self.now.depth (spec.read self.now.depth) (tree left) tokens.old) result tokens.new }
        ensures flat { IfOk result (λ f. f.depth ≤ self.now.depth + 1) }
    {
        if left.depth > usize::from(self.depth) {
            return Err(Halt::Unread);
        }
        let calls = tokens.sees(b'(');
        tokens.advance();
        if calls {
            self.call(tokens, start, left)
        } else {
            member(self.alloc, tokens, start, left)
        }
    }

    fn climb(&self, tokens: &mut Tokens<'_>, start: u32, mut left: Found) -> Result<Found, Halt>
        requires nests { Nests self.now.depth (F.pre self.now.part) (F.post self.now.part) }
        requires flat { left.depth ≤ self.now.depth + 1 }
        ensures reads { Reads tree (spec.climb self.now.depth (spec.read self.now.depth) (length tokens.old) (tree left) tokens.old) result tokens.new }
        ensures flat { IfOk result (λ f. f.depth ≤ self.now.depth + 1) }
    {
        for _turn in 0..tokens.left() {
            if !goes_on(tokens) {
                return Ok(left);
            }
            left = self.extended(tokens, start, left)?;
        }
        Ok(left)
    }

    #[tactic(auto, unfolding(crate::specs::Read::whole))]
    fn whole(&self, tokens: &mut Tokens<'_>) -> Result<Found, Halt>
        requires { Nests self.now.depth (F.pre self.now.part) (F.post self.now.part) }
        ensures reads { Reads tree (spec.whole self.now.depth (spec.read self.now.depth) tokens.old) result tokens.new }
        ensures flat { IfOk result (λ f. f.depth ≤ self.now.depth + 1) }
    {
        let start = tokens.start();
        let first = primary(self.alloc, tokens)?;
        self.climb(tokens, start, first)
    }
}

/// An expression of at most this depth.
#[tactic(auto, unfolding(crate::specs::Read::read))]
pub(crate) fn expression(alloc: Global, tokens: &mut Tokens<'_>, depth: u16) -> Result<Found, Halt>
    ensures reads { Reads tree (spec.read depth tokens.old) result tokens.new }
    ensures flat { IfOk result (λ f. f.depth ≤ depth) }
{
    if depth == 0 {
        return Err(Halt::Unread);
    }
    Grammar {
        alloc,
        depth: depth - 1,
        part: expression,
    }
    .whole(tokens)
}
