//! Statements and declarations. What holds statements takes the reader of those as a parameter.

ghost use Rattle.std.specs.Prelude.{◌≡◌, ◌+◌, ◌<◌, ◌^◌, [], length, map, IfOk};
ghost use Rattle.small_tree.specs.TermOf.{declaration_term, statement_term};
ghost use Rattle.js_read.specs.Read as spec;
ghost use Rattle.js_read.specs.Gives.{Reads};
ghost use Rattle.js_read.specs.Nests.{Holds, parameter_name, parameter_names, statements_of};

use crate::expression::expression;
use crate::fault::Halt;
use crate::names::{binding, expect, span_from};
use crate::{found, nodes};
use js_lex::Tokens;
use small_tree::{
    BindingPattern, Declaration, FormalParameter, FormalParameters, FunctionBody, Items, Statement,
};
use std::alloc::Global;

/// One or more parameters.
fn names(alloc: Global, tokens: &mut Tokens<'_>) -> Result<Items<FormalParameter>, Halt>
    ensures { Reads (λ found. map parameter_name found) (spec.separated spec.binding (length tokens.old) [] tokens.old) result tokens.new }
{
    let mut found = Items::from_vec(Vec::with_capacity(alloc, 2)?);
    for _turn in 0..tokens.left() {
        let id = binding(alloc, tokens)?;
        found.push(FormalParameter {
            span: id.span,
            pattern: BindingPattern::BindingIdentifier(id),
        })?;
        if !tokens.sees(b',') {
            return Ok(found);
        }
        tokens.advance();
    }
    Err(Halt::Unread)
}

/// The parameters of a function, with their parentheses.
#[tactic(auto, unfolding(crate::specs::Read::parameters))]
fn parameters(alloc: Global, tokens: &mut Tokens<'_>) -> Result<FormalParameters, Halt>
    ensures { Reads parameter_names (spec.parameters tokens.old) result tokens.new }
{
    let start = tokens.start();
    expect(tokens, b'(')?;
    let items = if tokens.sees(b')') {
        Items::new(alloc)
    } else {
        names(alloc, tokens)?
    };
    expect(tokens, b')')?;
    Ok(FormalParameters {
        span: span_from(start, tokens),
        items,
    })
}

/// Whether a declaration begins.
pub(crate) fn declares(tokens: &Tokens<'_>) -> bool
    ensures { result ≡ spec.declares tokens.now }
{
    tokens.sees_word("const") || tokens.sees_word("function")
}

/// What reads the statements of a body, and what holds such a body.
#[derive(Clone, Copy)]
pub(crate) struct Bodies<F> {
    pub(crate) alloc: Global,
    /// How deep a statement of a body may be.
    pub(crate) depth: u16,
    pub(crate) part: F,
}

impl<F: Fn(Global, &mut Tokens<'_>, u16) -> Result<Statement, Halt>> Bodies<F> {
    fn part(&self, tokens: &mut Tokens<'_>) -> Result<Statement, Halt>
        requires { Holds self.now.depth (F.pre self.now.part) (F.post self.now.part) }
        ensures { Reads statement_term (spec.statement self.now.depth tokens.old) result tokens.new }
    {
        (self.part)(self.alloc, tokens, self.depth)
    }

    /// The statements before a `}`.
    fn statements(&self, tokens: &mut Tokens<'_>) -> Result<Items<Statement>, Halt>
        requires { Holds self.now.depth (F.pre self.now.part) (F.post self.now.part) }
        ensures { Reads (λ found. map statement_term found) (spec.statements self.now.depth (spec.statement self.now.depth) (length tokens.old) [] tokens.old) result tokens.new }
    {
        let mut found = Items::from_vec(Vec::with_capacity(self.alloc, 1)?);
        for _turn in 0..tokens.left() {
            if tokens.sees(b'}') {
                return Ok(found);
            }
            found.push(self.part(tokens)?)?;
        }
        Err(Halt::Unread)
    }

    /// The body of a function, with its braces.
    #[tactic(auto, unfolding(crate::specs::Read::body))]
    fn body(&self, tokens: &mut Tokens<'_>) -> Result<FunctionBody, Halt>
        requires { Holds self.now.depth (F.pre self.now.part) (F.post self.now.part) }
        ensures reads { Reads statements_of (spec.body self.now.depth (spec.statement self.now.depth) tokens.old) result tokens.new }
        ensures bare { IfOk result (λ b. b.directives ≡ []) }
    {
        let start = tokens.start();
        expect(tokens, b'{')?;
        let statements = self.statements(tokens)?;
        expect(tokens, b'}')?;
        Ok(FunctionBody {
            span: span_from(start, tokens),
            directives: Items::new(self.alloc),
            statements,
        })
    }

    /// Whether a function with these parameters is not too deep.
    fn fits(&self, params: &FormalParameters) -> bool
        ensures { result ≡ spec.fits self.now.depth (parameter_names params.now) }
    {
        params.items.is_empty() || 2 <= self.depth
    }

    /// The function behind the word `function`, which stands at `start`.
    #[tactic(auto, unfolding(crate::specs::Read::function))]
    fn function(&self, tokens: &mut Tokens<'_>, start: u32) -> Result<Declaration, Halt>
        requires { Holds self.now.depth (F.pre self.now.part) (F.post self.now.part) }
        ensures { Reads declaration_term (spec.function self.now.depth (spec.statement self.now.depth) tokens.old) result tokens.new }
    {
        let id = binding(self.alloc, tokens)?;
        let params = parameters(self.alloc, tokens)?;
        let body = self.body(tokens)?;
        if !self.fits(&params) {
            return Err(Halt::Unread);
        }
        let span = span_from(start, tokens);
        Ok(nodes::function(self.alloc, span, id, params, body)?)
    }

    /// The constant behind the word `const`, which stands at `start`.
    #[tactic(auto, unfolding(crate::specs::Read::constant, crate::specs::Read::closed))]
    fn constant(&self, tokens: &mut Tokens<'_>, start: u32) -> Result<Declaration, Halt>
        ensures { Reads declaration_term (spec.constant self.now.depth (spec.statement self.now.depth) tokens.old) result tokens.new }
    {
        let id = binding(self.alloc, tokens)?;
        expect(tokens, b'=')?;
        let init = expression(self.alloc, tokens, self.depth)?;
        let inner = span_from(id.span.start, tokens);
        expect(tokens, b';')?;
        let span = span_from(start, tokens);
        Ok(nodes::constant(self.alloc, span, inner, id, init.tree)?)
    }

    /// The declaration, where one begins.
    #[tactic(auto, unfolding(crate::specs::Read::declaration))]
    pub(crate) fn declaration(&self, tokens: &mut Tokens<'_>) -> Result<Declaration, Halt>
        requires { Holds self.now.depth (F.pre self.now.part) (F.post self.now.part) }
        ensures { Reads declaration_term (spec.declaration self.now.depth (spec.statement self.now.depth) tokens.old) result tokens.new }
    {
        let start = tokens.start();
        let constant = tokens.sees_word("const");
        tokens.advance();
        if constant {
            self.constant(tokens, start)
        } else {
            self.function(tokens, start)
        }
    }

    /// The statement behind the word `return`, which stands at `start`.
    #[tactic(auto, unfolding(crate::specs::Read::returned))]
    fn returned(&self, tokens: &mut Tokens<'_>, start: u32) -> Result<Statement, Halt>
        requires { self.now.depth + 1 < 2 ^ 16 }
        ensures { Reads statement_term (spec.returned self.now.depth (spec.statement self.now.depth) tokens.old) result tokens.new }
    {
        if !tokens.same_line() {
            return Err(Halt::Unread);
        }
        let argument = expression(self.alloc, tokens, self.depth + 1)?;
        expect(tokens, b';')?;
        let span = span_from(start, tokens);
        Ok(nodes::returned(self.alloc, span, argument.tree)?)
    }

    /// An expression as a statement, which begins at `start`.
    #[tactic(auto, unfolding(crate::specs::Read::effect))]
    fn effect(&self, tokens: &mut Tokens<'_>, start: u32) -> Result<Statement, Halt>
        requires { self.now.depth + 1 < 2 ^ 16 }
        ensures { Reads statement_term (spec.effect self.now.depth (spec.statement self.now.depth) tokens.old) result tokens.new }
    {
        let found = expression(self.alloc, tokens, self.depth + 1)?;
        if found::is_string(&found.tree) {
            return Err(Halt::Unread);
        }
        expect(tokens, b';')?;
        let span = span_from(start, tokens);
        Ok(nodes::effect(self.alloc, span, found.tree)?)
    }

    /// A statement, of at most two levels more than those of a body.
    #[tactic(auto, unfolding(crate::specs::Read::either))]
    fn either(&self, tokens: &mut Tokens<'_>) -> Result<Statement, Halt>
        requires { Holds self.now.depth (F.pre self.now.part) (F.post self.now.part) }
        ensures { Reads statement_term (spec.either self.now.depth (spec.statement self.now.depth) tokens.old) result tokens.new }
    {
        if declares(tokens) {
            return Ok(nodes::declared(self.declaration(tokens)?));
        }
        let start = tokens.start();
        if tokens.sees_word("return") {
            tokens.advance();
            return self.returned(tokens, start);
        }
        self.effect(tokens, start)
    }
}

/// A statement of at most this depth.
#[tactic(auto, unfolding(crate::specs::Read::statement))]
pub(crate) fn statement(
    alloc: Global,
    tokens: &mut Tokens<'_>,
    depth: u16,
) -> Result<Statement, Halt>
    ensures { Reads statement_term (spec.statement depth tokens.old) result tokens.new }
{
    if depth < 2 {
        return Err(Halt::Unread);
    }
    Bodies {
        alloc,
        depth: depth - 2,
        part: statement,
    }
    .either(tokens)
}
