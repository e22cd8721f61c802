//! Imports, exports and whole modules.

ghost use Rattle.std.specs.Prelude.{◌≡◌, ◌≤◌, ◌+◌, ◌<◌, ◌^◌, [], length, map, true, IfOk, IfErr};
ghost use Rattle.small_tree.specs.TermOf.{specifier_term, statement_term, program_term};
ghost use Rattle.js_read.specs.Read as spec;
ghost use Rattle.js_term.specs.Term.{Text, Term, all, depth};
ghost use Rattle.js_term.specs.Lexeme.{narrow};
ghost use Rattle.js_term.specs.Spells.{Spells};
ghost use Rattle.js_term.specs.Form.{is_small};
ghost use Rattle.js_term.specs.Node.{program_of};
ghost use Rattle.js_read.specs.Gives.{Reads, Gives, Refuses, StopsBy};

use crate::fault::{Halt, ReadFault};
use crate::names::{binding, expect, expect_word, name, span_from, string};
use crate::nodes;
use crate::statement::{Bodies, declares, statement};
use js_lex::Tokens;
use js_small::is_small_by;
use small_tree::{
    BindingIdentifier, IdentifierName, ImportSpecifier, Items, ModuleExportName, Program, Span,
    Statement, is_reserved,
};
use std::alloc::Global;

/// The specifier `x as y`, from behind the `as`.
#[tactic(auto, unfolding(crate::specs::Read::renamed))]
fn renamed(
    alloc: Global,
    tokens: &mut Tokens<'_>,
    imported: IdentifierName,
) -> Result<ImportSpecifier, Halt>
    ensures { Reads specifier_term (spec.renamed imported.name tokens.old) result tokens.new }
{
    let local = binding(alloc, tokens)?;
    Ok(ImportSpecifier {
        span: span_from(imported.span.start, tokens),
        imported: ModuleExportName::IdentifierName(imported),
        local,
    })
}

/// The specifier `x`.
#[tactic(auto, unfolding(crate::specs::Read::unrenamed))]
fn unrenamed(imported: IdentifierName) -> Result<ImportSpecifier, Halt>
    ensures { (rest : Text) → Reads specifier_term (spec.unrenamed imported.name rest) result rest }
{
    if is_reserved(imported.name.as_str()) {
        return Err(Halt::Unread);
    }
    Ok(ImportSpecifier {
        span: imported.span,
        local: BindingIdentifier {
            span: imported.span,
            name: imported.name.clone()?,
            symbol_id: None,
        },
        imported: ModuleExportName::IdentifierName(imported),
    })
}

#[tactic(auto, unfolding(crate::specs::Read::specifier))]
fn specifier(alloc: Global, tokens: &mut Tokens<'_>) -> Result<ImportSpecifier, Halt>
    ensures { Reads specifier_term (spec.specifier tokens.old) result tokens.new }
{
    let imported = name(alloc, tokens)?;
    if !tokens.sees_word("as") {
        return unrenamed(imported);
    }
    tokens.advance();
    renamed(alloc, tokens, imported)
}

/// One or more specifiers.
fn listed(alloc: Global, tokens: &mut Tokens<'_>) -> Result<Items<ImportSpecifier>, Halt>
    ensures { Reads (λ found. map specifier_term found) (spec.separated spec.specifier (length tokens.old) [] tokens.old) result tokens.new }
{
    let mut found = Items::from_vec(Vec::with_capacity(alloc, 2)?);
    for _turn in 0..tokens.left() {
        found.push(specifier(alloc, tokens)?)?;
        if !tokens.sees(b',') {
            return Ok(found);
        }
        tokens.advance();
    }
    Err(Halt::Unread)
}

#[tactic(auto, unfolding(crate::specs::Read::specifiers))]
fn specifiers(alloc: Global, tokens: &mut Tokens<'_>) -> Result<Items<ImportSpecifier>, Halt>
    ensures { Reads (λ found. map specifier_term found) (spec.specifiers tokens.old) result tokens.new }
{
    if tokens.sees(b'}') {
        return Ok(Items::new(alloc));
    }
    listed(alloc, tokens)
}

/// The import behind the word `import`, which stands at `start`.
#[tactic(auto, unfolding(crate::specs::Read::imported))]
fn imported(alloc: Global, tokens: &mut Tokens<'_>, start: u32) -> Result<Statement, Halt>
    ensures { Reads statement_term (spec.imported tokens.old) result tokens.new }
{
    expect(tokens, b'{')?;
    let specifiers = specifiers(alloc, tokens)?;
    expect(tokens, b'}')?;
    expect_word(tokens, "from")?;
    let source = string(alloc, tokens)?;
    expect(tokens, b';')?;
    Ok(nodes::imported(span_from(start, tokens), specifiers, source))
}

/// The export behind the word `export`, which stands at `start`.
#[tactic(auto, unfolding(crate::specs::Read::exported))]
fn exported(
    alloc: Global,
    tokens: &mut Tokens<'_>,
    start: u32,
    depth: u16,
) -> Result<Statement, Halt>
    requires { depth + 1 < 2 ^ 16 }
    ensures { Reads statement_term (spec.exported depth tokens.old) result tokens.new }
{
    if !declares(tokens) {
        return Err(Halt::Unread);
    }
    let bodies = Bodies {
        alloc,
        depth,
        part: statement,
    };
    let declaration = bodies.declaration(tokens)?;
    Ok(nodes::exported(span_from(start, tokens), declaration))
}

/// An item of at most the depth `depth` and three more.
#[tactic(auto, unfolding(crate::specs::Read::item))]
fn item(alloc: Global, tokens: &mut Tokens<'_>, depth: u16) -> Result<Statement, Halt>
    requires { depth + 3 < 2 ^ 16 }
    ensures { Reads statement_term (spec.item depth tokens.old) result tokens.new }
{
    let start = tokens.start();
    if tokens.sees_word("import") {
        tokens.advance();
        return imported(alloc, tokens, start);
    }
    if tokens.sees_word("export") {
        tokens.advance();
        return exported(alloc, tokens, start, depth);
    }
    statement(alloc, tokens, depth + 3)
}

/// The items up to the end.
fn items(alloc: Global, tokens: &mut Tokens<'_>, depth: u16) -> Result<Items<Statement>, Halt>
    requires { depth + 3 < 2 ^ 16 }
    ensures { Reads (λ found. map statement_term found) (spec.items depth (length tokens.old) [] tokens.old) result tokens.new }
{
    let mut found = Items::new(alloc);
    for _turn in 0..tokens.left() {
        if tokens.at_end() {
            return Ok(found);
        }
        found.push(item(alloc, tokens, depth)?)?;
    }
    if tokens.at_end() {
        Ok(found)
    } else {
        Err(Halt::Unread)
    }
}

/// Where a module stands whose items end here: nowhere, if it has none.
fn program_span(start: u32, tokens: &Tokens<'_>, body: &Items<Statement>) -> Span {
    if body.is_empty() {
        Span { start: 0, end: 0 }
    } else {
        span_from(start, tokens)
    }
}

fn program(alloc: Global, tokens: &mut Tokens<'_>) -> Result<Program, Halt>
    ensures reads { Reads (λ p. map statement_term p.body) (spec.items 508 (length tokens.old) [] tokens.old) result tokens.new }
    ensures bare { IfOk result (λ p. program_term p ≡ program_of (all (map statement_term p.body))) }
{
    let start = tokens.start();
    let body = items(alloc, tokens, 508)?;
    Ok(Program {
        span: program_span(start, tokens, &body),
        hashbang: None,
        directives: Items::new(alloc),
        body,
        scope_id: None,
    })
}

/// The module that the text spells, whether it is small or not.
#[tactic(auto, unfolding(crate::specs::Read::read_of))]
pub(crate) fn read_program(alloc: Global, text: &str) -> Result<Program, ReadFault>
    requires { length text.now ≤ 4294967295 }
    ensures gives { Gives program_term (spec.read_of text.now) result }
    ensures hint { IfErr result (λ e. StopsBy (length text.now) e) }
{
    let mut tokens = Tokens::new(text);
    match program(alloc, &mut tokens) {
        Ok(program) => Ok(program),
        Err(Halt::NoMemory) => Err(ReadFault::NoMemory),
        Err(Halt::Unread) => Err(ReadFault::Unread {
            at: text.len().saturating_sub(tokens.ahead()),
        }),
    }
}

/// The small module that the text spells.
pub fn read_module(alloc: Global, text: &str) -> Result<Program, ReadFault>
    requires { length text.now ≤ 4294967295 }
    ensures spelled { IfOk result (λ p. Spells narrow text.now (program_term p)) }
    ensures small { IfOk result (λ p. is_small (program_term p) ≡ true) }
    ensures shallow { IfOk result (λ p. depth (program_term p) ≤ 512) }
    ensures unique { IfOk result (λ p. (t : Term) → Spells narrow text.now t → is_small t ≡ true → depth t ≤ 512 → t ≡ program_term p) }
    ensures unread { IfErr result (λ e. Refuses text.now e) }
    ensures hint { IfErr result (λ e. StopsBy (length text.now) e) }
{
    let program = read_program(alloc, text)?;
    if !is_small_by(alloc, &program)? {
        return Err(ReadFault::Unread { at: 0 });
    }
    Ok(program)
}
