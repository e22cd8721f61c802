ghost use Rattle.std.specs.Prelude.{◌≡◌};
ghost use Rattle.js_term.specs.Kinds.{is_kind, is_among};
ghost use Rattle.js_term.specs.declared.kind.Kind.TheVariants.{LabeledStatement};
ghost use Rattle.js_syntax.specs.Parts.{parts_of, texts_of};
ghost use Rattle.js_syntax.specs.ModuleTree.{is_loop, allows_jump, no_jumps};
ghost use Rattle.module_tree.specs.JumpsSeen.{jumps_of, iteration_statements, breakable_statements, roots_of_jumps, in_statement};

use crate::enclosing::{EnclosingLabel, is_label, is_loop_label};
use js_rules::{Form, Kind, View};

/// The labels round a place, and whether `break` and `continue` stand there without one.
#[derive(Clone, Copy)]
pub struct Jumps<'a, V> {
    pub labels: Option<&'a EnclosingLabel<'a, V>>,
    pub breaks: bool,
    pub continues: bool,
}

/// Where a module, a function or a static block begins.
pub fn no_jumps<'a, V: View>() -> Jumps<'a, V>
    ensures { jumps_of V.term result ≡ no_jumps }
{
    Jumps {
        labels: None,
        breaks: false,
        continues: false,
    }
}

pub fn is_labelled(kind: Kind) -> bool
    ensures { result ≡ is_kind kind LabeledStatement }
{
    matches!(kind, Kind::LabeledStatement)
}

/// Whether no jump leaves a node of the kind.
pub fn is_root_of_jumps(kind: Kind) -> bool
    ensures { result ≡ is_among kind roots_of_jumps }
{
    matches!(
        kind,
        Kind::FunctionDeclaration
            | Kind::FunctionExpression
            | Kind::ArrowFunctionExpression
            | Kind::StaticBlock
    )
}

fn is_iteration_statement(kind: Kind) -> bool
    ensures { result ≡ is_among kind iteration_statements }
{
    matches!(
        kind,
        Kind::DoWhileStatement
            | Kind::WhileStatement
            | Kind::ForStatement
            | Kind::ForInStatement
            | Kind::ForOfStatement
    )
}

fn is_breakable_statement(kind: Kind) -> bool
    ensures { result ≡ is_among kind breakable_statements }
{
    matches!(kind, Kind::SwitchStatement) || is_iteration_statement(kind)
}

/// Whether the statement is a loop, behind labels or not.
#[tactic(auto, using(js_rules::proofs::Parts::node_part_is_smaller, crate::proofs::JumpRule::loop_by_kind))]
pub fn is_loop<V: View>(statement: V) -> bool
    ensures { result ≡ is_loop (V.term statement) }
{
    let Form::Node(kind) = statement.form() else {
        return false;
    };
    if is_labelled(kind) {
        is_loop(statement.part(1))
    } else {
        is_iteration_statement(kind)
    }
}

/// What holds inside a node of the kind, which is no labelled statement and no root of jumps.
pub fn in_statement<'a, V: View>(jumps: Jumps<'a, V>, kind: Kind) -> Jumps<'a, V>
    ensures { jumps_of V.term result ≡ in_statement (jumps_of V.term jumps.entry) kind }
{
    Jumps {
        labels: jumps.labels,
        breaks: is_breakable_statement(kind) || jumps.breaks,
        continues: is_iteration_statement(kind) || jumps.continues,
    }
}

/// Whether the node, if it is a jump or a labelled statement, may stand at the place.
pub fn allows_jump<V: View>(jumps: Jumps<V>, kind: Kind, view: &V) -> bool
    ensures { result ≡ allows_jump (jumps_of V.term jumps.entry) kind (texts_of (V.term view.now)) (parts_of (V.term view.now)) }
{
    let label = view.part(0);
    match kind {
        Kind::BreakStatement => {
            if label.is_present() {
                is_label(label.text(), jumps.labels)
            } else {
                jumps.breaks
            }
        }
        Kind::ContinueStatement => {
            if label.is_present() {
                is_loop_label(label.text(), jumps.labels)
            } else {
                jumps.continues
            }
        }
        Kind::LabeledStatement => !is_label(label.text(), jumps.labels),
        _ => true,
    }
}
