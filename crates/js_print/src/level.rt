ghost use Rattle.js_print.specs.Layout.{is_looser, is_number, leads, wrapped};
ghost use Rattle.js_term.specs.Spells.{is_string_literal};
ghost use Rattle.small_tree.specs.TermOf.{expression_term};
ghost use Rattle.std.specs.Prelude.{◌≡◌, ◌≤◌, ◌||◌};

use small_tree::Expression;

/// Whether an expression binds less tightly than its place asks for.
#[tactic(auto, using(crate::proofs::Levelled::l_Sequence, crate::proofs::Levelled::l_Await, crate::proofs::Levelled::l_Boolean, crate::proofs::Levelled::l_Numeric, crate::proofs::Levelled::l_String, crate::proofs::Levelled::l_Identifier, crate::proofs::Levelled::l_Array, crate::proofs::Levelled::l_Call, crate::proofs::Levelled::l_Function, crate::proofs::Levelled::l_Object, crate::proofs::Levelled::l_Parenthesized, crate::proofs::Levelled::l_Member))]
pub(crate) fn is_looser(e: &Expression, least: u8) -> bool
    requires { least ≤ 19 }
    ensures { result ≡ is_looser least (wrapped (expression_term e.now)) }
{
    match e {
        Expression::SequenceExpression(_) => 1 < least,
        Expression::AwaitExpression(_) => 16 < least,
        Expression::BooleanLiteral(_)
        | Expression::NumericLiteral(_)
        | Expression::StringLiteral(_)
        | Expression::Identifier(_)
        | Expression::ArrayExpression(_)
        | Expression::CallExpression(_)
        | Expression::FunctionExpression(_)
        | Expression::ObjectExpression(_)
        | Expression::ParenthesizedExpression(_)
        | Expression::StaticMemberExpression(_) => false,
    }
}

/// Whether an object has to stand in parentheses before its dot: a number has, besides what is looser than a call.
#[tactic(auto, using(crate::proofs::Levelled::o_Numeric, crate::proofs::Levelled::o_Sequence, crate::proofs::Levelled::o_Await, crate::proofs::Levelled::o_Boolean, crate::proofs::Levelled::o_String, crate::proofs::Levelled::o_Identifier, crate::proofs::Levelled::o_Array, crate::proofs::Levelled::o_Call, crate::proofs::Levelled::o_Function, crate::proofs::Levelled::o_Object, crate::proofs::Levelled::o_Parenthesized, crate::proofs::Levelled::o_Member))]
pub(crate) fn is_loose_object(e: &Expression) -> bool
    ensures { result ≡ (is_looser 19 (wrapped (expression_term e.now)) || is_number (wrapped (expression_term e.now))) }
{
    match e {
        Expression::NumericLiteral(_)
        | Expression::SequenceExpression(_)
        | Expression::AwaitExpression(_) => true,
        Expression::BooleanLiteral(_)
        | Expression::StringLiteral(_)
        | Expression::Identifier(_)
        | Expression::ArrayExpression(_)
        | Expression::CallExpression(_)
        | Expression::FunctionExpression(_)
        | Expression::ObjectExpression(_)
        | Expression::ParenthesizedExpression(_)
        | Expression::StaticMemberExpression(_) => false,
    }
}

#[tactic(auto, using(crate::proofs::Levelled::s_Numeric, crate::proofs::Levelled::s_Sequence, crate::proofs::Levelled::s_Await, crate::proofs::Levelled::s_Boolean, crate::proofs::Levelled::s_String, crate::proofs::Levelled::s_Identifier, crate::proofs::Levelled::s_Array, crate::proofs::Levelled::s_Call, crate::proofs::Levelled::s_Function, crate::proofs::Levelled::s_Object, crate::proofs::Levelled::s_Parenthesized, crate::proofs::Levelled::s_Member))]
fn is_string_literal(e: &Expression) -> bool
    ensures { result ≡ is_string_literal (wrapped (expression_term e.now)) }
{
    match e {
        Expression::StringLiteral(_) => true,
        Expression::NumericLiteral(_)
        | Expression::SequenceExpression(_)
        | Expression::AwaitExpression(_)
        | Expression::BooleanLiteral(_)
        | Expression::Identifier(_)
        | Expression::ArrayExpression(_)
        | Expression::CallExpression(_)
        | Expression::FunctionExpression(_)
        | Expression::ObjectExpression(_)
        | Expression::ParenthesizedExpression(_)
        | Expression::StaticMemberExpression(_) => false,
    }
}

/// Whether the text of an expression begins with a brace or with `function`.
#[tactic(auto, using(crate::proofs::Levelled::b_Numeric, crate::proofs::Levelled::b_Sequence_none, crate::proofs::Levelled::b_Sequence_some, crate::proofs::Levelled::b_Await, crate::proofs::Levelled::b_Boolean, crate::proofs::Levelled::b_String, crate::proofs::Levelled::b_Identifier, crate::proofs::Levelled::b_Array, crate::proofs::Levelled::b_Call, crate::proofs::Levelled::b_Function, crate::proofs::Levelled::b_Object, crate::proofs::Levelled::b_Parenthesized, crate::proofs::Levelled::b_Member))]
fn leads(e: &Expression) -> bool
    ensures { result ≡ leads (wrapped (expression_term e.now)) }
{
    match e {
        Expression::ObjectExpression(_) | Expression::FunctionExpression(_) => true,
        Expression::CallExpression(n) => {
            let callee = n.callee.get();
            !is_looser(callee, 19) && leads(callee)
        }
        Expression::StaticMemberExpression(n) => {
            let object = n.object.get();
            !is_loose_object(object) && leads(object)
        }
        Expression::SequenceExpression(n) => match n.expressions.as_slice() {
            [first, ..] => !is_looser(first, 2) && leads(first),
            [] => false,
        },
        Expression::NumericLiteral(_)
        | Expression::AwaitExpression(_)
        | Expression::BooleanLiteral(_)
        | Expression::StringLiteral(_)
        | Expression::Identifier(_)
        | Expression::ArrayExpression(_)
        | Expression::ParenthesizedExpression(_) => false,
    }
}

/// Whether an expression would be read otherwise where it is a statement alone.
pub(crate) fn reads_otherwise(e: &Expression) -> bool
    ensures { result ≡ (leads (wrapped (expression_term e.now)) || is_string_literal (wrapped (expression_term e.now))) }
{
    leads(e) || is_string_literal(e)
}
