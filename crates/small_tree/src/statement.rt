use crate::bag::Bag;
use crate::dismantle::{dismantle_declaration, dismantle_declarators, dismantle_function};
use crate::expression::Expression;
use crate::function::{BindingPattern, Function};
use crate::id::Span;
use crate::module::{ExportDeclaration, ImportDeclaration};
use js_items::{Boxed, Items};

#[derive(Drop)]
pub struct ExpressionStatement<E = Expression> {
    pub span: Span,
    pub expression: Boxed<E>,
}

#[derive(Drop)]
pub struct ReturnStatement<E = Expression> {
    pub span: Span,
    pub argument: Option<Boxed<E>>,
}

#[derive(Clone, Copy, Debug, PartialEq, Eq)]
pub enum VariableDeclarationKind {
    Var,
    Let,
    Const,
}

#[cycle(tree)]
#[derive(Drop)]
pub struct VariableDeclarator {
    pub span: Span,
    pub id: BindingPattern,
    pub init: Option<Boxed<Expression>>,
}

#[derive(Drop)]
pub struct VariableDeclaration<D = VariableDeclarator> {
    pub span: Span,
    pub kind: VariableDeclarationKind,
    pub declarations: Items<D>,
}

#[cycle(tree)]
pub enum Statement {
    ExpressionStatement(ExpressionStatement),
    ReturnStatement(ReturnStatement),
    VariableDeclaration(VariableDeclaration),
    FunctionDeclaration(Boxed<Function>),
    ImportDeclaration(ImportDeclaration),
    ExportDeclaration(ExportDeclaration),
}

impl Drop for Statement {
    fn drop(self) {
        let mut bag = Bag::new();
        self.dismantle(&mut bag);
        bag.release();
    }
}

impl Statement {
    /// Frees the node and hands its parts to the bag.
    pub(crate) fn dismantle(self, bag: &mut Bag) {
        match self {
            Statement::ExpressionStatement(n) => {
                let ExpressionStatement {
                    span: _,
                    expression,
                } = n;
                bag.boxed_expression(expression);
            }
            Statement::ReturnStatement(n) => {
                let ReturnStatement { span: _, argument } = n;
                if let Some(argument) = argument {
                    bag.boxed_expression(argument);
                }
            }
            Statement::VariableDeclaration(n) => {
                let VariableDeclaration {
                    span: _,
                    kind: _,
                    declarations,
                } = n;
                dismantle_declarators(declarations, bag);
            }
            Statement::FunctionDeclaration(n) => dismantle_function(n.into_inner(), bag),
            Statement::ImportDeclaration(n) => drop(n),
            Statement::ExportDeclaration(n) => {
                let ExportDeclaration {
                    span: _,
                    declaration,
                } = n;
                dismantle_declaration(declaration, bag);
            }
        }
    }
}
