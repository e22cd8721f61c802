use crate::bag::Bag;
use crate::dismantle::{dismantle_function, dismantle_properties};
use crate::function::Function;
use crate::id::{IdentifierName, IdentifierReference, Span};
use js_ident::Ident;
use js_items::{Boxed, Items};

#[derive(Clone, Debug, Drop)]
pub struct BooleanLiteral {
    pub span: Span,
    pub value: bool,
}

/// A number, as it is written.
#[derive(Clone, Debug, Drop)]
pub struct NumericLiteral {
    pub span: Span,
    pub raw: Ident,
}

/// A string, by its value.
#[derive(Clone, Debug, Drop)]
pub struct StringLiteral {
    pub span: Span,
    pub value: Ident,
}

#[derive(Drop)]
pub struct CallExpression<E = Expression> {
    pub span: Span,
    pub callee: Boxed<E>,
    pub arguments: Items<E>,
    pub optional: bool,
}

#[derive(Drop)]
pub struct StaticMemberExpression<E = Expression> {
    pub span: Span,
    pub object: Boxed<E>,
    pub property: IdentifierName,
    pub optional: bool,
}

#[derive(Drop)]
pub struct SequenceExpression<E = Expression> {
    pub span: Span,
    pub expressions: Items<E>,
}

#[derive(Drop)]
pub struct AwaitExpression<E = Expression> {
    pub span: Span,
    pub argument: Boxed<E>,
}

#[derive(Drop)]
pub struct ArrayExpression<E = Expression> {
    pub span: Span,
    pub elements: Items<E>,
}

#[derive(Clone, Copy, Debug, PartialEq, Eq)]
pub enum PropertyKind {
    Init,
    Get,
    Set,
}

#[derive(Drop)]
pub struct ObjectProperty<E = Expression> {
    pub span: Span,
    pub kind: PropertyKind,
    pub key: IdentifierName,
    pub value: Boxed<E>,
    pub method: bool,
    pub shorthand: bool,
    pub computed: bool,
}

#[derive(Drop)]
pub struct ObjectExpression<E = Expression> {
    pub span: Span,
    pub properties: Items<ObjectProperty<E>>,
}

#[derive(Drop)]
pub struct ParenthesizedExpression<E = Expression> {
    pub span: Span,
    pub expression: Boxed<E>,
}

#[cycle(tree)]
pub enum Expression {
    BooleanLiteral(BooleanLiteral),
    NumericLiteral(NumericLiteral),
    StringLiteral(StringLiteral),
    Identifier(IdentifierReference),
    ArrayExpression(ArrayExpression),
    AwaitExpression(AwaitExpression),
    CallExpression(CallExpression),
    FunctionExpression(Boxed<Function>),
    ObjectExpression(ObjectExpression),
    ParenthesizedExpression(ParenthesizedExpression),
    SequenceExpression(SequenceExpression),
    StaticMemberExpression(StaticMemberExpression),
}

impl Drop for Expression {
    fn drop(self) {
        let mut bag = Bag::new();
        self.dismantle(&mut bag);
        bag.release();
    }
}

impl Expression {
    /// Frees the node and hands its parts to the bag.
    pub(crate) fn dismantle(self, bag: &mut Bag) {
        match self {
            Expression::BooleanLiteral(n) => drop(n),
            Expression::NumericLiteral(n) => drop(n),
            Expression::StringLiteral(n) => drop(n),
            Expression::Identifier(n) => drop(n),
            Expression::ArrayExpression(n) => {
                let ArrayExpression { span: _, elements } = n;
                bag.expressions(elements);
            }
            Expression::AwaitExpression(n) => {
                let AwaitExpression { span: _, argument } = n;
                bag.boxed_expression(argument);
            }
            Expression::CallExpression(n) => {
                let CallExpression {
                    span: _,
                    callee,
                    arguments,
                    optional: _,
                } = n;
                bag.boxed_expression(callee);
                bag.expressions(arguments);
            }
            Expression::FunctionExpression(n) => dismantle_function(n.into_inner(), bag),
            Expression::ObjectExpression(n) => {
                let ObjectExpression {
                    span: _,
                    properties,
                } = n;
                dismantle_properties(properties, bag);
            }
            Expression::ParenthesizedExpression(n) => {
                let ParenthesizedExpression {
                    span: _,
                    expression,
                } = n;
                bag.boxed_expression(expression);
            }
            Expression::SequenceExpression(n) => {
                let SequenceExpression {
                    span: _,
                    expressions,
                } = n;
                bag.expressions(expressions);
            }
            Expression::StaticMemberExpression(n) => {
                let StaticMemberExpression {
                    span: _,
                    object,
                    property,
                    optional: _,
                } = n;
                drop(property);
                bag.boxed_expression(object);
            }
        }
    }
}
