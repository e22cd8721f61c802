//! Where imports, exports, `await`, `yield`, `return` and `new.target` stand.

use crate::rows::Row;

/// Imports and exports stand in the module's own list.
pub static ITEM_ROWS: [Row; 16] = [
    Row {
        clause: "16.2.2: an import stands at the root, not in a block",
        frame: "@",
        sound: "(ImportDeclaration [(ImportDefaultSpecifier (BindingIdentifier 'a'))] (StringLiteral 'm'))",
        broken: "(BlockStatement [(ImportDeclaration [(ImportDefaultSpecifier (BindingIdentifier 'a'))] (StringLiteral 'm'))])",
    },
    Row {
        clause: "16.2.3: an export of all stands at the root, not in a block",
        frame: "@",
        sound: "(ExportAllDeclaration _ (StringLiteral 'm'))",
        broken: "(BlockStatement [(ExportAllDeclaration _ (StringLiteral 'm'))])",
    },
    Row {
        clause: "16.2.3: an export of names stands at the root, not in a block",
        frame: "@",
        sound: "(ExportNamedDeclaration [])",
        broken: "(BlockStatement [(ExportNamedDeclaration [])])",
    },
    Row {
        clause: "16.2.3: an export from a module stands at the root, not in a block",
        frame: "@",
        sound: "(ExportFromDeclaration [(ExportSpecifier (IdentifierName 'a') (IdentifierName 'b'))] (StringLiteral 'm'))",
        broken: "(BlockStatement [(ExportFromDeclaration [(ExportSpecifier (IdentifierName 'a') (IdentifierName 'b'))] (StringLiteral 'm'))])",
    },
    Row {
        clause: "16.2.3: an exported declaration stands at the root, not in a block",
        frame: "@",
        sound: "(ExportDeclaration (VariableDeclaration 'const' [(VariableDeclarator (BindingIdentifier 'a') (Identifier 'b'))]))",
        broken: "(BlockStatement [(ExportDeclaration (VariableDeclaration 'const' [(VariableDeclarator (BindingIdentifier 'a') (Identifier 'b'))]))])",
    },
    Row {
        clause: "16.2.3: a default export stands at the root, not in a block",
        frame: "@",
        sound: "(ExportDefaultDeclaration (Identifier 'a'))",
        broken: "(BlockStatement [(ExportDefaultDeclaration (Identifier 'a'))])",
    },
    Row {
        clause: "16.2: no import in a function",
        frame: "@",
        sound: "(FunctionDeclaration '' '' (BindingIdentifier 'f') (FormalParameters [] _) (FunctionBody [] [])) (ImportDeclaration [(ImportDefaultSpecifier (BindingIdentifier 'a'))] (StringLiteral 'm'))",
        broken: "(FunctionDeclaration '' '' (BindingIdentifier 'f') (FormalParameters [] _) (FunctionBody [] [(ImportDeclaration [(ImportDefaultSpecifier (BindingIdentifier 'a'))] (StringLiteral 'm'))]))",
    },
    Row {
        clause: "16.2: no import in an arrow",
        frame: "@",
        sound: "(ExpressionStatement (ParenthesizedExpression (ArrowFunctionExpression '' (FormalParameters [] _) (FunctionBody [] [])))) (ImportDeclaration [(ImportDefaultSpecifier (BindingIdentifier 'a'))] (StringLiteral 'm'))",
        broken: "(ExpressionStatement (ParenthesizedExpression (ArrowFunctionExpression '' (FormalParameters [] _) (FunctionBody [] [(ImportDeclaration [(ImportDefaultSpecifier (BindingIdentifier 'a'))] (StringLiteral 'm'))]))))",
    },
    Row {
        clause: "16.2: no export in a static block",
        frame: "@",
        sound: "(ClassDeclaration (BindingIdentifier 'C') _ (ClassBody [(StaticBlock [])])) (ExportNamedDeclaration [])",
        broken: "(ClassDeclaration (BindingIdentifier 'C') _ (ClassBody [(StaticBlock [(ExportNamedDeclaration [])])]))",
    },
    Row {
        clause: "16.2: no export in a case",
        frame: "@",
        sound: "(SwitchStatement (Identifier 'a') [(SwitchCase _ [])]) (ExportNamedDeclaration [])",
        broken: "(SwitchStatement (Identifier 'a') [(SwitchCase _ [(ExportNamedDeclaration [])])])",
    },
    Row {
        clause: "16.2: no export in a function",
        frame: "@",
        sound: "(FunctionDeclaration '' '' (BindingIdentifier 'f') (FormalParameters [] _) (FunctionBody [] [])) (ExportNamedDeclaration [])",
        broken: "(FunctionDeclaration '' '' (BindingIdentifier 'f') (FormalParameters [] _) (FunctionBody [] [(ExportNamedDeclaration [])]))",
    },
    Row {
        clause: "16.2: no import in a static block",
        frame: "@",
        sound: "(ClassDeclaration (BindingIdentifier 'C') _ (ClassBody [(StaticBlock [])])) (ImportDeclaration [(ImportDefaultSpecifier (BindingIdentifier 'a'))] (StringLiteral 'm'))",
        broken: "(ClassDeclaration (BindingIdentifier 'C') _ (ClassBody [(StaticBlock [(ImportDeclaration [(ImportDefaultSpecifier (BindingIdentifier 'a'))] (StringLiteral 'm'))])]))",
    },
    Row {
        clause: "14.13: no import behind a label",
        frame: "@",
        sound: "(LabeledStatement (LabelIdentifier 'a') (EmptyStatement)) (ImportDeclaration [(ImportDefaultSpecifier (BindingIdentifier 'a'))] (StringLiteral 'm'))",
        broken: "(LabeledStatement (LabelIdentifier 'a') (ImportDeclaration [(ImportDefaultSpecifier (BindingIdentifier 'a'))] (StringLiteral 'm')))",
    },
    Row {
        clause: "14.13: no export behind a label",
        frame: "@",
        sound: "(LabeledStatement (LabelIdentifier 'a') (EmptyStatement)) (ExportDefaultDeclaration (Identifier 'a'))",
        broken: "(LabeledStatement (LabelIdentifier 'a') (ExportDefaultDeclaration (Identifier 'a')))",
    },
    Row {
        clause: "14.6: no import in an if",
        frame: "@",
        sound: "(IfStatement (Identifier 'a') (EmptyStatement) _) (ImportDeclaration [(ImportDefaultSpecifier (BindingIdentifier 'a'))] (StringLiteral 'm'))",
        broken: "(IfStatement (Identifier 'a') (ImportDeclaration [(ImportDefaultSpecifier (BindingIdentifier 'a'))] (StringLiteral 'm')) _)",
    },
    Row {
        clause: "14.6: no export in an if",
        frame: "@",
        sound: "(IfStatement (Identifier 'a') (EmptyStatement) _) (ExportDefaultDeclaration (Identifier 'a'))",
        broken: "(IfStatement (Identifier 'a') (ExportDefaultDeclaration (Identifier 'a')) _)",
    },
];

/// Rule 1: exports of this module name identifiers.
pub static EXPORT_ROWS: [Row; 3] = [
    Row {
        clause: "16.2.3.1: an export of this module names an identifier, not a string",
        frame: "(VariableDeclaration 'var' [(VariableDeclarator (BindingIdentifier 'a') _) (VariableDeclarator (BindingIdentifier 'b') _)]) (ExportNamedDeclaration [(ExportSpecifier @ (IdentifierName 'b'))])",
        sound: "(Identifier 'a')",
        broken: "(StringLiteral 'a')",
    },
    Row {
        clause: "16.2.3.1: so does each of several",
        frame: "(VariableDeclaration 'var' [(VariableDeclarator (BindingIdentifier 'a') _) (VariableDeclarator (BindingIdentifier 'b') _)]) (ExportNamedDeclaration [(ExportSpecifier (Identifier 'a') (IdentifierName 'a')) (ExportSpecifier @ (StringLiteral 'b'))])",
        sound: "(Identifier 'b')",
        broken: "(StringLiteral 'b')",
    },
    Row {
        clause: "16.2.3: a string names what another module exports, not what this one does",
        frame: "(VariableDeclaration 'var' [(VariableDeclarator (BindingIdentifier 'a') _) (VariableDeclarator (BindingIdentifier 'b') _)]) @",
        sound: "(ExportFromDeclaration [(ExportSpecifier (StringLiteral 'a') (IdentifierName 'b'))] (StringLiteral 'm'))",
        broken: "(ExportNamedDeclaration [(ExportSpecifier (StringLiteral 'a') (IdentifierName 'b'))])",
    },
];

/// Rule 2: where `await` and `for await` stand.
pub static AWAIT_ROWS: [Row; 25] = [
    Row {
        clause: "16.2.1: await at the root, not in a function",
        frame: "@",
        sound: "(ExpressionStatement (AwaitExpression (Identifier 'a')))",
        broken: "(FunctionDeclaration '' '' (BindingIdentifier 'f') (FormalParameters [] _) (FunctionBody [] [(ExpressionStatement (AwaitExpression (Identifier 'a')))]))",
    },
    Row {
        clause: "15.8.1: await in the body of an async function",
        frame: "(FunctionDeclaration @ '' (BindingIdentifier 'f') (FormalParameters [] _) (FunctionBody [] [(ExpressionStatement (AwaitExpression (Identifier 'a')))]))",
        sound: "'async'",
        broken: "''",
    },
    Row {
        clause: "15.6.1: await in the body of an async generator",
        frame: "(FunctionDeclaration @ '*' (BindingIdentifier 'f') (FormalParameters [] _) (FunctionBody [] [(ExpressionStatement (AwaitExpression (Identifier 'a')))]))",
        sound: "'async'",
        broken: "''",
    },
    Row {
        clause: "15.8.1: await in the body of an async function expression",
        frame: "(ExpressionStatement (ParenthesizedExpression (FunctionExpression @ '' _ (FormalParameters [] _) (FunctionBody [] [(ExpressionStatement (AwaitExpression (Identifier 'a')))]))))",
        sound: "'async'",
        broken: "''",
    },
    Row {
        clause: "15.9.1: await in an async arrow",
        frame: "(ExpressionStatement (ParenthesizedExpression (ArrowFunctionExpression @ (FormalParameters [] _) (AwaitExpression (Identifier 'a')))))",
        sound: "'async'",
        broken: "''",
    },
    Row {
        clause: "15.9.1: await in the body of an async arrow",
        frame: "(ExpressionStatement (ParenthesizedExpression (ArrowFunctionExpression @ (FormalParameters [] _) (FunctionBody [] [(ExpressionStatement (AwaitExpression (Identifier 'a')))]))))",
        sound: "'async'",
        broken: "''",
    },
    Row {
        clause: "15.8: await in an async method",
        frame: "(ClassDeclaration (BindingIdentifier 'C') _ (ClassBody [(MethodDefinition 'method' '' '' (IdentifierName 'm') (FunctionExpression @ '' _ (FormalParameters [] _) (FunctionBody [] [(ExpressionStatement (AwaitExpression (Identifier 'a')))])))]))",
        sound: "'async'",
        broken: "''",
    },
    Row {
        clause: "15.8.1: the innermost arrow decides",
        frame: "(FunctionDeclaration 'async' '' (BindingIdentifier 'f') (FormalParameters [] _) (FunctionBody [] [(ExpressionStatement (ParenthesizedExpression (ArrowFunctionExpression @ (FormalParameters [] _) (AwaitExpression (Identifier 'a')))))]))",
        sound: "'async'",
        broken: "''",
    },
    Row {
        clause: "15.8.1: the innermost function decides",
        frame: "(FunctionDeclaration 'async' '' (BindingIdentifier 'f') (FormalParameters [] _) (FunctionBody [] [(FunctionDeclaration @ '' (BindingIdentifier 'f') (FormalParameters [] _) (FunctionBody [] [(ExpressionStatement (AwaitExpression (Identifier 'a')))]))]))",
        sound: "'async'",
        broken: "''",
    },
    Row {
        clause: "15.8.1: an arrow in a plain function may be async",
        frame: "(FunctionDeclaration '' '' (BindingIdentifier 'f') (FormalParameters [] _) (FunctionBody [] [(ExpressionStatement (ParenthesizedExpression (ArrowFunctionExpression @ (FormalParameters [] _) (AwaitExpression (Identifier 'a')))))]))",
        sound: "'async'",
        broken: "''",
    },
    Row {
        clause: "15.8.1: no await in the parameters of an async function",
        frame: "(FunctionDeclaration 'async' '' (BindingIdentifier 'f') (FormalParameters [(FormalParameter (BindingIdentifier 'x') @)] _) (FunctionBody [] []))",
        sound: "(Identifier 'a')",
        broken: "(AwaitExpression (Identifier 'a'))",
    },
    Row {
        clause: "15.2.1: no await in the parameters of a function",
        frame: "(FunctionDeclaration '' '' (BindingIdentifier 'f') (FormalParameters [(FormalParameter (BindingIdentifier 'x') @)] _) (FunctionBody [] []))",
        sound: "(Identifier 'a')",
        broken: "(AwaitExpression (Identifier 'a'))",
    },
    Row {
        clause: "15.8.1: no await in the parameters of an async method",
        frame: "(ClassDeclaration (BindingIdentifier 'C') _ (ClassBody [(MethodDefinition 'method' '' '' (IdentifierName 'm') (FunctionExpression 'async' '' _ (FormalParameters [(FormalParameter (BindingIdentifier 'x') @)] _) (FunctionBody [] [])))]))",
        sound: "(Identifier 'a')",
        broken: "(AwaitExpression (Identifier 'a'))",
    },
    Row {
        clause: "15.9.1: no await in the parameters of an async arrow",
        frame: "(ExpressionStatement (ParenthesizedExpression (ArrowFunctionExpression 'async' (FormalParameters [(FormalParameter (BindingIdentifier 'x') @)] _) (Identifier 'a'))))",
        sound: "(Identifier 'a')",
        broken: "(AwaitExpression (Identifier 'a'))",
    },
    Row {
        clause: "15.3.1: no await in the parameters of an arrow",
        frame: "(ExpressionStatement (ParenthesizedExpression (ArrowFunctionExpression '' (FormalParameters [(FormalParameter (BindingIdentifier 'x') @)] _) (Identifier 'a'))))",
        sound: "(Identifier 'a')",
        broken: "(AwaitExpression (Identifier 'a'))",
    },
    Row {
        clause: "15.7: await in the key of a field, not in its value",
        frame: "(ClassDeclaration (BindingIdentifier 'C') _ (ClassBody [(PropertyDefinition 'computed' '' @)]))",
        sound: "(AwaitExpression (Identifier 'a')) (Identifier 'b')",
        broken: "(Identifier 'b') (AwaitExpression (Identifier 'a'))",
    },
    Row {
        clause: "15.7: no await in a field of an async function",
        frame: "(FunctionDeclaration 'async' '' (BindingIdentifier 'f') (FormalParameters [] _) (FunctionBody [] [(ClassDeclaration (BindingIdentifier 'C') _ (ClassBody [(PropertyDefinition '' '' (IdentifierName 'x') @)]))]))",
        sound: "(Identifier 'a')",
        broken: "(AwaitExpression (Identifier 'a'))",
    },
    Row {
        clause: "15.7.1: no await in a static block",
        frame: "(ClassDeclaration (BindingIdentifier 'C') _ (ClassBody [(StaticBlock [(ExpressionStatement @)])]))",
        sound: "(Identifier 'a')",
        broken: "(AwaitExpression (Identifier 'a'))",
    },
    Row {
        clause: "15.7.1: no await in a static block, but in an async arrow there",
        frame: "(ClassDeclaration (BindingIdentifier 'C') _ (ClassBody [(StaticBlock [(ExpressionStatement (ParenthesizedExpression @))])]))",
        sound: "(ArrowFunctionExpression 'async' (FormalParameters [] _) (AwaitExpression (Identifier 'a')))",
        broken: "(ArrowFunctionExpression '' (FormalParameters [] _) (AwaitExpression (Identifier 'a')))",
    },
    Row {
        clause: "15.7: await in a heritage, not in a static block",
        frame: "@",
        sound: "(ClassDeclaration (BindingIdentifier 'C') (ParenthesizedExpression (AwaitExpression (Identifier 'a'))) (ClassBody []))",
        broken: "(ClassDeclaration (BindingIdentifier 'C') _ (ClassBody [(StaticBlock [(ExpressionStatement (AwaitExpression (Identifier 'a')))])]))",
    },
    Row {
        clause: "16.2.1: for await at the root, not in a function",
        frame: "@",
        sound: "(ForOfStatement 'await' (Identifier 'a') (Identifier 'b') (EmptyStatement))",
        broken: "(FunctionDeclaration '' '' (BindingIdentifier 'f') (FormalParameters [] _) (FunctionBody [] [(ForOfStatement 'await' (Identifier 'a') (Identifier 'b') (EmptyStatement))]))",
    },
    Row {
        clause: "14.7.5: for await in the body of an async function",
        frame: "(FunctionDeclaration @ '' (BindingIdentifier 'f') (FormalParameters [] _) (FunctionBody [] [(ForOfStatement 'await' (Identifier 'a') (Identifier 'b') (EmptyStatement))]))",
        sound: "'async'",
        broken: "''",
    },
    Row {
        clause: "14.7.5: for await in an async generator, not in a generator",
        frame: "(FunctionDeclaration @ '*' (BindingIdentifier 'f') (FormalParameters [] _) (FunctionBody [] [(ForOfStatement 'await' (Identifier 'a') (Identifier 'b') (EmptyStatement))]))",
        sound: "'async'",
        broken: "''",
    },
    Row {
        clause: "14.7.5: a plain for of stands in a function, for await does not",
        frame: "(FunctionDeclaration '' '' (BindingIdentifier 'f') (FormalParameters [] _) (FunctionBody [] [(ForOfStatement @ (Identifier 'a') (Identifier 'b') (EmptyStatement))]))",
        sound: "''",
        broken: "'await'",
    },
    Row {
        clause: "15.7.1: a plain for of stands in a static block, for await does not",
        frame: "(ClassDeclaration (BindingIdentifier 'C') _ (ClassBody [(StaticBlock [(ForOfStatement @ (Identifier 'a') (Identifier 'b') (EmptyStatement))])]))",
        sound: "''",
        broken: "'await'",
    },
];

/// Rule 2: where `yield` stands.
pub static YIELD_ROWS: [Row; 12] = [
    Row {
        clause: "15.5.1: yield in the body of a generator",
        frame: "(FunctionDeclaration '' @ (BindingIdentifier 'f') (FormalParameters [] _) (FunctionBody [] [(ExpressionStatement (YieldExpression '' _))]))",
        sound: "'*'",
        broken: "''",
    },
    Row {
        clause: "15.5.1: yield in the body of a generator expression",
        frame: "(ExpressionStatement (ParenthesizedExpression (FunctionExpression '' @ _ (FormalParameters [] _) (FunctionBody [] [(ExpressionStatement (YieldExpression '' _))]))))",
        sound: "'*'",
        broken: "''",
    },
    Row {
        clause: "15.6.1: yield in the body of an async generator",
        frame: "(FunctionDeclaration 'async' @ (BindingIdentifier 'f') (FormalParameters [] _) (FunctionBody [] [(ExpressionStatement (YieldExpression '' _))]))",
        sound: "'*'",
        broken: "''",
    },
    Row {
        clause: "15.5.1: yield in a generator method",
        frame: "(ClassDeclaration (BindingIdentifier 'C') _ (ClassBody [(MethodDefinition 'method' '' '' (IdentifierName 'm') (FunctionExpression '' @ _ (FormalParameters [] _) (FunctionBody [] [(ExpressionStatement (YieldExpression '' _))])))]))",
        sound: "'*'",
        broken: "''",
    },
    Row {
        clause: "15.5.1: yield with a star and an argument",
        frame: "(FunctionDeclaration '' @ (BindingIdentifier 'f') (FormalParameters [] _) (FunctionBody [] [(ExpressionStatement (YieldExpression '*' (Identifier 'a')))]))",
        sound: "'*'",
        broken: "''",
    },
    Row {
        clause: "15.5: no yield at the root",
        frame: "@",
        sound: "(FunctionDeclaration '' '*' (BindingIdentifier 'f') (FormalParameters [] _) (FunctionBody [] [(ExpressionStatement (YieldExpression '' _))]))",
        broken: "(ExpressionStatement (YieldExpression '' _))",
    },
    Row {
        clause: "15.3: no yield in an arrow in a generator",
        frame: "(FunctionDeclaration '' '*' (BindingIdentifier 'f') (FormalParameters [] _) (FunctionBody [] [(ExpressionStatement (ParenthesizedExpression @))]))",
        sound: "(YieldExpression '' _)",
        broken: "(ArrowFunctionExpression '' (FormalParameters [] _) (YieldExpression '' _))",
    },
    Row {
        clause: "15.5: the innermost function decides",
        frame: "(FunctionDeclaration '' '*' (BindingIdentifier 'f') (FormalParameters [] _) (FunctionBody [] [(FunctionDeclaration '' @ (BindingIdentifier 'f') (FormalParameters [] _) (FunctionBody [] [(ExpressionStatement (YieldExpression '' _))]))]))",
        sound: "'*'",
        broken: "''",
    },
    Row {
        clause: "15.5.1: no yield in the parameters of a generator",
        frame: "(FunctionDeclaration '' '*' (BindingIdentifier 'f') (FormalParameters [(FormalParameter (BindingIdentifier 'x') @)] _) (FunctionBody [] []))",
        sound: "(Identifier 'a')",
        broken: "(YieldExpression '' _)",
    },
    Row {
        clause: "15.3.1: no yield in the parameters of an arrow in a generator",
        frame: "(FunctionDeclaration '' '*' (BindingIdentifier 'f') (FormalParameters [] _) (FunctionBody [] [(ExpressionStatement (ParenthesizedExpression (ArrowFunctionExpression '' (FormalParameters [(FormalParameter (BindingIdentifier 'x') @)] _) (Identifier 'a'))))]))",
        sound: "(Identifier 'a')",
        broken: "(YieldExpression '' _)",
    },
    Row {
        clause: "15.7: yield in the key of a field, not in its value",
        frame: "(FunctionDeclaration '' '*' (BindingIdentifier 'f') (FormalParameters [] _) (FunctionBody [] [(ClassDeclaration (BindingIdentifier 'C') _ (ClassBody [(PropertyDefinition 'computed' '' @)]))]))",
        sound: "(YieldExpression '' _) (Identifier 'b')",
        broken: "(Identifier 'b') (YieldExpression '' _)",
    },
    Row {
        clause: "15.7: yield in a heritage, not in a static block",
        frame: "(FunctionDeclaration '' '*' (BindingIdentifier 'f') (FormalParameters [] _) (FunctionBody [] [@]))",
        sound: "(ClassDeclaration (BindingIdentifier 'C') (ParenthesizedExpression (YieldExpression '' _)) (ClassBody []))",
        broken: "(ClassDeclaration (BindingIdentifier 'C') _ (ClassBody [(StaticBlock [(ExpressionStatement (YieldExpression '' _))])]))",
    },
];

/// Rule 2: where `return` and `new.target` stand.
pub static RETURN_ROWS: [Row; 17] = [
    Row {
        clause: "14.10: return in a function, not at the root",
        frame: "@",
        sound: "(FunctionDeclaration '' '' (BindingIdentifier 'f') (FormalParameters [] _) (FunctionBody [] [(ReturnStatement (Identifier 'a'))]))",
        broken: "(ReturnStatement (Identifier 'a'))",
    },
    Row {
        clause: "14.10: return in a block of a function, not of the root",
        frame: "@",
        sound: "(FunctionDeclaration '' '' (BindingIdentifier 'f') (FormalParameters [] _) (FunctionBody [] [(BlockStatement [(ReturnStatement _)])]))",
        broken: "(BlockStatement [(ReturnStatement _)])",
    },
    Row {
        clause: "14.10: return in a function expression",
        frame: "@",
        sound: "(ExpressionStatement (ParenthesizedExpression (FunctionExpression '' '' _ (FormalParameters [] _) (FunctionBody [] [(ReturnStatement _)])))) (EmptyStatement)",
        broken: "(ExpressionStatement (ParenthesizedExpression (FunctionExpression '' '' _ (FormalParameters [] _) (FunctionBody [] [])))) (ReturnStatement _)",
    },
    Row {
        clause: "14.10: return in an arrow",
        frame: "@",
        sound: "(ExpressionStatement (ParenthesizedExpression (ArrowFunctionExpression '' (FormalParameters [] _) (FunctionBody [] [(ReturnStatement _)])))) (EmptyStatement)",
        broken: "(ExpressionStatement (ParenthesizedExpression (ArrowFunctionExpression '' (FormalParameters [] _) (FunctionBody [] [])))) (ReturnStatement _)",
    },
    Row {
        clause: "14.10: return in a method, not in a static block",
        frame: "(ClassDeclaration (BindingIdentifier 'C') _ (ClassBody [@]))",
        sound: "(MethodDefinition 'method' '' '' (IdentifierName 'm') (FunctionExpression '' '' _ (FormalParameters [] _) (FunctionBody [] [(ReturnStatement _)])))",
        broken: "(StaticBlock [(ReturnStatement _)])",
    },
    Row {
        clause: "15.7: no return in a static block of a function",
        frame: "(FunctionDeclaration '' '' (BindingIdentifier 'f') (FormalParameters [] _) (FunctionBody [] [@]))",
        sound: "(BlockStatement [(ReturnStatement _)])",
        broken: "(ClassDeclaration (BindingIdentifier 'C') _ (ClassBody [(StaticBlock [(ReturnStatement _)])]))",
    },
    Row {
        clause: "15.7: return in an arrow of a static block",
        frame: "(ClassDeclaration (BindingIdentifier 'C') _ (ClassBody [(StaticBlock [@])]))",
        sound: "(ExpressionStatement (ParenthesizedExpression (ArrowFunctionExpression '' (FormalParameters [] _) (FunctionBody [] [(ReturnStatement _)]))))",
        broken: "(BlockStatement [(ReturnStatement _)])",
    },
    Row {
        clause: "13.3.1.1: new.target in a function, not at the root",
        frame: "@",
        sound: "(FunctionDeclaration '' '' (BindingIdentifier 'f') (FormalParameters [] _) (FunctionBody [] [(ExpressionStatement (NewTarget))]))",
        broken: "(ExpressionStatement (NewTarget))",
    },
    Row {
        clause: "13.3.1.1: new.target in a function expression, not in an arrow",
        frame: "(ExpressionStatement (ParenthesizedExpression @))",
        sound: "(FunctionExpression '' '' _ (FormalParameters [] _) (FunctionBody [] [(ExpressionStatement (NewTarget))]))",
        broken: "(ArrowFunctionExpression '' (FormalParameters [] _) (NewTarget))",
    },
    Row {
        clause: "13.3.1.1: new.target in a method, not at the root",
        frame: "@",
        sound: "(ClassDeclaration (BindingIdentifier 'C') _ (ClassBody [(MethodDefinition 'method' '' '' (IdentifierName 'm') (FunctionExpression '' '' _ (FormalParameters [] _) (FunctionBody [] [(ExpressionStatement (NewTarget))])))]))",
        broken: "(ClassDeclaration (BindingIdentifier 'C') _ (ClassBody [])) (ExpressionStatement (NewTarget))",
    },
    Row {
        clause: "13.3.1.1: new.target in the parameters of a function",
        frame: "@",
        sound: "(FunctionDeclaration '' '' (BindingIdentifier 'f') (FormalParameters [(FormalParameter (BindingIdentifier 'x') (NewTarget))] _) (FunctionBody [] []))",
        broken: "(ExpressionStatement (ParenthesizedExpression (ArrowFunctionExpression '' (FormalParameters [(FormalParameter (BindingIdentifier 'x') (NewTarget))] _) (Identifier 'a'))))",
    },
    Row {
        clause: "13.3.1.1: new.target in an arrow of a function, not of the root",
        frame: "@",
        sound: "(FunctionDeclaration '' '' (BindingIdentifier 'f') (FormalParameters [] _) (FunctionBody [] [(ExpressionStatement (ParenthesizedExpression (ArrowFunctionExpression '' (FormalParameters [] _) (NewTarget))))]))",
        broken: "(ExpressionStatement (ParenthesizedExpression (ArrowFunctionExpression '' (FormalParameters [] _) (NewTarget))))",
    },
    Row {
        clause: "13.3.1.1: new.target in the parameters of an arrow of a function, not of the root",
        frame: "@",
        sound: "(FunctionDeclaration '' '' (BindingIdentifier 'f') (FormalParameters [] _) (FunctionBody [] [(ExpressionStatement (ParenthesizedExpression (ArrowFunctionExpression '' (FormalParameters [(FormalParameter (BindingIdentifier 'x') (NewTarget))] _) (Identifier 'a'))))]))",
        broken: "(ExpressionStatement (ParenthesizedExpression (ArrowFunctionExpression '' (FormalParameters [(FormalParameter (BindingIdentifier 'x') (NewTarget))] _) (Identifier 'a'))))",
    },
    Row {
        clause: "13.3.1.1: new.target in the value of a field, not in its key",
        frame: "(ClassDeclaration (BindingIdentifier 'C') _ (ClassBody [(PropertyDefinition 'computed' '' @)]))",
        sound: "(Identifier 'b') (NewTarget)",
        broken: "(NewTarget) (Identifier 'b')",
    },
    Row {
        clause: "13.3.1.1: new.target in the key of a field of a function",
        frame: "@",
        sound: "(FunctionDeclaration '' '' (BindingIdentifier 'f') (FormalParameters [] _) (FunctionBody [] [(ClassDeclaration (BindingIdentifier 'C') _ (ClassBody [(PropertyDefinition 'computed' '' (NewTarget) (Identifier 'b'))]))]))",
        broken: "(ClassDeclaration (BindingIdentifier 'C') _ (ClassBody [(PropertyDefinition 'computed' '' (NewTarget) (Identifier 'b'))]))",
    },
    Row {
        clause: "13.3.1.1: new.target in a static block, not in a heritage",
        frame: "@",
        sound: "(ClassDeclaration (BindingIdentifier 'C') _ (ClassBody [(StaticBlock [(ExpressionStatement (NewTarget))])]))",
        broken: "(ClassDeclaration (BindingIdentifier 'C') (NewTarget) (ClassBody []))",
    },
    Row {
        clause: "13.3.1.1: new.target in an arrow of a static block, not of the root",
        frame: "@",
        sound: "(ClassDeclaration (BindingIdentifier 'C') _ (ClassBody [(StaticBlock [(ExpressionStatement (ParenthesizedExpression (ArrowFunctionExpression '' (FormalParameters [] _) (NewTarget))))])]))",
        broken: "(ExpressionStatement (ParenthesizedExpression (ArrowFunctionExpression '' (FormalParameters [] _) (NewTarget))))",
    },
];
