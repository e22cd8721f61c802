//! Names that strict code reserves, `arguments` in classes, and private names.

use crate::rows::Row;

/// Rule 5: no binding is `arguments` or `eval`.
pub static BINDING_ROWS: [Row; 19] = [
    Row {
        clause: "13.1.1: no variable is named eval",
        frame: "(VariableDeclaration 'let' [(VariableDeclarator (BindingIdentifier @) (Identifier 'b'))])",
        sound: "'a'",
        broken: "'eval'",
    },
    Row {
        clause: "13.1.1: no variable is named arguments",
        frame: "(VariableDeclaration 'let' [(VariableDeclarator (BindingIdentifier @) (Identifier 'b'))])",
        sound: "'a'",
        broken: "'arguments'",
    },
    Row {
        clause: "13.1.1: no variable by var is named eval",
        frame: "(VariableDeclaration 'var' [(VariableDeclarator (BindingIdentifier @) _)])",
        sound: "'a'",
        broken: "'eval'",
    },
    Row {
        clause: "13.1.1: no function is named eval",
        frame: "(FunctionDeclaration '' '' (BindingIdentifier @) (FormalParameters [] _) (FunctionBody [] []))",
        sound: "'a'",
        broken: "'eval'",
    },
    Row {
        clause: "13.1.1: no function is named arguments",
        frame: "(FunctionDeclaration '' '' (BindingIdentifier @) (FormalParameters [] _) (FunctionBody [] []))",
        sound: "'a'",
        broken: "'arguments'",
    },
    Row {
        clause: "13.1.1: no function expression is named eval",
        frame: "(ExpressionStatement (ParenthesizedExpression (FunctionExpression '' '' (BindingIdentifier @) (FormalParameters [] _) (FunctionBody [] []))))",
        sound: "'a'",
        broken: "'eval'",
    },
    Row {
        clause: "13.1.1: no parameter is named eval",
        frame: "(FunctionDeclaration '' '' (BindingIdentifier 'f') (FormalParameters [(FormalParameter (BindingIdentifier @) _)] _) (FunctionBody [] []))",
        sound: "'a'",
        broken: "'eval'",
    },
    Row {
        clause: "13.1.1: no parameter is named arguments",
        frame: "(FunctionDeclaration '' '' (BindingIdentifier 'f') (FormalParameters [(FormalParameter (BindingIdentifier @) _)] _) (FunctionBody [] []))",
        sound: "'a'",
        broken: "'arguments'",
    },
    Row {
        clause: "13.1.1: no parameter of an arrow is named eval",
        frame: "(ExpressionStatement (ParenthesizedExpression (ArrowFunctionExpression '' (FormalParameters [(FormalParameter (BindingIdentifier @) _)] _) (Identifier 'a'))))",
        sound: "'a'",
        broken: "'eval'",
    },
    Row {
        clause: "13.1.1: no rest parameter is named arguments",
        frame: "(FunctionDeclaration '' '' (BindingIdentifier 'f') (FormalParameters [] (FormalParameterRest (BindingRestElement (BindingIdentifier @)))) (FunctionBody [] []))",
        sound: "'a'",
        broken: "'arguments'",
    },
    Row {
        clause: "13.1.1: no class is named eval",
        frame: "(ClassDeclaration (BindingIdentifier @) _ (ClassBody []))",
        sound: "'a'",
        broken: "'eval'",
    },
    Row {
        clause: "13.1.1: no default import is named eval",
        frame: "(ImportDeclaration [(ImportDefaultSpecifier (BindingIdentifier @))] (StringLiteral 'm'))",
        sound: "'a'",
        broken: "'eval'",
    },
    Row {
        clause: "13.1.1: no import is named arguments",
        frame: "(ImportDeclaration [(ImportSpecifier (IdentifierName 'a') (BindingIdentifier @))] (StringLiteral 'm'))",
        sound: "'a'",
        broken: "'arguments'",
    },
    Row {
        clause: "13.1.1: no namespace is named eval",
        frame: "(ImportDeclaration [(ImportNamespaceSpecifier (BindingIdentifier @))] (StringLiteral 'm'))",
        sound: "'a'",
        broken: "'eval'",
    },
    Row {
        clause: "13.1.1: no caught value is named arguments",
        frame: "(TryStatement (BlockStatement []) (CatchClause (CatchParameter (BindingIdentifier @)) (BlockStatement [])) _)",
        sound: "'a'",
        broken: "'arguments'",
    },
    Row {
        clause: "13.1.1: no element of a pattern is named eval",
        frame: "(VariableDeclaration 'let' [(VariableDeclarator (ArrayPattern [(BindingIdentifier @)] _) (Identifier 'b'))])",
        sound: "'a'",
        broken: "'eval'",
    },
    Row {
        clause: "13.1.1: no property of a pattern is named arguments",
        frame: "(VariableDeclaration 'let' [(VariableDeclarator (ObjectPattern [(BindingProperty '' '' (IdentifierName 'a') (BindingIdentifier @))] _) (Identifier 'b'))])",
        sound: "'a'",
        broken: "'arguments'",
    },
    Row {
        clause: "13.1.1: but a key of a pattern may be",
        frame: "(VariableDeclaration 'let' [(VariableDeclarator (ObjectPattern [(BindingProperty '' '' @)] _) (Identifier 'b'))])",
        sound: "(IdentifierName 'eval') (BindingIdentifier 'a')",
        broken: "(IdentifierName 'a') (BindingIdentifier 'eval')",
    },
    Row {
        clause: "13.1.1: no variable of a head is named eval",
        frame: "(ForOfStatement '' (VariableDeclaration 'const' [(VariableDeclarator (BindingIdentifier @) _)]) (Identifier 'b') (EmptyStatement))",
        sound: "'a'",
        broken: "'eval'",
    },
];

/// Rule 5: no simple target is `arguments` or `eval`.
pub static TARGET_ROWS: [Row; 27] = [
    Row {
        clause: "13.15.1: no assignment to eval",
        frame: "(ExpressionStatement (AssignmentExpression '=' (Identifier @) (Identifier 'b')))",
        sound: "'a'",
        broken: "'eval'",
    },
    Row {
        clause: "13.15.1: no assignment to arguments",
        frame: "(ExpressionStatement (AssignmentExpression '=' (Identifier @) (Identifier 'b')))",
        sound: "'a'",
        broken: "'arguments'",
    },
    Row {
        clause: "13.15.1: no assignment with an operator to eval",
        frame: "(ExpressionStatement (AssignmentExpression '+=' (Identifier @) (Identifier 'b')))",
        sound: "'a'",
        broken: "'eval'",
    },
    Row {
        clause: "13.15.1: no logical assignment to arguments",
        frame: "(ExpressionStatement (AssignmentExpression '??=' (Identifier @) (Identifier 'b')))",
        sound: "'a'",
        broken: "'arguments'",
    },
    Row {
        clause: "13.15.1: but eval may be assigned",
        frame: "(ExpressionStatement (AssignmentExpression '=' @))",
        sound: "(Identifier 'a') (Identifier 'eval')",
        broken: "(Identifier 'eval') (Identifier 'a')",
    },
    Row {
        clause: "13.15.1: a member of eval may be assigned to",
        frame: "(ExpressionStatement (AssignmentExpression '=' @ (Identifier 'b')))",
        sound: "(StaticMemberExpression '' (Identifier 'eval') (IdentifierName 'a'))",
        broken: "(Identifier 'eval')",
    },
    Row {
        clause: "13.15.1: eval may be called",
        frame: "(ExpressionStatement @)",
        sound: "(CallExpression '' (Identifier 'eval') [])",
        broken: "(AssignmentExpression '=' (Identifier 'eval') (Identifier 'b'))",
    },
    Row {
        clause: "13.4.1: no update of eval",
        frame: "(ExpressionStatement (UpdateExpression '++' '' (Identifier @)))",
        sound: "'a'",
        broken: "'eval'",
    },
    Row {
        clause: "13.4.1: no update of arguments",
        frame: "(ExpressionStatement (UpdateExpression '++' '' (Identifier @)))",
        sound: "'a'",
        broken: "'arguments'",
    },
    Row {
        clause: "13.4.1: no update in front of eval",
        frame: "(ExpressionStatement (UpdateExpression '--' 'prefix' (Identifier @)))",
        sound: "'a'",
        broken: "'eval'",
    },
    Row {
        clause: "13.4.1: a member of arguments may be updated",
        frame: "(ExpressionStatement (UpdateExpression '++' '' @))",
        sound: "(StaticMemberExpression '' (Identifier 'arguments') (IdentifierName 'a'))",
        broken: "(Identifier 'arguments')",
    },
    Row {
        clause: "14.7.5.1: no head of for in assigns to eval",
        frame: "(ForInStatement (Identifier @) (Identifier 'b') (EmptyStatement))",
        sound: "'a'",
        broken: "'eval'",
    },
    Row {
        clause: "14.7.5.1: no head of for in assigns to arguments",
        frame: "(ForInStatement (Identifier @) (Identifier 'b') (EmptyStatement))",
        sound: "'a'",
        broken: "'arguments'",
    },
    Row {
        clause: "14.7.5.1: no head of for of assigns to eval",
        frame: "(ForOfStatement '' (Identifier @) (Identifier 'b') (EmptyStatement))",
        sound: "'a'",
        broken: "'eval'",
    },
    Row {
        clause: "14.7.5.1: no head of for of assigns to arguments",
        frame: "(ForOfStatement '' (Identifier @) (Identifier 'b') (EmptyStatement))",
        sound: "'a'",
        broken: "'arguments'",
    },
    Row {
        clause: "14.7.5.1: but a loop may go over eval",
        frame: "@",
        sound: "(ForOfStatement '' (Identifier 'a') (Identifier 'eval') (EmptyStatement))",
        broken: "(ForOfStatement '' (Identifier 'eval') (Identifier 'a') (EmptyStatement))",
    },
    Row {
        clause: "13.15.5.1: no element of a target is eval",
        frame: "(ExpressionStatement (AssignmentExpression '=' (ArrayAssignmentTarget [(Identifier @)] _) (Identifier 'b')))",
        sound: "'a'",
        broken: "'eval'",
    },
    Row {
        clause: "13.15.5.1: no element of a target is arguments",
        frame: "(ExpressionStatement (AssignmentExpression '=' (ArrayAssignmentTarget [(Identifier @)] _) (Identifier 'b')))",
        sound: "'a'",
        broken: "'arguments'",
    },
    Row {
        clause: "13.15.5.1: nor one of an inner target",
        frame: "(ExpressionStatement (AssignmentExpression '=' (ArrayAssignmentTarget [(ArrayAssignmentTarget [(Identifier @)] _)] _) (Identifier 'b')))",
        sound: "'a'",
        broken: "'eval'",
    },
    Row {
        clause: "13.15.5.1: no rest of a target is eval",
        frame: "(ExpressionStatement (AssignmentExpression '=' (ArrayAssignmentTarget [] (AssignmentTargetRest (Identifier @))) (Identifier 'b')))",
        sound: "'a'",
        broken: "'eval'",
    },
    Row {
        clause: "13.15.5.1: no element with a default is eval",
        frame: "(ExpressionStatement (AssignmentExpression '=' (ArrayAssignmentTarget [(AssignmentTargetWithDefault (Identifier @) (Identifier 'b'))] _) (Identifier 'b')))",
        sound: "'a'",
        broken: "'eval'",
    },
    Row {
        clause: "13.15.5.1: but eval may be a default",
        frame: "(ExpressionStatement (AssignmentExpression '=' (ArrayAssignmentTarget [(AssignmentTargetWithDefault @)] _) (Identifier 'b')))",
        sound: "(Identifier 'a') (Identifier 'eval')",
        broken: "(Identifier 'eval') (Identifier 'a')",
    },
    Row {
        clause: "13.15.5.1: no property of a target is eval",
        frame: "(ExpressionStatement (ParenthesizedExpression (AssignmentExpression '=' (ObjectAssignmentTarget [(AssignmentTargetProperty '' '' (IdentifierName 'a') (Identifier @))] _) (Identifier 'b'))))",
        sound: "'a'",
        broken: "'eval'",
    },
    Row {
        clause: "13.15.5.1: no property in shorthand is eval",
        frame: "(ExpressionStatement (ParenthesizedExpression (AssignmentExpression '=' (ObjectAssignmentTarget [(AssignmentTargetProperty '' 'shorthand' @)] _) (Identifier 'b'))))",
        sound: "(IdentifierName 'a') (Identifier 'a')",
        broken: "(IdentifierName 'eval') (Identifier 'eval')",
    },
    Row {
        clause: "13.15.5.1: but a key in brackets may be",
        frame: "(ExpressionStatement (ParenthesizedExpression (AssignmentExpression '=' (ObjectAssignmentTarget [(AssignmentTargetProperty 'computed' '' @)] _) (Identifier 'b'))))",
        sound: "(Identifier 'eval') (Identifier 'a')",
        broken: "(Identifier 'a') (Identifier 'eval')",
    },
    Row {
        clause: "13.15.5.1: no rest of an object is arguments",
        frame: "(ExpressionStatement (ParenthesizedExpression (AssignmentExpression '=' (ObjectAssignmentTarget [] (AssignmentTargetRest (Identifier @))) (Identifier 'b'))))",
        sound: "'a'",
        broken: "'arguments'",
    },
    Row {
        clause: "13.15.5.1: no element of a target in a head is eval",
        frame: "(ForOfStatement '' (ArrayAssignmentTarget [(Identifier @)] _) (Identifier 'b') (EmptyStatement))",
        sound: "'a'",
        broken: "'eval'",
    },
];

/// Rule 5: `arguments` in field initializers and static blocks.
pub static ARGUMENTS_ROWS: [Row; 10] = [
    Row {
        clause: "15.7.1: no arguments in the value of a field",
        frame: "(ClassDeclaration (BindingIdentifier 'C') _ (ClassBody [(PropertyDefinition '' '' (IdentifierName 'x') @)]))",
        sound: "(Identifier 'a')",
        broken: "(Identifier 'arguments')",
    },
    Row {
        clause: "15.7.1: no arguments in the value of a static field",
        frame: "(ClassDeclaration (BindingIdentifier 'C') _ (ClassBody [(PropertyDefinition '' 'static' (IdentifierName 'x') @)]))",
        sound: "(Identifier 'a')",
        broken: "(Identifier 'arguments')",
    },
    Row {
        clause: "15.7.1: but in its key",
        frame: "(ClassDeclaration (BindingIdentifier 'C') _ (ClassBody [(PropertyDefinition 'computed' '' @)]))",
        sound: "(Identifier 'arguments') (Identifier 'b')",
        broken: "(Identifier 'b') (Identifier 'arguments')",
    },
    Row {
        clause: "15.7.1: but in a method",
        frame: "(ClassDeclaration (BindingIdentifier 'C') _ (ClassBody [@]))",
        sound: "(MethodDefinition 'method' '' '' (IdentifierName 'm') (FunctionExpression '' '' _ (FormalParameters [] _) (FunctionBody [] [(ExpressionStatement (Identifier 'arguments'))])))",
        broken: "(PropertyDefinition '' '' (IdentifierName 'x') (Identifier 'arguments'))",
    },
    Row {
        clause: "15.7.1: but in a function of a field, not in an arrow",
        frame: "(ClassDeclaration (BindingIdentifier 'C') _ (ClassBody [(PropertyDefinition '' '' (IdentifierName 'x') (ParenthesizedExpression @))]))",
        sound: "(FunctionExpression '' '' _ (FormalParameters [] _) (FunctionBody [] [(ExpressionStatement (Identifier 'arguments'))]))",
        broken: "(ArrowFunctionExpression '' (FormalParameters [] _) (Identifier 'arguments'))",
    },
    Row {
        clause: "15.7.1: no arguments in a static block",
        frame: "(ClassDeclaration (BindingIdentifier 'C') _ (ClassBody [(StaticBlock [(ExpressionStatement @)])]))",
        sound: "(Identifier 'a')",
        broken: "(Identifier 'arguments')",
    },
    Row {
        clause: "15.7.1: but in a function that is declared there, not in a block",
        frame: "(ClassDeclaration (BindingIdentifier 'C') _ (ClassBody [(StaticBlock [@])]))",
        sound: "(FunctionDeclaration '' '' (BindingIdentifier 'f') (FormalParameters [] _) (FunctionBody [] [(ExpressionStatement (Identifier 'arguments'))]))",
        broken: "(BlockStatement [(ExpressionStatement (Identifier 'arguments'))])",
    },
    Row {
        clause: "15.7.1: but in a method of an object there, not in a value",
        frame: "(ClassDeclaration (BindingIdentifier 'C') _ (ClassBody [(StaticBlock [(ExpressionStatement (ParenthesizedExpression (ObjectExpression [@])))])]))",
        sound: "(ObjectProperty 'init' 'method' '' '' (IdentifierName 'm') (FunctionExpression '' '' _ (FormalParameters [] _) (FunctionBody [] [(ExpressionStatement (Identifier 'arguments'))])))",
        broken: "(ObjectProperty 'init' '' '' '' (IdentifierName 'm') (Identifier 'arguments'))",
    },
    Row {
        clause: "15.7.1: no arguments in the key of a class in a field",
        frame: "@",
        sound: "(ClassDeclaration (BindingIdentifier 'C') _ (ClassBody [(PropertyDefinition '' '' (IdentifierName 'x') _)])) (ClassDeclaration (BindingIdentifier 'D') _ (ClassBody [(PropertyDefinition 'computed' '' (Identifier 'arguments') _)]))",
        broken: "(ClassDeclaration (BindingIdentifier 'C') _ (ClassBody [(PropertyDefinition '' '' (IdentifierName 'x') (ClassExpression _ _ (ClassBody [(PropertyDefinition 'computed' '' (Identifier 'arguments') _)])))]))",
    },
    Row {
        clause: "15.7.1: arguments in a heritage, not in a static block",
        frame: "@",
        sound: "(ClassDeclaration (BindingIdentifier 'C') (Identifier 'arguments') (ClassBody []))",
        broken: "(ClassDeclaration (BindingIdentifier 'C') _ (ClassBody [(StaticBlock [(ExpressionStatement (Identifier 'arguments'))])]))",
    },
];

/// Rule 5: private names.
pub static PRIVATE_ROWS: [Row; 14] = [
    Row {
        clause: "15.7.1: a field declares a private name",
        frame: "(ClassDeclaration (BindingIdentifier 'C') _ (ClassBody [(PropertyDefinition '' '' @ _) (MethodDefinition 'method' '' '' (IdentifierName 'm') (FunctionExpression '' '' _ (FormalParameters [] _) (FunctionBody [] [(ExpressionStatement (PrivateFieldExpression '' (Identifier 'b') (PrivateIdentifier 'a')))])))]))",
        sound: "(PrivateIdentifier 'a')",
        broken: "(IdentifierName 'a')",
    },
    Row {
        clause: "15.7.1: the name that it declares",
        frame: "(ClassDeclaration (BindingIdentifier 'C') _ (ClassBody [(PropertyDefinition '' '' (PrivateIdentifier 'a') _) (MethodDefinition 'method' '' '' (IdentifierName 'm') (FunctionExpression '' '' _ (FormalParameters [] _) (FunctionBody [] [(ExpressionStatement (PrivateFieldExpression '' (Identifier 'b') (PrivateIdentifier @)))])))]))",
        sound: "'a'",
        broken: "'b'",
    },
    Row {
        clause: "15.7.1: a method declares a private name",
        frame: "(ClassDeclaration (BindingIdentifier 'C') _ (ClassBody [(MethodDefinition 'method' '' '' @ (FunctionExpression '' '' _ (FormalParameters [] _) (FunctionBody [] []))) (PropertyDefinition '' '' (IdentifierName 'x') (PrivateFieldExpression '' (Identifier 'b') (PrivateIdentifier 'a')))]))",
        sound: "(PrivateIdentifier 'a')",
        broken: "(IdentifierName 'a')",
    },
    Row {
        clause: "15.7.1: a getter declares a private name",
        frame: "(ClassDeclaration (BindingIdentifier 'C') _ (ClassBody [(MethodDefinition 'get' '' '' @ (FunctionExpression '' '' _ (FormalParameters [] _) (FunctionBody [] []))) (PropertyDefinition '' '' (IdentifierName 'x') (PrivateFieldExpression '' (Identifier 'b') (PrivateIdentifier 'a')))]))",
        sound: "(PrivateIdentifier 'a')",
        broken: "(IdentifierName 'a')",
    },
    Row {
        clause: "15.7.1: a static field declares a private name",
        frame: "(ClassDeclaration (BindingIdentifier 'C') _ (ClassBody [(PropertyDefinition '' 'static' @ _) (MethodDefinition 'method' '' '' (IdentifierName 'm') (FunctionExpression '' '' _ (FormalParameters [] _) (FunctionBody [] [(ExpressionStatement (PrivateFieldExpression '' (Identifier 'b') (PrivateIdentifier 'a')))])))]))",
        sound: "(PrivateIdentifier 'a')",
        broken: "(IdentifierName 'a')",
    },
    Row {
        clause: "15.7.1: a private name stands before its declaration too",
        frame: "(ClassDeclaration (BindingIdentifier 'C') _ (ClassBody [(MethodDefinition 'method' '' '' (IdentifierName 'm') (FunctionExpression '' '' _ (FormalParameters [] _) (FunctionBody [] [(ExpressionStatement (PrivateFieldExpression '' (Identifier 'b') (PrivateIdentifier 'a')))]))) (PropertyDefinition '' '' @ _)]))",
        sound: "(PrivateIdentifier 'a')",
        broken: "(PrivateIdentifier 'b')",
    },
    Row {
        clause: "15.7.1: a test for a private name",
        frame: "(ClassDeclaration (BindingIdentifier 'C') _ (ClassBody [(PropertyDefinition '' '' @ _) (MethodDefinition 'method' '' '' (IdentifierName 'm') (FunctionExpression '' '' _ (FormalParameters [] _) (FunctionBody [] [(ExpressionStatement (PrivateInExpression (PrivateIdentifier 'a') (Identifier 'b')))])))]))",
        sound: "(PrivateIdentifier 'a')",
        broken: "(IdentifierName 'a')",
    },
    Row {
        clause: "15.7.1: a class expression declares private names",
        frame: "(ExpressionStatement (ParenthesizedExpression (ClassExpression _ _ (ClassBody [(PropertyDefinition '' '' @ _) (MethodDefinition 'method' '' '' (IdentifierName 'm') (FunctionExpression '' '' _ (FormalParameters [] _) (FunctionBody [] [(ExpressionStatement (PrivateFieldExpression '' (Identifier 'b') (PrivateIdentifier 'a')))])))]))))",
        sound: "(PrivateIdentifier 'a')",
        broken: "(IdentifierName 'a')",
    },
    Row {
        clause: "15.7.1: a private name of an outer class",
        frame: "(ClassDeclaration (BindingIdentifier 'C') _ (ClassBody [(PropertyDefinition '' '' @ _) (StaticBlock [(ClassDeclaration (BindingIdentifier 'C') _ (ClassBody [(MethodDefinition 'method' '' '' (IdentifierName 'm') (FunctionExpression '' '' _ (FormalParameters [] _) (FunctionBody [] [(ExpressionStatement (PrivateInExpression (PrivateIdentifier 'a') (Identifier 'b')))])))]))])]))",
        sound: "(PrivateIdentifier 'a')",
        broken: "(IdentifierName 'a')",
    },
    Row {
        clause: "15.7.1: none of an inner class",
        frame: "(ClassDeclaration (BindingIdentifier 'C') _ (ClassBody [@]))",
        sound: "(StaticBlock [(ClassDeclaration (BindingIdentifier 'C') _ (ClassBody [(PropertyDefinition '' '' (PrivateIdentifier 'a') _) (MethodDefinition 'method' '' '' (IdentifierName 'm') (FunctionExpression '' '' _ (FormalParameters [] _) (FunctionBody [] [(ExpressionStatement (PrivateInExpression (PrivateIdentifier 'a') (Identifier 'b')))])))]))])",
        broken: "(StaticBlock [(ClassDeclaration (BindingIdentifier 'C') _ (ClassBody [(PropertyDefinition '' '' (PrivateIdentifier 'a') _)])) (ExpressionStatement (PrivateInExpression (PrivateIdentifier 'a') (Identifier 'b')))])",
    },
    Row {
        clause: "15.7.1: none of a class before",
        frame: "@",
        sound: "(ClassDeclaration (BindingIdentifier 'C') _ (ClassBody [(PropertyDefinition '' '' (PrivateIdentifier 'a') _) (MethodDefinition 'method' '' '' (IdentifierName 'm') (FunctionExpression '' '' _ (FormalParameters [] _) (FunctionBody [] [(ExpressionStatement (PrivateFieldExpression '' (Identifier 'b') (PrivateIdentifier 'a')))])))]))",
        broken: "(ClassDeclaration (BindingIdentifier 'C') _ (ClassBody [(PropertyDefinition '' '' (PrivateIdentifier 'a') _)])) (ClassDeclaration (BindingIdentifier 'D') _ (ClassBody [(MethodDefinition 'method' '' '' (IdentifierName 'm') (FunctionExpression '' '' _ (FormalParameters [] _) (FunctionBody [] [(ExpressionStatement (PrivateFieldExpression '' (Identifier 'b') (PrivateIdentifier 'a')))])))]))",
    },
    Row {
        clause: "15.7.1: a private name in a key is one of the class",
        frame: "(ClassDeclaration (BindingIdentifier 'C') _ (ClassBody [(PropertyDefinition 'computed' '' (PrivateFieldExpression '' (Identifier 'b') (PrivateIdentifier 'a')) _) (PropertyDefinition '' '' @ _)]))",
        sound: "(PrivateIdentifier 'a')",
        broken: "(IdentifierName 'a')",
    },
    Row {
        clause: "15.7.1: a private name in a function of the class",
        frame: "(ClassDeclaration (BindingIdentifier 'C') _ (ClassBody [(PropertyDefinition '' '' @ _) (PropertyDefinition '' '' (IdentifierName 'x') (ParenthesizedExpression (FunctionExpression '' '' _ (FormalParameters [] _) (FunctionBody [] [(ExpressionStatement (PrivateFieldExpression '' (Identifier 'b') (PrivateIdentifier 'a')))]))))]))",
        sound: "(PrivateIdentifier 'a')",
        broken: "(IdentifierName 'a')",
    },
    Row {
        clause: "16.2.1.1: no private name at the root",
        frame: "@",
        sound: "(ClassDeclaration (BindingIdentifier 'C') _ (ClassBody [(PropertyDefinition '' '' (PrivateIdentifier 'a') _) (StaticBlock [(ExpressionStatement (PrivateInExpression (PrivateIdentifier 'a') (Identifier 'b')))])]))",
        broken: "(ClassDeclaration (BindingIdentifier 'C') _ (ClassBody [(PropertyDefinition '' '' (PrivateIdentifier 'a') _)])) (ExpressionStatement (PrivateInExpression (PrivateIdentifier 'a') (Identifier 'b')))",
    },
];

/// Rule 5: private names in a class's heritage.
pub static HERITAGE_ROWS: [Row; 6] = [
    Row {
        clause: "15.7.14: no private name of the class",
        frame: "(ClassDeclaration (BindingIdentifier 'A') @ (ClassBody [(PropertyDefinition '' '' (PrivateIdentifier 'x') _)]))",
        sound: "_",
        broken: "(PrivateFieldExpression '' (Identifier 'o') (PrivateIdentifier 'x'))",
    },
    Row {
        clause: "15.7.14: nor of a class expression",
        frame: "(ExpressionStatement (ParenthesizedExpression (ClassExpression _ @ (ClassBody [(PropertyDefinition '' '' (PrivateIdentifier 'x') _)]))))",
        sound: "(Identifier 'o')",
        broken: "(PrivateFieldExpression '' (Identifier 'o') (PrivateIdentifier 'x'))",
    },
    Row {
        clause: "15.7.1: but in a key of the class",
        frame: "@",
        sound: "(ClassDeclaration (BindingIdentifier 'A') _ (ClassBody [(PropertyDefinition '' '' (PrivateIdentifier 'x') _) (PropertyDefinition 'computed' '' (PrivateFieldExpression '' (Identifier 'o') (PrivateIdentifier 'x')) _)]))",
        broken: "(ClassDeclaration (BindingIdentifier 'A') (PrivateFieldExpression '' (Identifier 'o') (PrivateIdentifier 'x')) (ClassBody [(PropertyDefinition '' '' (PrivateIdentifier 'x') _)]))",
    },
    Row {
        clause: "15.7.1: one of a class round it",
        frame: "(ClassDeclaration (BindingIdentifier 'C') _ (ClassBody [(PropertyDefinition '' '' @ _) (StaticBlock [(ClassDeclaration (BindingIdentifier 'A') (PrivateFieldExpression '' (Identifier 'o') (PrivateIdentifier 'x')) (ClassBody [(PropertyDefinition '' '' (PrivateIdentifier 'x') _)]))])]))",
        sound: "(PrivateIdentifier 'x')",
        broken: "(IdentifierName 'x')",
    },
    Row {
        clause: "15.7.1: also in a method there",
        frame: "(ClassDeclaration (BindingIdentifier 'A') _ (ClassBody [(PropertyDefinition '' '' @ _) (MethodDefinition 'method' '' '' (IdentifierName 'm') (FunctionExpression '' '' _ (FormalParameters [] _) (FunctionBody [] [(ClassDeclaration (BindingIdentifier 'B') (PrivateFieldExpression '' (ThisExpression) (PrivateIdentifier 'x')) (ClassBody []))])))]))",
        sound: "(PrivateIdentifier 'x')",
        broken: "(IdentifierName 'x')",
    },
    Row {
        clause: "15.7.1: a class in the heritage has names of its own",
        frame: "(ClassDeclaration (BindingIdentifier 'A') (ClassExpression _ _ (ClassBody [@ (PropertyDefinition '' '' (IdentifierName 'y') (PrivateFieldExpression '' (Identifier 'o') (PrivateIdentifier 'x')))])) (ClassBody [(PropertyDefinition '' '' (PrivateIdentifier 'x') _)]))",
        sound: "(PropertyDefinition '' '' (PrivateIdentifier 'x') _)",
        broken: "(PropertyDefinition '' '' (IdentifierName 'x') _)",
    },
];
