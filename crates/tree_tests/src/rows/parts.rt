//! Parameters of accessors, constructors and initializers.

use crate::rows::Row;

/// Rule 6: parameters of getters and setters, and constructors.
pub static ACCESSOR_ROWS: [Row; 18] = [
    Row {
        clause: "15.4: a getter has no parameter",
        frame: "(ClassDeclaration (BindingIdentifier 'C') _ (ClassBody [(MethodDefinition 'get' '' '' (IdentifierName 'm') (FunctionExpression '' '' _ @ (FunctionBody [] [])))]))",
        sound: "(FormalParameters [] _)",
        broken: "(FormalParameters [(FormalParameter (BindingIdentifier 'a') _)] _)",
    },
    Row {
        clause: "15.4: a getter has no rest",
        frame: "(ClassDeclaration (BindingIdentifier 'C') _ (ClassBody [(MethodDefinition 'get' '' '' (IdentifierName 'm') (FunctionExpression '' '' _ @ (FunctionBody [] [])))]))",
        sound: "(FormalParameters [] _)",
        broken: "(FormalParameters [] (FormalParameterRest (BindingRestElement (BindingIdentifier 'a'))))",
    },
    Row {
        clause: "15.4: a static getter has no parameter",
        frame: "(ClassDeclaration (BindingIdentifier 'C') _ (ClassBody [(MethodDefinition 'get' '' 'static' (IdentifierName 'm') (FunctionExpression '' '' _ @ (FunctionBody [] [])))]))",
        sound: "(FormalParameters [] _)",
        broken: "(FormalParameters [(FormalParameter (BindingIdentifier 'a') _)] _)",
    },
    Row {
        clause: "15.4: a setter has a parameter",
        frame: "(ClassDeclaration (BindingIdentifier 'C') _ (ClassBody [(MethodDefinition 'set' '' '' (IdentifierName 'm') (FunctionExpression '' '' _ @ (FunctionBody [] [])))]))",
        sound: "(FormalParameters [(FormalParameter (BindingIdentifier 'a') _)] _)",
        broken: "(FormalParameters [] _)",
    },
    Row {
        clause: "15.4: a setter has one parameter",
        frame: "(ClassDeclaration (BindingIdentifier 'C') _ (ClassBody [(MethodDefinition 'set' '' '' (IdentifierName 'm') (FunctionExpression '' '' _ @ (FunctionBody [] [])))]))",
        sound: "(FormalParameters [(FormalParameter (BindingIdentifier 'a') (Identifier 'b'))] _)",
        broken: "(FormalParameters [(FormalParameter (BindingIdentifier 'a') _) (FormalParameter (BindingIdentifier 'b') _)] _)",
    },
    Row {
        clause: "15.4: a setter has no rest in place of it",
        frame: "(ClassDeclaration (BindingIdentifier 'C') _ (ClassBody [(MethodDefinition 'set' '' '' (IdentifierName 'm') (FunctionExpression '' '' _ @ (FunctionBody [] [])))]))",
        sound: "(FormalParameters [(FormalParameter (BindingIdentifier 'a') _)] _)",
        broken: "(FormalParameters [] (FormalParameterRest (BindingRestElement (BindingIdentifier 'a'))))",
    },
    Row {
        clause: "15.4: a setter has no rest behind it",
        frame: "(ClassDeclaration (BindingIdentifier 'C') _ (ClassBody [(MethodDefinition 'set' '' '' (IdentifierName 'm') (FunctionExpression '' '' _ @ (FunctionBody [] [])))]))",
        sound: "(FormalParameters [(FormalParameter (BindingIdentifier 'a') _)] _)",
        broken: "(FormalParameters [(FormalParameter (BindingIdentifier 'b') _)] (FormalParameterRest (BindingRestElement (BindingIdentifier 'a'))))",
    },
    Row {
        clause: "15.4: a method has any parameters",
        frame: "(ClassDeclaration (BindingIdentifier 'C') _ (ClassBody [(MethodDefinition @ '' '' (IdentifierName 'm') (FunctionExpression '' '' _ (FormalParameters [(FormalParameter (BindingIdentifier 'a') _) (FormalParameter (BindingIdentifier 'b') _)] _) (FunctionBody [] [])))]))",
        sound: "'method'",
        broken: "'get'",
    },
    Row {
        clause: "15.4: a method has any parameters, a setter one",
        frame: "(ClassDeclaration (BindingIdentifier 'C') _ (ClassBody [(MethodDefinition @ '' '' (IdentifierName 'm') (FunctionExpression '' '' _ (FormalParameters [(FormalParameter (BindingIdentifier 'a') _) (FormalParameter (BindingIdentifier 'b') _)] _) (FunctionBody [] [])))]))",
        sound: "'method'",
        broken: "'set'",
    },
    Row {
        clause: "13.2.5: a getter of an object has no parameter",
        frame: "(ExpressionStatement (ParenthesizedExpression (ObjectExpression [(ObjectProperty 'get' '' '' '' (IdentifierName 'm') (FunctionExpression '' '' _ @ (FunctionBody [] [])))])))",
        sound: "(FormalParameters [] _)",
        broken: "(FormalParameters [(FormalParameter (BindingIdentifier 'a') _)] _)",
    },
    Row {
        clause: "13.2.5: a getter of an object has no rest",
        frame: "(ExpressionStatement (ParenthesizedExpression (ObjectExpression [(ObjectProperty 'get' '' '' '' (IdentifierName 'm') (FunctionExpression '' '' _ @ (FunctionBody [] [])))])))",
        sound: "(FormalParameters [] _)",
        broken: "(FormalParameters [] (FormalParameterRest (BindingRestElement (BindingIdentifier 'a'))))",
    },
    Row {
        clause: "13.2.5: a setter of an object has a parameter",
        frame: "(ExpressionStatement (ParenthesizedExpression (ObjectExpression [(ObjectProperty 'set' '' '' '' (IdentifierName 'm') (FunctionExpression '' '' _ @ (FunctionBody [] [])))])))",
        sound: "(FormalParameters [(FormalParameter (BindingIdentifier 'a') _)] _)",
        broken: "(FormalParameters [] _)",
    },
    Row {
        clause: "13.2.5: a setter of an object has one parameter",
        frame: "(ExpressionStatement (ParenthesizedExpression (ObjectExpression [(ObjectProperty 'set' '' '' '' (IdentifierName 'm') (FunctionExpression '' '' _ @ (FunctionBody [] [])))])))",
        sound: "(FormalParameters [(FormalParameter (BindingIdentifier 'a') _)] _)",
        broken: "(FormalParameters [(FormalParameter (BindingIdentifier 'a') _) (FormalParameter (BindingIdentifier 'b') _)] _)",
    },
    Row {
        clause: "13.2.5: a value of an object has any parameters",
        frame: "(ExpressionStatement (ParenthesizedExpression (ObjectExpression [(ObjectProperty @ '' '' '' (IdentifierName 'm') (FunctionExpression '' '' _ (FormalParameters [(FormalParameter (BindingIdentifier 'a') _) (FormalParameter (BindingIdentifier 'b') _)] _) (FunctionBody [] [])))])))",
        sound: "'init'",
        broken: "'get'",
    },
    Row {
        clause: "15.7.1: a class has one constructor at most",
        frame: "(ClassDeclaration (BindingIdentifier 'C') _ (ClassBody [(MethodDefinition 'constructor' '' '' (IdentifierName 'constructor') (FunctionExpression '' '' _ (FormalParameters [] _) (FunctionBody [] []))) @]))",
        sound: "(MethodDefinition 'method' '' '' (IdentifierName 'm') (FunctionExpression '' '' _ (FormalParameters [] _) (FunctionBody [] [])))",
        broken: "(MethodDefinition 'constructor' '' '' (IdentifierName 'constructor') (FunctionExpression '' '' _ (FormalParameters [] _) (FunctionBody [] [])))",
    },
    Row {
        clause: "15.7.1: beside static methods of that name",
        frame: "(ClassDeclaration (BindingIdentifier 'C') _ (ClassBody [(MethodDefinition 'constructor' '' '' (IdentifierName 'constructor') (FunctionExpression '' '' _ (FormalParameters [] _) (FunctionBody [] []))) @]))",
        sound: "(MethodDefinition 'method' '' 'static' (IdentifierName 'constructor') (FunctionExpression '' '' _ (FormalParameters [] _) (FunctionBody [] [])))",
        broken: "(MethodDefinition 'constructor' '' '' (IdentifierName 'constructor') (FunctionExpression '' '' _ (FormalParameters [] _) (FunctionBody [] [])))",
    },
    Row {
        clause: "15.7.1: a constructor named by a string counts",
        frame: "(ClassDeclaration (BindingIdentifier 'C') _ (ClassBody [(MethodDefinition 'constructor' '' '' (IdentifierName 'constructor') (FunctionExpression '' '' _ (FormalParameters [] _) (FunctionBody [] []))) (MethodDefinition @ (FunctionExpression '' '' _ (FormalParameters [] _) (FunctionBody [] [])))]))",
        sound: "'method' '' '' (StringLiteral 'm')",
        broken: "'constructor' '' '' (StringLiteral 'constructor')",
    },
    Row {
        clause: "15.7.1: a constructor of an inner class counts there",
        frame: "(ClassDeclaration (BindingIdentifier 'C') _ (ClassBody [(MethodDefinition 'constructor' '' '' (IdentifierName 'constructor') (FunctionExpression '' '' _ (FormalParameters [] _) (FunctionBody [] []))) @]))",
        sound: "(StaticBlock [(ClassDeclaration (BindingIdentifier 'C') _ (ClassBody [(MethodDefinition 'constructor' '' '' (IdentifierName 'constructor') (FunctionExpression '' '' _ (FormalParameters [] _) (FunctionBody [] [])))]))])",
        broken: "(MethodDefinition 'constructor' '' '' (IdentifierName 'constructor') (FunctionExpression '' '' _ (FormalParameters [] _) (FunctionBody [] [])))",
    },
];

/// Rule 6: initializers.
pub static INITIALIZER_ROWS: [Row; 17] = [
    Row {
        clause: "14.3.1.1: a constant has an initializer",
        frame: "(VariableDeclaration 'const' [(VariableDeclarator (BindingIdentifier 'a') @)])",
        sound: "(Identifier 'b')",
        broken: "_",
    },
    Row {
        clause: "14.3.1.1: but not a variable by let",
        frame: "(VariableDeclaration @ [(VariableDeclarator (BindingIdentifier 'a') _)])",
        sound: "'let'",
        broken: "'const'",
    },
    Row {
        clause: "14.3.2: but not a variable by var",
        frame: "(VariableDeclaration @ [(VariableDeclarator (BindingIdentifier 'a') _)])",
        sound: "'var'",
        broken: "'const'",
    },
    Row {
        clause: "14.3.1.1: each constant of several",
        frame: "(VariableDeclaration 'const' [(VariableDeclarator (BindingIdentifier 'a') (Identifier 'b')) (VariableDeclarator (BindingIdentifier 'b') @)])",
        sound: "(Identifier 'b')",
        broken: "_",
    },
    Row {
        clause: "14.3.1.1: an exported constant",
        frame: "(ExportDeclaration (VariableDeclaration 'const' [(VariableDeclarator (BindingIdentifier 'a') @)]))",
        sound: "(Identifier 'b')",
        broken: "_",
    },
    Row {
        clause: "14.3.3: a pattern by let has an initializer",
        frame: "(VariableDeclaration 'let' [(VariableDeclarator (ArrayPattern [(BindingIdentifier 'a')] _) @)])",
        sound: "(Identifier 'b')",
        broken: "_",
    },
    Row {
        clause: "14.3.3: a pattern of an object has one",
        frame: "(VariableDeclaration 'let' [(VariableDeclarator (ObjectPattern [(BindingProperty '' '' (IdentifierName 'a') (BindingIdentifier 'a'))] _) @)])",
        sound: "(Identifier 'b')",
        broken: "_",
    },
    Row {
        clause: "14.3.2: a pattern by var has one",
        frame: "(VariableDeclaration 'var' [(VariableDeclarator (ArrayPattern [(BindingIdentifier 'a')] _) @)])",
        sound: "(Identifier 'b')",
        broken: "_",
    },
    Row {
        clause: "14.3.3: a name needs none where a pattern does",
        frame: "(VariableDeclaration 'let' [(VariableDeclarator @ _)])",
        sound: "(BindingIdentifier 'a')",
        broken: "(ArrayPattern [(BindingIdentifier 'a')] _)",
    },
    Row {
        clause: "14.7.4: a constant of a for loop has an initializer",
        frame: "(ForStatement (VariableDeclaration 'const' [(VariableDeclarator (BindingIdentifier 'a') @)]) _ _ (EmptyStatement))",
        sound: "(Identifier 'b')",
        broken: "_",
    },
    Row {
        clause: "14.7.4: a pattern of a for loop has one",
        frame: "(ForStatement (VariableDeclaration 'let' [(VariableDeclarator (ArrayPattern [(BindingIdentifier 'a')] _) @)]) _ _ (EmptyStatement))",
        sound: "(Identifier 'b')",
        broken: "_",
    },
    Row {
        clause: "14.7.5: a constant of for of needs none",
        frame: "@",
        sound: "(ForOfStatement '' (VariableDeclaration 'const' [(VariableDeclarator (BindingIdentifier 'a') _)]) (Identifier 'b') (EmptyStatement))",
        broken: "(ForStatement (VariableDeclaration 'const' [(VariableDeclarator (BindingIdentifier 'a') _)]) _ _ (EmptyStatement))",
    },
    Row {
        clause: "14.7.5: a constant of for in needs none",
        frame: "@",
        sound: "(ForInStatement (VariableDeclaration 'const' [(VariableDeclarator (BindingIdentifier 'a') _)]) (Identifier 'b') (EmptyStatement))",
        broken: "(ForStatement (VariableDeclaration 'const' [(VariableDeclarator (BindingIdentifier 'a') _)]) _ _ (EmptyStatement))",
    },
    Row {
        clause: "14.7.5: a pattern of for of needs none",
        frame: "@",
        sound: "(ForOfStatement '' (VariableDeclaration 'let' [(VariableDeclarator (ArrayPattern [(BindingIdentifier 'a')] _) _)]) (Identifier 'b') (EmptyStatement))",
        broken: "(ForStatement (VariableDeclaration 'let' [(VariableDeclarator (ArrayPattern [(BindingIdentifier 'a')] _) _)]) _ _ (EmptyStatement))",
    },
    Row {
        clause: "14.7.5: a pattern of for in needs none",
        frame: "@",
        sound: "(ForInStatement (VariableDeclaration 'var' [(VariableDeclarator (ObjectPattern [(BindingProperty '' '' (IdentifierName 'a') (BindingIdentifier 'a'))] _) _)]) (Identifier 'b') (EmptyStatement))",
        broken: "(ForStatement (VariableDeclaration 'var' [(VariableDeclarator (ObjectPattern [(BindingProperty '' '' (IdentifierName 'a') (BindingIdentifier 'a'))] _) _)]) _ _ (EmptyStatement))",
    },
    Row {
        clause: "14.3.1.1: a constant in the body of a loop has an initializer",
        frame: "(ForOfStatement '' (VariableDeclaration 'const' [(VariableDeclarator (BindingIdentifier 'a') _)]) (Identifier 'b') (BlockStatement [(VariableDeclaration 'const' [(VariableDeclarator (BindingIdentifier 'b') @)])]))",
        sound: "(Identifier 'b')",
        broken: "_",
    },
    Row {
        clause: "14.3.1.1: a constant in a function has one",
        frame: "(FunctionDeclaration '' '' (BindingIdentifier 'f') (FormalParameters [] _) (FunctionBody [] [(VariableDeclaration 'const' [(VariableDeclarator (BindingIdentifier 'a') @)])]))",
        sound: "(Identifier 'b')",
        broken: "_",
    },
];
