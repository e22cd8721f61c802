//! Where `super` stands.

use crate::rows::Row;

/// Rule 3: where members of `super` stand. A tree that breaks it is not printable either.
pub static SUPER_ROWS: [Row; 20] = [
    Row {
        clause: "13.3.7: a member of super in a method, not in a function",
        frame: "@",
        sound: "(ClassDeclaration (BindingIdentifier 'C') _ (ClassBody [(MethodDefinition 'method' '' '' (IdentifierName 'm') (FunctionExpression '' '' _ (FormalParameters [] _) (FunctionBody [] [(ExpressionStatement (StaticMemberExpression '' (Super) (IdentifierName 'x')))])))]))",
        broken: "(FunctionDeclaration '' '' (BindingIdentifier 'f') (FormalParameters [] _) (FunctionBody [] [(ExpressionStatement (StaticMemberExpression '' (Super) (IdentifierName 'x')))]))",
    },
    Row {
        clause: "13.3.7: a member of super in brackets",
        frame: "@",
        sound: "(ClassDeclaration (BindingIdentifier 'C') _ (ClassBody [(MethodDefinition 'method' '' '' (IdentifierName 'm') (FunctionExpression '' '' _ (FormalParameters [] _) (FunctionBody [] [(ExpressionStatement (ComputedMemberExpression '' (Super) (Identifier 'a')))])))]))",
        broken: "(FunctionDeclaration '' '' (BindingIdentifier 'f') (FormalParameters [] _) (FunctionBody [] [(ExpressionStatement (ComputedMemberExpression '' (Super) (Identifier 'a')))]))",
    },
    Row {
        clause: "13.3.7: a member of super in a getter, not at the root",
        frame: "@",
        sound: "(ClassDeclaration (BindingIdentifier 'C') _ (ClassBody [(MethodDefinition 'get' '' '' (IdentifierName 'm') (FunctionExpression '' '' _ (FormalParameters [] _) (FunctionBody [] [(ExpressionStatement (StaticMemberExpression '' (Super) (IdentifierName 'x')))])))]))",
        broken: "(ClassDeclaration (BindingIdentifier 'C') _ (ClassBody [(MethodDefinition 'get' '' '' (IdentifierName 'm') (FunctionExpression '' '' _ (FormalParameters [] _) (FunctionBody [] [])))])) (ExpressionStatement (StaticMemberExpression '' (Super) (IdentifierName 'x')))",
    },
    Row {
        clause: "13.3.7: a member of super in a static method, not in its key",
        frame: "@",
        sound: "(ClassDeclaration (BindingIdentifier 'C') _ (ClassBody [(MethodDefinition 'method' '' 'static' (IdentifierName 'm') (FunctionExpression '' '' _ (FormalParameters [] _) (FunctionBody [] [(ExpressionStatement (StaticMemberExpression '' (Super) (IdentifierName 'x')))])))]))",
        broken: "(ClassDeclaration (BindingIdentifier 'C') _ (ClassBody [(MethodDefinition 'method' 'computed' 'static' (StaticMemberExpression '' (Super) (IdentifierName 'x')) (FunctionExpression '' '' _ (FormalParameters [] _) (FunctionBody [] [])))]))",
    },
    Row {
        clause: "13.3.7: a member of super in the parameters of a method, not of a function",
        frame: "@",
        sound: "(ClassDeclaration (BindingIdentifier 'C') _ (ClassBody [(MethodDefinition 'method' '' '' (IdentifierName 'm') (FunctionExpression '' '' _ (FormalParameters [(FormalParameter (BindingIdentifier 'x') (StaticMemberExpression '' (Super) (IdentifierName 'x')))] _) (FunctionBody [] [])))]))",
        broken: "(FunctionDeclaration '' '' (BindingIdentifier 'f') (FormalParameters [(FormalParameter (BindingIdentifier 'x') (StaticMemberExpression '' (Super) (IdentifierName 'x')))] _) (FunctionBody [] []))",
    },
    Row {
        clause: "13.3.7: a member of super in an arrow of a method, not in a function there",
        frame: "(ClassDeclaration (BindingIdentifier 'C') _ (ClassBody [(MethodDefinition 'method' '' '' (IdentifierName 'm') (FunctionExpression '' '' _ (FormalParameters [] _) (FunctionBody [] [(ExpressionStatement (ParenthesizedExpression @))])))]))",
        sound: "(ArrowFunctionExpression '' (FormalParameters [] _) (StaticMemberExpression '' (Super) (IdentifierName 'x')))",
        broken: "(FunctionExpression '' '' _ (FormalParameters [] _) (FunctionBody [] [(ExpressionStatement (StaticMemberExpression '' (Super) (IdentifierName 'x')))]))",
    },
    Row {
        clause: "13.3.7: no member of super in a function that is declared in a method",
        frame: "(ClassDeclaration (BindingIdentifier 'C') _ (ClassBody [(MethodDefinition 'method' '' '' (IdentifierName 'm') (FunctionExpression '' '' _ (FormalParameters [] _) (FunctionBody [] [@])))]))",
        sound: "(BlockStatement [(ExpressionStatement (StaticMemberExpression '' (Super) (IdentifierName 'x')))])",
        broken: "(FunctionDeclaration '' '' (BindingIdentifier 'f') (FormalParameters [] _) (FunctionBody [] [(ExpressionStatement (StaticMemberExpression '' (Super) (IdentifierName 'x')))]))",
    },
    Row {
        clause: "13.3.7: a member of super in the key of a class in a method, not at the root",
        frame: "@",
        sound: "(ClassDeclaration (BindingIdentifier 'C') _ (ClassBody [(MethodDefinition 'method' '' '' (IdentifierName 'm') (FunctionExpression '' '' _ (FormalParameters [] _) (FunctionBody [] [(ClassDeclaration (BindingIdentifier 'C') _ (ClassBody [(PropertyDefinition 'computed' '' (StaticMemberExpression '' (Super) (IdentifierName 'x')) (Identifier 'b'))]))])))]))",
        broken: "(ClassDeclaration (BindingIdentifier 'C') _ (ClassBody [(PropertyDefinition 'computed' '' (StaticMemberExpression '' (Super) (IdentifierName 'x')) (Identifier 'b'))]))",
    },
    Row {
        clause: "13.3.7: a member of super in the key of a method of a class in a method",
        frame: "@",
        sound: "(ClassDeclaration (BindingIdentifier 'C') _ (ClassBody [(MethodDefinition 'method' '' '' (IdentifierName 'm') (FunctionExpression '' '' _ (FormalParameters [] _) (FunctionBody [] [(ClassDeclaration (BindingIdentifier 'C') _ (ClassBody [(MethodDefinition 'method' 'computed' '' (StaticMemberExpression '' (Super) (IdentifierName 'x')) (FunctionExpression '' '' _ (FormalParameters [] _) (FunctionBody [] [])))]))])))]))",
        broken: "(ClassDeclaration (BindingIdentifier 'C') _ (ClassBody [(MethodDefinition 'method' 'computed' '' (StaticMemberExpression '' (Super) (IdentifierName 'x')) (FunctionExpression '' '' _ (FormalParameters [] _) (FunctionBody [] [])))]))",
    },
    Row {
        clause: "13.2.5: a member of super in the method of an object, not in a value",
        frame: "(ExpressionStatement (ParenthesizedExpression (ObjectExpression [(ObjectProperty 'init' @ '' '' (IdentifierName 'm') (FunctionExpression '' '' _ (FormalParameters [] _) (FunctionBody [] [(ExpressionStatement (StaticMemberExpression '' (Super) (IdentifierName 'x')))])))])))",
        sound: "'method'",
        broken: "''",
    },
    Row {
        clause: "13.2.5: a member of super in a getter of an object, not in a value",
        frame: "(ExpressionStatement (ParenthesizedExpression (ObjectExpression [(ObjectProperty @ '' '' '' (IdentifierName 'm') (FunctionExpression '' '' _ (FormalParameters [] _) (FunctionBody [] [(ExpressionStatement (StaticMemberExpression '' (Super) (IdentifierName 'x')))])))])))",
        sound: "'get'",
        broken: "'init'",
    },
    Row {
        clause: "13.2.5: a member of super in a setter of an object, not in a value",
        frame: "(ExpressionStatement (ParenthesizedExpression (ObjectExpression [(ObjectProperty @ '' '' '' (IdentifierName 'm') (FunctionExpression '' '' _ (FormalParameters [(FormalParameter (BindingIdentifier 'x') _)] _) (FunctionBody [] [(ExpressionStatement (StaticMemberExpression '' (Super) (IdentifierName 'x')))])))])))",
        sound: "'set'",
        broken: "'init'",
    },
    Row {
        clause: "13.2.5: a member of super in a value of an object in a method, not at the root",
        frame: "@",
        sound: "(ClassDeclaration (BindingIdentifier 'C') _ (ClassBody [(MethodDefinition 'method' '' '' (IdentifierName 'm') (FunctionExpression '' '' _ (FormalParameters [] _) (FunctionBody [] [(ExpressionStatement (ParenthesizedExpression (ObjectExpression [(ObjectProperty 'init' '' '' '' (IdentifierName 'm') (StaticMemberExpression '' (Super) (IdentifierName 'x')))])))])))]))",
        broken: "(ExpressionStatement (ParenthesizedExpression (ObjectExpression [(ObjectProperty 'init' '' '' '' (IdentifierName 'm') (StaticMemberExpression '' (Super) (IdentifierName 'x')))])))",
    },
    Row {
        clause: "13.2.5: a member of super in a key of an object in a method, not at the root",
        frame: "@",
        sound: "(ClassDeclaration (BindingIdentifier 'C') _ (ClassBody [(MethodDefinition 'method' '' '' (IdentifierName 'm') (FunctionExpression '' '' _ (FormalParameters [] _) (FunctionBody [] [(ExpressionStatement (ParenthesizedExpression (ObjectExpression [(ObjectProperty 'init' '' '' 'computed' (StaticMemberExpression '' (Super) (IdentifierName 'x')) (Identifier 'b'))])))])))]))",
        broken: "(ExpressionStatement (ParenthesizedExpression (ObjectExpression [(ObjectProperty 'init' '' '' 'computed' (StaticMemberExpression '' (Super) (IdentifierName 'x')) (Identifier 'b'))])))",
    },
    Row {
        clause: "13.2.5: no member of super in the key of an object's method",
        frame: "(ExpressionStatement (ParenthesizedExpression (ObjectExpression [@])))",
        sound: "(ObjectProperty 'init' 'method' '' '' (IdentifierName 'm') (FunctionExpression '' '' _ (FormalParameters [] _) (FunctionBody [] [(ExpressionStatement (StaticMemberExpression '' (Super) (IdentifierName 'x')))])))",
        broken: "(ObjectProperty 'init' 'method' '' 'computed' (StaticMemberExpression '' (Super) (IdentifierName 'x')) (FunctionExpression '' '' _ (FormalParameters [] _) (FunctionBody [] [])))",
    },
    Row {
        clause: "15.7.1: a member of super in the value of a field, not in its key",
        frame: "(ClassDeclaration (BindingIdentifier 'C') _ (ClassBody [(PropertyDefinition 'computed' '' @)]))",
        sound: "(Identifier 'b') (StaticMemberExpression '' (Super) (IdentifierName 'x'))",
        broken: "(StaticMemberExpression '' (Super) (IdentifierName 'x')) (Identifier 'b')",
    },
    Row {
        clause: "15.7.1: a member of super in a static block, not in a heritage",
        frame: "@",
        sound: "(ClassDeclaration (BindingIdentifier 'C') _ (ClassBody [(StaticBlock [(ExpressionStatement (StaticMemberExpression '' (Super) (IdentifierName 'x')))])]))",
        broken: "(ClassDeclaration (BindingIdentifier 'C') (StaticMemberExpression '' (Super) (IdentifierName 'x')) (ClassBody []))",
    },
    Row {
        clause: "13.3.7: no member of super in a function that is the key of a method",
        frame: "(ClassDeclaration (BindingIdentifier 'C') _ (ClassBody [(MethodDefinition 'method' 'computed' '' @ (FunctionExpression '' '' _ (FormalParameters [] _) (FunctionBody [] [])))]))",
        sound: "(FunctionExpression '' '' _ (FormalParameters [] _) (FunctionBody [] [(ExpressionStatement (Identifier 'a'))]))",
        broken: "(FunctionExpression '' '' _ (FormalParameters [] _) (FunctionBody [] [(ExpressionStatement (StaticMemberExpression '' (Super) (IdentifierName 'x')))]))",
    },
    Row {
        clause: "13.2.5: no member of super in a function that is the key of an object's method",
        frame: "(ExpressionStatement (ParenthesizedExpression (ObjectExpression [(ObjectProperty 'init' 'method' '' 'computed' @ (FunctionExpression '' '' _ (FormalParameters [] _) (FunctionBody [] [])))])))",
        sound: "(FunctionExpression '' '' _ (FormalParameters [] _) (FunctionBody [] [(ExpressionStatement (Identifier 'a'))]))",
        broken: "(FunctionExpression '' '' _ (FormalParameters [] _) (FunctionBody [] [(ExpressionStatement (StaticMemberExpression '' (Super) (IdentifierName 'x')))]))",
    },
    Row {
        clause: "15.7.1: no member of super in a function that is the value of a field",
        frame: "(ClassDeclaration (BindingIdentifier 'C') _ (ClassBody [(PropertyDefinition '' '' (IdentifierName 'x') @)]))",
        sound: "(StaticMemberExpression '' (Super) (IdentifierName 'x'))",
        broken: "(FunctionExpression '' '' _ (FormalParameters [] _) (FunctionBody [] [(ExpressionStatement (StaticMemberExpression '' (Super) (IdentifierName 'x')))]))",
    },
];

/// Rule 3: where `super` is called. A tree that breaks it is not printable either.
pub static SUPER_CALL_ROWS: [Row; 14] = [
    Row {
        clause: "15.7.1: a call of super in the constructor of a class with a heritage",
        frame: "(ClassDeclaration (BindingIdentifier 'C') @ (ClassBody [(MethodDefinition 'constructor' '' '' (IdentifierName 'constructor') (FunctionExpression '' '' _ (FormalParameters [] _) (FunctionBody [] [(ExpressionStatement (CallExpression '' (Super) []))])))]))",
        sound: "(Identifier 'a')",
        broken: "_",
    },
    Row {
        clause: "15.7.1: a call of super in the constructor of a class expression with a heritage",
        frame: "(ExpressionStatement (ParenthesizedExpression (ClassExpression _ @ (ClassBody [(MethodDefinition 'constructor' '' '' (IdentifierName 'constructor') (FunctionExpression '' '' _ (FormalParameters [] _) (FunctionBody [] [(ExpressionStatement (CallExpression '' (Super) []))])))]))))",
        sound: "(Identifier 'a')",
        broken: "_",
    },
    Row {
        clause: "15.7.1: a call of super in the parameters of a constructor of a class with a heritage",
        frame: "(ClassDeclaration (BindingIdentifier 'C') @ (ClassBody [(MethodDefinition 'constructor' '' '' (IdentifierName 'constructor') (FunctionExpression '' '' _ (FormalParameters [(FormalParameter (BindingIdentifier 'x') (CallExpression '' (Super) []))] _) (FunctionBody [] [])))]))",
        sound: "(Identifier 'a')",
        broken: "_",
    },
    Row {
        clause: "15.7.1: a member of super in a constructor without a heritage, no call",
        frame: "(ClassDeclaration (BindingIdentifier 'C') _ (ClassBody [(MethodDefinition 'constructor' '' '' (IdentifierName 'constructor') (FunctionExpression '' '' _ (FormalParameters [] _) (FunctionBody [] [(ExpressionStatement @)])))]))",
        sound: "(StaticMemberExpression '' (Super) (IdentifierName 'x'))",
        broken: "(CallExpression '' (Super) [])",
    },
    Row {
        clause: "15.7.1: no call of super in a method",
        frame: "(ClassDeclaration (BindingIdentifier 'C') (Identifier 'a') (ClassBody [(MethodDefinition @ (FunctionExpression '' '' _ (FormalParameters [] _) (FunctionBody [] [(ExpressionStatement (CallExpression '' (Super) []))])))]))",
        sound: "'constructor' '' '' (IdentifierName 'constructor')",
        broken: "'method' '' '' (IdentifierName 'm')",
    },
    Row {
        clause: "15.7.1: no call of super in a getter",
        frame: "(ClassDeclaration (BindingIdentifier 'C') (Identifier 'a') (ClassBody [(MethodDefinition 'get' '' '' (IdentifierName 'm') (FunctionExpression '' '' _ (FormalParameters [] _) (FunctionBody [] [(ExpressionStatement @)])))]))",
        sound: "(StaticMemberExpression '' (Super) (IdentifierName 'x'))",
        broken: "(CallExpression '' (Super) [])",
    },
    Row {
        clause: "15.7.1: a call of super in an arrow of a constructor, not in a function there",
        frame: "(ClassDeclaration (BindingIdentifier 'C') (Identifier 'a') (ClassBody [(MethodDefinition 'constructor' '' '' (IdentifierName 'constructor') (FunctionExpression '' '' _ (FormalParameters [] _) (FunctionBody [] [(ExpressionStatement (ParenthesizedExpression @))])))]))",
        sound: "(ArrowFunctionExpression '' (FormalParameters [] _) (CallExpression '' (Super) []))",
        broken: "(FunctionExpression '' '' _ (FormalParameters [] _) (FunctionBody [] [(ExpressionStatement (CallExpression '' (Super) []))]))",
    },
    Row {
        clause: "15.7.1: no call of super in a function that is declared in a constructor",
        frame: "(ClassDeclaration (BindingIdentifier 'C') (Identifier 'a') (ClassBody [(MethodDefinition 'constructor' '' '' (IdentifierName 'constructor') (FunctionExpression '' '' _ (FormalParameters [] _) (FunctionBody [] [@])))]))",
        sound: "(BlockStatement [(ExpressionStatement (CallExpression '' (Super) []))])",
        broken: "(FunctionDeclaration '' '' (BindingIdentifier 'f') (FormalParameters [] _) (FunctionBody [] [(ExpressionStatement (CallExpression '' (Super) []))]))",
    },
    Row {
        clause: "15.7.1: no call of super in a field",
        frame: "(ClassDeclaration (BindingIdentifier 'C') (Identifier 'a') (ClassBody [(PropertyDefinition '' '' (IdentifierName 'x') @)]))",
        sound: "(StaticMemberExpression '' (Super) (IdentifierName 'x'))",
        broken: "(CallExpression '' (Super) [])",
    },
    Row {
        clause: "15.7.1: no call of super in a static block",
        frame: "(ClassDeclaration (BindingIdentifier 'C') (Identifier 'a') (ClassBody [(StaticBlock [(ExpressionStatement @)])]))",
        sound: "(StaticMemberExpression '' (Super) (IdentifierName 'x'))",
        broken: "(CallExpression '' (Super) [])",
    },
    Row {
        clause: "15.7.1: a call of super in the heritage of a class in a constructor, not in a field there",
        frame: "(ClassDeclaration (BindingIdentifier 'C') (Identifier 'a') (ClassBody [(MethodDefinition 'constructor' '' '' (IdentifierName 'constructor') (FunctionExpression '' '' _ (FormalParameters [] _) (FunctionBody [] [@])))]))",
        sound: "(ClassDeclaration (BindingIdentifier 'C') (CallExpression '' (Super) []) (ClassBody []))",
        broken: "(ClassDeclaration (BindingIdentifier 'C') (Identifier 'b') (ClassBody [(PropertyDefinition '' '' (IdentifierName 'x') (CallExpression '' (Super) []))]))",
    },
    Row {
        clause: "15.7.1: a constructor without a heritage inside one with a heritage",
        frame: "(ClassDeclaration (BindingIdentifier 'C') (Identifier 'a') (ClassBody [(MethodDefinition 'constructor' '' '' (IdentifierName 'constructor') (FunctionExpression '' '' _ (FormalParameters [] _) (FunctionBody [] [(ClassDeclaration (BindingIdentifier 'C') @ (ClassBody [(MethodDefinition 'constructor' '' '' (IdentifierName 'constructor') (FunctionExpression '' '' _ (FormalParameters [] _) (FunctionBody [] [(ExpressionStatement (CallExpression '' (Super) []))])))]))])))]))",
        sound: "(Identifier 'b')",
        broken: "_",
    },
    Row {
        clause: "13.2.5: no call of super in the method of an object",
        frame: "(ClassDeclaration (BindingIdentifier 'C') (Identifier 'a') (ClassBody [(MethodDefinition 'constructor' '' '' (IdentifierName 'constructor') (FunctionExpression '' '' _ (FormalParameters [] _) (FunctionBody [] [(ExpressionStatement (ParenthesizedExpression (ObjectExpression [(ObjectProperty 'init' 'method' '' '' (IdentifierName 'm') (FunctionExpression '' '' _ (FormalParameters [] _) (FunctionBody [] [(ExpressionStatement @)])))])))])))]))",
        sound: "(StaticMemberExpression '' (Super) (IdentifierName 'x'))",
        broken: "(CallExpression '' (Super) [])",
    },
    Row {
        clause: "13.3.7: no call of super at the root",
        frame: "@",
        sound: "(ClassDeclaration (BindingIdentifier 'C') (Identifier 'a') (ClassBody [(MethodDefinition 'constructor' '' '' (IdentifierName 'constructor') (FunctionExpression '' '' _ (FormalParameters [] _) (FunctionBody [] [(ExpressionStatement (CallExpression '' (Super) []))])))]))",
        broken: "(ExpressionStatement (CallExpression '' (Super) []))",
    },
];
