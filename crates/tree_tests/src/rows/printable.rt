//! Sentences on printable trees, and the texts of each kind.

use crate::rows::Row;

/// Sentences on statements and templates. A tree that breaks one has no text.
pub static STATEMENT_ROWS: [Row; 15] = [
    Row {
        clause: "14.6: the statement before an else does not end in an if without",
        frame: "(IfStatement (Identifier 'a') (IfStatement (Identifier 'a') (EmptyStatement) @) (EmptyStatement))",
        sound: "(EmptyStatement)",
        broken: "_",
    },
    Row {
        clause: "14.6: nor behind a label",
        frame: "(IfStatement (Identifier 'a') (LabeledStatement (LabelIdentifier 'a') @) (EmptyStatement))",
        sound: "(BlockStatement [(IfStatement (Identifier 'a') (EmptyStatement) _)])",
        broken: "(IfStatement (Identifier 'a') (EmptyStatement) _)",
    },
    Row {
        clause: "14.6: nor behind a while loop",
        frame: "(IfStatement (Identifier 'a') (WhileStatement (Identifier 'a') @) (EmptyStatement))",
        sound: "(BlockStatement [(IfStatement (Identifier 'a') (EmptyStatement) _)])",
        broken: "(IfStatement (Identifier 'a') (EmptyStatement) _)",
    },
    Row {
        clause: "14.6: nor behind a for loop",
        frame: "(IfStatement (Identifier 'a') (ForStatement _ _ _ @) (EmptyStatement))",
        sound: "(BlockStatement [(IfStatement (Identifier 'a') (EmptyStatement) _)])",
        broken: "(IfStatement (Identifier 'a') (EmptyStatement) _)",
    },
    Row {
        clause: "14.6: nor behind a for in loop",
        frame: "(IfStatement (Identifier 'a') (ForInStatement (Identifier 'a') (Identifier 'b') @) (EmptyStatement))",
        sound: "(BlockStatement [(IfStatement (Identifier 'a') (EmptyStatement) _)])",
        broken: "(IfStatement (Identifier 'a') (EmptyStatement) _)",
    },
    Row {
        clause: "14.6: nor behind a for of loop",
        frame: "(IfStatement (Identifier 'a') (ForOfStatement '' (Identifier 'a') (Identifier 'b') @) (EmptyStatement))",
        sound: "(BlockStatement [(IfStatement (Identifier 'a') (EmptyStatement) _)])",
        broken: "(IfStatement (Identifier 'a') (EmptyStatement) _)",
    },
    Row {
        clause: "14.6: nor behind an else",
        frame: "(IfStatement (Identifier 'a') (IfStatement (Identifier 'a') (EmptyStatement) @) (EmptyStatement))",
        sound: "(BlockStatement [(IfStatement (Identifier 'a') (EmptyStatement) _)])",
        broken: "(IfStatement (Identifier 'a') (EmptyStatement) _)",
    },
    Row {
        clause: "14.6: a do loop ends behind its statement",
        frame: "(IfStatement (Identifier 'a') @ (EmptyStatement))",
        sound: "(DoWhileStatement (IfStatement (Identifier 'a') (EmptyStatement) _) (Identifier 'b'))",
        broken: "(WhileStatement (Identifier 'a') (IfStatement (Identifier 'a') (EmptyStatement) _))",
    },
    Row {
        clause: "14.7.5: for of has no target async, for await may",
        frame: "(ForOfStatement @ (Identifier 'async') (Identifier 'a') (EmptyStatement))",
        sound: "'await'",
        broken: "''",
    },
    Row {
        clause: "14.7.5: a member of async may be a target",
        frame: "(ForOfStatement '' @ (Identifier 'b') (EmptyStatement))",
        sound: "(StaticMemberExpression '' (Identifier 'async') (IdentifierName 'a'))",
        broken: "(Identifier 'async')",
    },
    Row {
        clause: "14.15: try has a handler",
        frame: "(TryStatement (BlockStatement []) @ _)",
        sound: "(CatchClause _ (BlockStatement []))",
        broken: "_",
    },
    Row {
        clause: "14.15: or a finalizer",
        frame: "(TryStatement (BlockStatement []) _ @)",
        sound: "(BlockStatement [])",
        broken: "_",
    },
    Row {
        clause: "14.12: a switch has one default at most",
        frame: "(SwitchStatement (Identifier 'a') [(SwitchCase _ []) (SwitchCase @ [])])",
        sound: "(Identifier 'b')",
        broken: "_",
    },
    Row {
        clause: "13.2.8: a template has one text more than expressions",
        frame: "(ExpressionStatement (TemplateLiteral [(TemplateElement '') @] [(Identifier 'a')]))",
        sound: "(TemplateElement 'x')",
        broken: "",
    },
    Row {
        clause: "13.2.8: and no more",
        frame: "(ExpressionStatement (TemplateLiteral [(TemplateElement '') @] []))",
        sound: "",
        broken: "(TemplateElement 'x')",
    },
];

/// Sentences on imports, methods, shorthand, chains and heads.
pub static CLAUSE_ROWS: [Row; 24] = [
    Row {
        clause: "16.2.2: a default import is the first",
        frame: "(ImportDeclaration [@] (StringLiteral 'm'))",
        sound: "(ImportDefaultSpecifier (BindingIdentifier 'd')) (ImportSpecifier (IdentifierName 'a') (BindingIdentifier 'a'))",
        broken: "(ImportSpecifier (IdentifierName 'a') (BindingIdentifier 'a')) (ImportDefaultSpecifier (BindingIdentifier 'd'))",
    },
    Row {
        clause: "16.2.2: there is one",
        frame: "(ImportDeclaration [(ImportDefaultSpecifier (BindingIdentifier 'd')) @] (StringLiteral 'm'))",
        sound: "(ImportSpecifier (IdentifierName 'a') (BindingIdentifier 'a'))",
        broken: "(ImportDefaultSpecifier (BindingIdentifier 'e'))",
    },
    Row {
        clause: "16.2.2: a namespace is behind at most a default import",
        frame: "(ImportDeclaration [@] (StringLiteral 'm'))",
        sound: "(ImportDefaultSpecifier (BindingIdentifier 'd')) (ImportNamespaceSpecifier (BindingIdentifier 'n'))",
        broken: "(ImportSpecifier (IdentifierName 'a') (BindingIdentifier 'a')) (ImportNamespaceSpecifier (BindingIdentifier 'n'))",
    },
    Row {
        clause: "16.2.2: a namespace is the last",
        frame: "(ImportDeclaration [@] (StringLiteral 'm'))",
        sound: "(ImportDefaultSpecifier (BindingIdentifier 'd')) (ImportNamespaceSpecifier (BindingIdentifier 'n'))",
        broken: "(ImportNamespaceSpecifier (BindingIdentifier 'n')) (ImportDefaultSpecifier (BindingIdentifier 'd'))",
    },
    Row {
        clause: "16.2.3: an exported function has a name",
        frame: "(ExportDeclaration (FunctionDeclaration '' '' @ (FormalParameters [] _) (FunctionBody [] [])))",
        sound: "(BindingIdentifier 'f')",
        broken: "_",
    },
    Row {
        clause: "16.2.3: but not a default one",
        frame: "@",
        sound: "(ExportDefaultDeclaration (FunctionDeclaration '' '' _ (FormalParameters [] _) (FunctionBody [] [])))",
        broken: "(ExportDeclaration (FunctionDeclaration '' '' _ (FormalParameters [] _) (FunctionBody [] [])))",
    },
    Row {
        clause: "15.7.1: a method of the name constructor is one",
        frame: "(ClassDeclaration (BindingIdentifier 'C') _ (ClassBody [(MethodDefinition @ '' '' (IdentifierName 'constructor') (FunctionExpression '' '' _ (FormalParameters [] _) (FunctionBody [] [])))]))",
        sound: "'constructor'",
        broken: "'method'",
    },
    Row {
        clause: "15.7.1: so is one of the string",
        frame: "(ClassDeclaration (BindingIdentifier 'C') _ (ClassBody [(MethodDefinition @ '' '' (StringLiteral 'constructor') (FunctionExpression '' '' _ (FormalParameters [] _) (FunctionBody [] [])))]))",
        sound: "'constructor'",
        broken: "'method'",
    },
    Row {
        clause: "15.7.1: no method of another name is one",
        frame: "(ClassDeclaration (BindingIdentifier 'C') _ (ClassBody [(MethodDefinition @ '' '' (IdentifierName 'm') (FunctionExpression '' '' _ (FormalParameters [] _) (FunctionBody [] [])))]))",
        sound: "'method'",
        broken: "'constructor'",
    },
    Row {
        clause: "15.7.1: no static method is one",
        frame: "(ClassDeclaration (BindingIdentifier 'C') _ (ClassBody [(MethodDefinition @ '' 'static' (IdentifierName 'constructor') (FunctionExpression '' '' _ (FormalParameters [] _) (FunctionBody [] [])))]))",
        sound: "'method'",
        broken: "'constructor'",
    },
    Row {
        clause: "15.7.1: no method with a key in brackets is one",
        frame: "(ClassDeclaration (BindingIdentifier 'C') _ (ClassBody [(MethodDefinition @ 'computed' '' (StringLiteral 'constructor') (FunctionExpression '' '' _ (FormalParameters [] _) (FunctionBody [] [])))]))",
        sound: "'method'",
        broken: "'constructor'",
    },
    Row {
        clause: "15.7.1: a constructor is no generator",
        frame: "(ClassDeclaration (BindingIdentifier 'C') _ (ClassBody [(MethodDefinition 'constructor' '' '' (IdentifierName 'constructor') (FunctionExpression '' @ _ (FormalParameters [] _) (FunctionBody [] [])))]))",
        sound: "''",
        broken: "'*'",
    },
    Row {
        clause: "15.4: a getter is not async",
        frame: "(ClassDeclaration (BindingIdentifier 'C') _ (ClassBody [(MethodDefinition 'get' '' '' (IdentifierName 'm') (FunctionExpression @ '' _ (FormalParameters [] _) (FunctionBody [] [])))]))",
        sound: "''",
        broken: "'async'",
    },
    Row {
        clause: "13.2.5: a getter of an object is no method besides",
        frame: "(ExpressionStatement (ParenthesizedExpression (ObjectExpression [(ObjectProperty 'get' @ '' '' (IdentifierName 'm') (FunctionExpression '' '' _ (FormalParameters [] _) (FunctionBody [] [])))])))",
        sound: "''",
        broken: "'method'",
    },
    Row {
        clause: "13.2.5: a mark of shorthand stands at one name",
        frame: "(ExpressionStatement (ParenthesizedExpression (ObjectExpression [(ObjectProperty 'init' '' 'shorthand' '' (IdentifierName 'a') @)])))",
        sound: "(Identifier 'a')",
        broken: "(Identifier 'b')",
    },
    Row {
        clause: "14.3.3: so it does in a pattern, behind a default too",
        frame: "(VariableDeclaration 'let' [(VariableDeclarator (ObjectPattern [(BindingProperty '' 'shorthand' @ (AssignmentPattern (BindingIdentifier 'a') (Identifier 'b')))] _) (Identifier 'b'))])",
        sound: "(IdentifierName 'a')",
        broken: "(IdentifierName 'b')",
    },
    Row {
        clause: "13.15.5: so it does in a target",
        frame: "(ExpressionStatement (ParenthesizedExpression (AssignmentExpression '=' (ObjectAssignmentTarget [(AssignmentTargetProperty '' 'shorthand' (IdentifierName 'a') @)] _) (Identifier 'b'))))",
        sound: "(Identifier 'a')",
        broken: "(ArrayAssignmentTarget [(Identifier 'a')] _)",
    },
    Row {
        clause: "13.3: an optional link stands in a chain",
        frame: "(ExpressionStatement @)",
        sound: "(ChainExpression (StaticMemberExpression '?.' (Identifier 'a') (IdentifierName 'x')))",
        broken: "(StaticMemberExpression '?.' (Identifier 'a') (IdentifierName 'x'))",
    },
    Row {
        clause: "13.3: a chain has an optional link",
        frame: "(ExpressionStatement (ChainExpression @))",
        sound: "(StaticMemberExpression '?.' (Identifier 'a') (IdentifierName 'x'))",
        broken: "(StaticMemberExpression '' (Identifier 'a') (IdentifierName 'x'))",
    },
    Row {
        clause: "13.3: the link of a chain is one of its calls and members",
        frame: "(ExpressionStatement (ChainExpression (CallExpression '' (StaticMemberExpression '?.' (Identifier 'a') (IdentifierName 'x')) [@])))",
        sound: "(ChainExpression (StaticMemberExpression '?.' (Identifier 'a') (IdentifierName 'x')))",
        broken: "(StaticMemberExpression '?.' (Identifier 'a') (IdentifierName 'x'))",
    },
    Row {
        clause: "13.3: a link in parentheses is none of the chain outside",
        frame: "(ExpressionStatement @)",
        sound: "(StaticMemberExpression '' (ParenthesizedExpression (ChainExpression (StaticMemberExpression '?.' (Identifier 'a') (IdentifierName 'x')))) (IdentifierName 'y'))",
        broken: "(ChainExpression (StaticMemberExpression '' (ParenthesizedExpression (StaticMemberExpression '?.' (Identifier 'a') (IdentifierName 'x'))) (IdentifierName 'y')))",
    },
    Row {
        clause: "13.15.1: a pattern is assigned by = alone",
        frame: "(ExpressionStatement (AssignmentExpression @ (ArrayAssignmentTarget [(Identifier 'a')] _) (Identifier 'b')))",
        sound: "'='",
        broken: "'+='",
    },
    Row {
        clause: "14.7.5: a declaration in a head has no initializer",
        frame: "(ForOfStatement 'await' (VariableDeclaration 'const' [(VariableDeclarator (BindingIdentifier 'a') @)]) (Identifier 'b') (EmptyStatement))",
        sound: "_",
        broken: "(Identifier 'b')",
    },
    Row {
        clause: "14.7.5: a declaration in a head has one declarator",
        frame: "(ForInStatement (VariableDeclaration 'var' [(VariableDeclarator (BindingIdentifier 'a') _) @]) (Identifier 'b') (EmptyStatement))",
        sound: "",
        broken: "(VariableDeclarator (BindingIdentifier 'b') _)",
    },
];

/// What stands at a place. A tree with another part is not printable.
pub static PLACE_ROWS: [Row; 10] = [
    Row {
        clause: "13.16: a sequence has two expressions",
        frame: "(ExpressionStatement (SequenceExpression [(Identifier 'a') @]))",
        sound: "(Identifier 'b')",
        broken: "",
    },
    Row {
        clause: "13.3.8: an argument may be spread, an expression may not",
        frame: "@",
        sound: "(ExpressionStatement (CallExpression '' (Identifier 'a') [(SpreadElement (Identifier 'b'))]))",
        broken: "(ExpressionStatement (SequenceExpression [(Identifier 'a') (SpreadElement (Identifier 'b'))]))",
    },
    Row {
        clause: "13.2.4: an array has gaps, arguments have none",
        frame: "@",
        sound: "(ExpressionStatement (ArrayExpression [_]))",
        broken: "(ExpressionStatement (NewExpression (Identifier 'a') [_]))",
    },
    Row {
        clause: "13.14: a conditional has three parts",
        frame: "(ExpressionStatement (ConditionalExpression @))",
        sound: "(Identifier 'a') (Identifier 'b') (ThisExpression)",
        broken: "(Identifier 'a') (Identifier 'b')",
    },
    Row {
        clause: "13.3.10: an import has an argument",
        frame: "(ExpressionStatement (ImportExpression @ _))",
        sound: "(StringLiteral 'm')",
        broken: "_",
    },
    Row {
        clause: "13.3.7: super is no expression",
        frame: "(ExpressionStatement @)",
        sound: "(ImportMeta)",
        broken: "(Super)",
    },
    Row {
        clause: "13.2.3: null has no text",
        frame: "(ExpressionStatement (NullLiteral @))",
        sound: "",
        broken: "'null'",
    },
    Row {
        clause: "14.14: throw has an argument",
        frame: "(ThrowStatement @)",
        sound: "(Identifier 'a')",
        broken: "_",
    },
    Row {
        clause: "14.16: debugger has no part",
        frame: "(DebuggerStatement @)",
        sound: "",
        broken: "(Identifier 'a')",
    },
    Row {
        clause: "13.2.5: a property may be spread, an expression is none",
        frame: "(ExpressionStatement (ParenthesizedExpression (ObjectExpression [@])))",
        sound: "(SpreadElement (Identifier 'a'))",
        broken: "(Identifier 'a')",
    },
];

/// The texts of each kind. A tree with another text is not printable.
pub static TEXT_ROWS: [Row; 26] = [
    Row {
        clause: "11.2.1: a directive is a string with its quotes",
        frame: "(ExpressionStatement (ParenthesizedExpression (FunctionExpression '' '' _ (FormalParameters [] _) (FunctionBody [(Directive @)] []))))",
        sound: "'\"use strict\"'",
        broken: "'use strict'",
    },
    Row {
        clause: "12.7: a key may be reserved, and is a name",
        frame: "(ExpressionStatement (StaticMemberExpression '' (Identifier 'a') (IdentifierName @)))",
        sound: "'if'",
        broken: "'1'",
    },
    Row {
        clause: "12.7.2: a reference is not reserved",
        frame: "(ExpressionStatement (Identifier @))",
        sound: "'as'",
        broken: "'if'",
    },
    Row {
        clause: "13.1: await is reserved in a module",
        frame: "(ExpressionStatement (Identifier @))",
        sound: "'async'",
        broken: "'await'",
    },
    Row {
        clause: "12.7.2: a binding is not reserved",
        frame: "(VariableDeclaration 'var' [(VariableDeclarator (BindingIdentifier @) _)])",
        sound: "'of'",
        broken: "'let'",
    },
    Row {
        clause: "12.7.2: a label is not reserved",
        frame: "(LabeledStatement (LabelIdentifier @) (EmptyStatement))",
        sound: "'a'",
        broken: "'yield'",
    },
    Row {
        clause: "15.7: a private name may be reserved, and is a name",
        frame: "(ClassDeclaration (BindingIdentifier 'C') _ (ClassBody [(PropertyDefinition '' '' (PrivateIdentifier @) _)]))",
        sound: "'if'",
        broken: "'1a'",
    },
    Row {
        clause: "12.9.3: a number has no zero in front",
        frame: "(ExpressionStatement (NumericLiteral @))",
        sound: "'0.5e-7'",
        broken: "'08'",
    },
    Row {
        clause: "12.9.3: a separator stands between digits",
        frame: "(ExpressionStatement (NumericLiteral @))",
        sound: "'1_0'",
        broken: "'1_'",
    },
    Row {
        clause: "12.9.3: a bigint ends in n",
        frame: "(ExpressionStatement (BigIntLiteral @))",
        sound: "'0x1Fn'",
        broken: "'0x1F'",
    },
    Row {
        clause: "12.9.2: a boolean is true or false",
        frame: "(ExpressionStatement (BooleanLiteral @))",
        sound: "'true'",
        broken: "'yes'",
    },
    Row {
        clause: "12.9.5: the class of a pattern is closed",
        frame: "(ExpressionStatement (RegExpLiteral @ 'g'))",
        sound: "'[/]'",
        broken: "'[/'",
    },
    Row {
        clause: "22.2.3.4: not both u and v",
        frame: "(ExpressionStatement (RegExpLiteral 'a' @))",
        sound: "'gv'",
        broken: "'uv'",
    },
    Row {
        clause: "12.9.6: a template's text has no backtick",
        frame: "(ExpressionStatement (TemplateLiteral [(TemplateElement @)] []))",
        sound: "'x'",
        broken: "'`'",
    },
    Row {
        clause: "12.9.6: an escape is one without a tag",
        frame: "(ExpressionStatement (TemplateLiteral [(TemplateElement @)] []))",
        sound: "'\\u{41}'",
        broken: "'\\u{}'",
    },
    Row {
        clause: "13.2.8: behind a tag it need not be",
        frame: "(ExpressionStatement @)",
        sound: "(TaggedTemplateExpression (Identifier 'a') (TemplateLiteral [(TemplateElement '\\u{}')] []))",
        broken: "(TemplateLiteral [(TemplateElement '\\u{}')] [])",
    },
    Row {
        clause: "13.15: an assignment has its operator",
        frame: "(ExpressionStatement (AssignmentExpression @ (Identifier 'a') (Identifier 'b')))",
        sound: "'>>>='",
        broken: "'??'",
    },
    Row {
        clause: "13.13: a logical expression has its operator",
        frame: "(ExpressionStatement (LogicalExpression @ (Identifier 'a') (Identifier 'b')))",
        sound: "'??'",
        broken: "'=='",
    },
    Row {
        clause: "13.10: a binary expression has its operator",
        frame: "(ExpressionStatement (BinaryExpression @ (Identifier 'a') (Identifier 'b')))",
        sound: "'instanceof'",
        broken: "'=>'",
    },
    Row {
        clause: "13.5: a unary expression has its operator",
        frame: "(ExpressionStatement (UnaryExpression @ (Identifier 'a')))",
        sound: "'typeof'",
        broken: "'++'",
    },
    Row {
        clause: "13.4: an update has its operator",
        frame: "(ExpressionStatement (UpdateExpression @ '' (Identifier 'a')))",
        sound: "'--'",
        broken: "'-'",
    },
    Row {
        clause: "13.4: an update stands in front or behind",
        frame: "(ExpressionStatement (UpdateExpression '++' @ (Identifier 'a')))",
        sound: "'prefix'",
        broken: "'static'",
    },
    Row {
        clause: "14.3: a declaration has its word",
        frame: "(VariableDeclaration @ [(VariableDeclarator (BindingIdentifier 'a') (Identifier 'b'))])",
        sound: "'let'",
        broken: "'val'",
    },
    Row {
        clause: "15.8: a flag is its word",
        frame: "(FunctionDeclaration @ '' (BindingIdentifier 'f') (FormalParameters [] _) (FunctionBody [] []))",
        sound: "'async'",
        broken: "'await'",
    },
    Row {
        clause: "13.2.5: a property has four texts",
        frame: "(ExpressionStatement (ParenthesizedExpression (ObjectExpression [(ObjectProperty 'init' '' '' @ (IdentifierName 'x') (Identifier 'a'))])))",
        sound: "''",
        broken: "",
    },
    Row {
        clause: "14.1: an empty statement has no text",
        frame: "(EmptyStatement @)",
        sound: "",
        broken: "''",
    },
];
