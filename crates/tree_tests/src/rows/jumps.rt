//! Jumps and labels.

use crate::rows::Row;

/// Rule 4: `break` and `continue` in loops and switches.
pub static JUMP_ROWS: [Row; 14] = [
    Row {
        clause: "14.9.1: break in a do loop, not in an if",
        frame: "@",
        sound: "(DoWhileStatement (BreakStatement _) (Identifier 'a'))",
        broken: "(IfStatement (Identifier 'a') (BreakStatement _) _)",
    },
    Row {
        clause: "14.8.1: continue in a do loop, not in an if",
        frame: "@",
        sound: "(DoWhileStatement (ContinueStatement _) (Identifier 'a'))",
        broken: "(IfStatement (Identifier 'a') (ContinueStatement _) _)",
    },
    Row {
        clause: "14.9.1: break in a while loop, not in an if",
        frame: "@",
        sound: "(WhileStatement (Identifier 'a') (BreakStatement _))",
        broken: "(IfStatement (Identifier 'a') (BreakStatement _) _)",
    },
    Row {
        clause: "14.8.1: continue in a while loop, not in an if",
        frame: "@",
        sound: "(WhileStatement (Identifier 'a') (ContinueStatement _))",
        broken: "(IfStatement (Identifier 'a') (ContinueStatement _) _)",
    },
    Row {
        clause: "14.9.1: break in a for loop, not in an if",
        frame: "@",
        sound: "(ForStatement _ _ _ (BreakStatement _))",
        broken: "(IfStatement (Identifier 'a') (BreakStatement _) _)",
    },
    Row {
        clause: "14.8.1: continue in a for loop, not in an if",
        frame: "@",
        sound: "(ForStatement _ _ _ (ContinueStatement _))",
        broken: "(IfStatement (Identifier 'a') (ContinueStatement _) _)",
    },
    Row {
        clause: "14.9.1: break in a for in loop, not in an if",
        frame: "@",
        sound: "(ForInStatement (Identifier 'a') (Identifier 'b') (BreakStatement _))",
        broken: "(IfStatement (Identifier 'a') (BreakStatement _) _)",
    },
    Row {
        clause: "14.8.1: continue in a for in loop, not in an if",
        frame: "@",
        sound: "(ForInStatement (Identifier 'a') (Identifier 'b') (ContinueStatement _))",
        broken: "(IfStatement (Identifier 'a') (ContinueStatement _) _)",
    },
    Row {
        clause: "14.9.1: break in a for of loop, not in an if",
        frame: "@",
        sound: "(ForOfStatement '' (Identifier 'a') (Identifier 'b') (BreakStatement _))",
        broken: "(IfStatement (Identifier 'a') (BreakStatement _) _)",
    },
    Row {
        clause: "14.8.1: continue in a for of loop, not in an if",
        frame: "@",
        sound: "(ForOfStatement '' (Identifier 'a') (Identifier 'b') (ContinueStatement _))",
        broken: "(IfStatement (Identifier 'a') (ContinueStatement _) _)",
    },
    Row {
        clause: "14.9.1: break in a switch, not in a block",
        frame: "@",
        sound: "(SwitchStatement (Identifier 'a') [(SwitchCase (Identifier 'b') [(BreakStatement _)])])",
        broken: "(BlockStatement [(BreakStatement _)])",
    },
    Row {
        clause: "14.9.1: break in a default case",
        frame: "@",
        sound: "(SwitchStatement (Identifier 'a') [(SwitchCase _ [(BreakStatement _)])])",
        broken: "(SwitchStatement (Identifier 'a') [(SwitchCase _ [])]) (BreakStatement _)",
    },
    Row {
        clause: "14.8.1: continue in a switch in a loop, not in a switch alone",
        frame: "@",
        sound: "(WhileStatement (Identifier 'a') (SwitchStatement (Identifier 'a') [(SwitchCase (Identifier 'b') [(ContinueStatement _)])]))",
        broken: "(SwitchStatement (Identifier 'a') [(SwitchCase (Identifier 'b') [(ContinueStatement _)])])",
    },
    Row {
        clause: "14.9.1: break in a block of a loop",
        frame: "@",
        sound: "(WhileStatement (Identifier 'a') (BlockStatement [(BreakStatement _)]))",
        broken: "(WhileStatement (Identifier 'a') (BlockStatement [])) (BreakStatement _)",
    },
];

/// Rule 4: labels, and the jumps that name them.
pub static LABEL_ROWS: [Row; 16] = [
    Row {
        clause: "14.9.1: break names a label round it",
        frame: "(LabeledStatement (LabelIdentifier 'a') (BlockStatement [(BreakStatement @)]))",
        sound: "(LabelIdentifier 'a')",
        broken: "(LabelIdentifier 'b')",
    },
    Row {
        clause: "14.9.1: break names the label of its own statement",
        frame: "@",
        sound: "(LabeledStatement (LabelIdentifier 'a') (BreakStatement (LabelIdentifier 'a')))",
        broken: "(BreakStatement (LabelIdentifier 'a'))",
    },
    Row {
        clause: "14.9.1: break names an outer label",
        frame: "(LabeledStatement (LabelIdentifier 'a') (LabeledStatement (LabelIdentifier 'b') (BlockStatement [(BreakStatement @)])))",
        sound: "(LabelIdentifier 'a')",
        broken: "(LabelIdentifier 'c')",
    },
    Row {
        clause: "14.9.1: a label is not round what follows its statement",
        frame: "@",
        sound: "(LabeledStatement (LabelIdentifier 'a') (BlockStatement [(BreakStatement (LabelIdentifier 'a'))]))",
        broken: "(LabeledStatement (LabelIdentifier 'a') (BlockStatement [])) (BreakStatement (LabelIdentifier 'a'))",
    },
    Row {
        clause: "14.9.1: break in a loop names no label but one round it",
        frame: "(LabeledStatement (LabelIdentifier 'a') (WhileStatement (Identifier 'a') (BreakStatement @)))",
        sound: "_",
        broken: "(LabelIdentifier 'b')",
    },
    Row {
        clause: "14.8.1: continue names the label of a do loop, not of a block",
        frame: "(LabeledStatement (LabelIdentifier 'a') @)",
        sound: "(DoWhileStatement (ContinueStatement (LabelIdentifier 'a')) (Identifier 'a'))",
        broken: "(BlockStatement [(DoWhileStatement (ContinueStatement (LabelIdentifier 'a')) (Identifier 'a'))])",
    },
    Row {
        clause: "14.8.1: continue names the label of a while loop, not of a block",
        frame: "(LabeledStatement (LabelIdentifier 'a') @)",
        sound: "(WhileStatement (Identifier 'a') (ContinueStatement (LabelIdentifier 'a')))",
        broken: "(BlockStatement [(WhileStatement (Identifier 'a') (ContinueStatement (LabelIdentifier 'a')))])",
    },
    Row {
        clause: "14.8.1: continue names the label of a for loop, not of a block",
        frame: "(LabeledStatement (LabelIdentifier 'a') @)",
        sound: "(ForStatement _ _ _ (ContinueStatement (LabelIdentifier 'a')))",
        broken: "(BlockStatement [(ForStatement _ _ _ (ContinueStatement (LabelIdentifier 'a')))])",
    },
    Row {
        clause: "14.8.1: continue names the label of a for in loop, not of a block",
        frame: "(LabeledStatement (LabelIdentifier 'a') @)",
        sound: "(ForInStatement (Identifier 'a') (Identifier 'b') (ContinueStatement (LabelIdentifier 'a')))",
        broken: "(BlockStatement [(ForInStatement (Identifier 'a') (Identifier 'b') (ContinueStatement (LabelIdentifier 'a')))])",
    },
    Row {
        clause: "14.8.1: continue names the label of a for of loop, not of a block",
        frame: "(LabeledStatement (LabelIdentifier 'a') @)",
        sound: "(ForOfStatement '' (Identifier 'a') (Identifier 'b') (ContinueStatement (LabelIdentifier 'a')))",
        broken: "(BlockStatement [(ForOfStatement '' (Identifier 'a') (Identifier 'b') (ContinueStatement (LabelIdentifier 'a')))])",
    },
    Row {
        clause: "14.8.1: continue names the outer label of a loop of two",
        frame: "@",
        sound: "(LabeledStatement (LabelIdentifier 'a') (LabeledStatement (LabelIdentifier 'b') (WhileStatement (Identifier 'a') (ContinueStatement (LabelIdentifier 'a')))))",
        broken: "(LabeledStatement (LabelIdentifier 'a') (LabeledStatement (LabelIdentifier 'b') (BlockStatement [(WhileStatement (Identifier 'a') (ContinueStatement (LabelIdentifier 'a')))])))",
    },
    Row {
        clause: "14.8.1: continue names the label of an outer loop",
        frame: "(LabeledStatement (LabelIdentifier 'a') @)",
        sound: "(WhileStatement (Identifier 'a') (WhileStatement (Identifier 'a') (ContinueStatement (LabelIdentifier 'a'))))",
        broken: "(IfStatement (Identifier 'a') (WhileStatement (Identifier 'a') (ContinueStatement (LabelIdentifier 'a'))) _)",
    },
    Row {
        clause: "14.8.1: break names the label of a block, continue does not",
        frame: "(LabeledStatement (LabelIdentifier 'a') (BlockStatement [(WhileStatement (Identifier 'a') @)]))",
        sound: "(BreakStatement (LabelIdentifier 'a'))",
        broken: "(ContinueStatement (LabelIdentifier 'a'))",
    },
    Row {
        clause: "14.13.1: nested labels differ",
        frame: "(LabeledStatement (LabelIdentifier 'a') (LabeledStatement (LabelIdentifier @) (EmptyStatement)))",
        sound: "'b'",
        broken: "'a'",
    },
    Row {
        clause: "14.13.1: labels differ through blocks",
        frame: "(LabeledStatement (LabelIdentifier 'a') (BlockStatement [(WhileStatement (Identifier 'a') (LabeledStatement (LabelIdentifier @) (EmptyStatement)))]))",
        sound: "'b'",
        broken: "'a'",
    },
    Row {
        clause: "14.13.1: labels beside one another may be the same",
        frame: "@",
        sound: "(LabeledStatement (LabelIdentifier 'a') (EmptyStatement)) (LabeledStatement (LabelIdentifier 'a') (EmptyStatement))",
        broken: "(LabeledStatement (LabelIdentifier 'a') (LabeledStatement (LabelIdentifier 'a') (EmptyStatement)))",
    },
];

/// Rule 4: jumps and labels in functions and static blocks.
pub static FUNCTION_JUMP_ROWS: [Row; 16] = [
    Row {
        clause: "14.9.1: no label round a function is named in it",
        frame: "(LabeledStatement (LabelIdentifier 'a') (BlockStatement [@]))",
        sound: "(BlockStatement [(BreakStatement (LabelIdentifier 'a'))])",
        broken: "(FunctionDeclaration '' '' (BindingIdentifier 'f') (FormalParameters [] _) (FunctionBody [] [(BreakStatement (LabelIdentifier 'a'))]))",
    },
    Row {
        clause: "14.9.1: no break in a function for a loop round it",
        frame: "(WhileStatement (Identifier 'a') (BlockStatement [@]))",
        sound: "(BlockStatement [(BreakStatement _)])",
        broken: "(FunctionDeclaration '' '' (BindingIdentifier 'f') (FormalParameters [] _) (FunctionBody [] [(BreakStatement _)]))",
    },
    Row {
        clause: "14.8.1: no continue in a function for a loop round it",
        frame: "(WhileStatement (Identifier 'a') (BlockStatement [@]))",
        sound: "(BlockStatement [(ContinueStatement _)])",
        broken: "(FunctionDeclaration '' '' (BindingIdentifier 'f') (FormalParameters [] _) (FunctionBody [] [(ContinueStatement _)]))",
    },
    Row {
        clause: "14.13.1: labels of a function begin anew",
        frame: "(LabeledStatement (LabelIdentifier 'a') (BlockStatement [@]))",
        sound: "(FunctionDeclaration '' '' (BindingIdentifier 'f') (FormalParameters [] _) (FunctionBody [] [(LabeledStatement (LabelIdentifier 'a') (EmptyStatement))]))",
        broken: "(BlockStatement [(LabeledStatement (LabelIdentifier 'a') (EmptyStatement))])",
    },
    Row {
        clause: "14.9.1: no label round a function expression is named in it",
        frame: "(LabeledStatement (LabelIdentifier 'a') (BlockStatement [@]))",
        sound: "(BlockStatement [(BreakStatement (LabelIdentifier 'a'))])",
        broken: "(ExpressionStatement (ParenthesizedExpression (FunctionExpression '' '' _ (FormalParameters [] _) (FunctionBody [] [(BreakStatement (LabelIdentifier 'a'))]))))",
    },
    Row {
        clause: "14.9.1: no break in a function expression for a loop round it",
        frame: "(WhileStatement (Identifier 'a') (BlockStatement [@]))",
        sound: "(BlockStatement [(BreakStatement _)])",
        broken: "(ExpressionStatement (ParenthesizedExpression (FunctionExpression '' '' _ (FormalParameters [] _) (FunctionBody [] [(BreakStatement _)]))))",
    },
    Row {
        clause: "14.8.1: no continue in a function expression for a loop round it",
        frame: "(WhileStatement (Identifier 'a') (BlockStatement [@]))",
        sound: "(BlockStatement [(ContinueStatement _)])",
        broken: "(ExpressionStatement (ParenthesizedExpression (FunctionExpression '' '' _ (FormalParameters [] _) (FunctionBody [] [(ContinueStatement _)]))))",
    },
    Row {
        clause: "14.13.1: labels of a function expression begin anew",
        frame: "(LabeledStatement (LabelIdentifier 'a') (BlockStatement [@]))",
        sound: "(ExpressionStatement (ParenthesizedExpression (FunctionExpression '' '' _ (FormalParameters [] _) (FunctionBody [] [(LabeledStatement (LabelIdentifier 'a') (EmptyStatement))]))))",
        broken: "(BlockStatement [(LabeledStatement (LabelIdentifier 'a') (EmptyStatement))])",
    },
    Row {
        clause: "14.9.1: no label round an arrow is named in it",
        frame: "(LabeledStatement (LabelIdentifier 'a') (BlockStatement [@]))",
        sound: "(BlockStatement [(BreakStatement (LabelIdentifier 'a'))])",
        broken: "(ExpressionStatement (ParenthesizedExpression (ArrowFunctionExpression '' (FormalParameters [] _) (FunctionBody [] [(BreakStatement (LabelIdentifier 'a'))]))))",
    },
    Row {
        clause: "14.9.1: no break in an arrow for a loop round it",
        frame: "(WhileStatement (Identifier 'a') (BlockStatement [@]))",
        sound: "(BlockStatement [(BreakStatement _)])",
        broken: "(ExpressionStatement (ParenthesizedExpression (ArrowFunctionExpression '' (FormalParameters [] _) (FunctionBody [] [(BreakStatement _)]))))",
    },
    Row {
        clause: "14.8.1: no continue in an arrow for a loop round it",
        frame: "(WhileStatement (Identifier 'a') (BlockStatement [@]))",
        sound: "(BlockStatement [(ContinueStatement _)])",
        broken: "(ExpressionStatement (ParenthesizedExpression (ArrowFunctionExpression '' (FormalParameters [] _) (FunctionBody [] [(ContinueStatement _)]))))",
    },
    Row {
        clause: "14.13.1: labels of an arrow begin anew",
        frame: "(LabeledStatement (LabelIdentifier 'a') (BlockStatement [@]))",
        sound: "(ExpressionStatement (ParenthesizedExpression (ArrowFunctionExpression '' (FormalParameters [] _) (FunctionBody [] [(LabeledStatement (LabelIdentifier 'a') (EmptyStatement))]))))",
        broken: "(BlockStatement [(LabeledStatement (LabelIdentifier 'a') (EmptyStatement))])",
    },
    Row {
        clause: "14.9.1: no label round a static block is named in it",
        frame: "(LabeledStatement (LabelIdentifier 'a') (BlockStatement [@]))",
        sound: "(BlockStatement [(BreakStatement (LabelIdentifier 'a'))])",
        broken: "(ClassDeclaration (BindingIdentifier 'C') _ (ClassBody [(StaticBlock [(BreakStatement (LabelIdentifier 'a'))])]))",
    },
    Row {
        clause: "14.9.1: no break in a static block for a loop round it",
        frame: "(WhileStatement (Identifier 'a') (BlockStatement [@]))",
        sound: "(BlockStatement [(BreakStatement _)])",
        broken: "(ClassDeclaration (BindingIdentifier 'C') _ (ClassBody [(StaticBlock [(BreakStatement _)])]))",
    },
    Row {
        clause: "14.8.1: no continue in a static block for a loop round it",
        frame: "(WhileStatement (Identifier 'a') (BlockStatement [@]))",
        sound: "(BlockStatement [(ContinueStatement _)])",
        broken: "(ClassDeclaration (BindingIdentifier 'C') _ (ClassBody [(StaticBlock [(ContinueStatement _)])]))",
    },
    Row {
        clause: "14.13.1: labels of a static block begin anew",
        frame: "(LabeledStatement (LabelIdentifier 'a') (BlockStatement [@]))",
        sound: "(ClassDeclaration (BindingIdentifier 'C') _ (ClassBody [(StaticBlock [(LabeledStatement (LabelIdentifier 'a') (EmptyStatement))])]))",
        broken: "(BlockStatement [(LabeledStatement (LabelIdentifier 'a') (EmptyStatement))])",
    },
];
