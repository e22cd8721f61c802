ghost use Rattle.std.specs.Prelude.{◌≡◌};
ghost use Rattle.js_term.specs.Lexeme.{is_one_of};
ghost use Rattle.module_tree.specs.LabelsSeen.{label_names, loop_names};

use js_rules::View;

/// The label of a statement round a place, and the labels round that statement.
#[derive(Drop)]
pub struct EnclosingLabel<'a, V> {
    pub label: V,
    /// Whether the statement is a loop, behind other labels or not.
    pub of_loop: bool,
    pub outer: Option<&'a EnclosingLabel<'a, V>>,
}

/// Whether one of these labels has the name.
pub fn is_label<V: View>(name: &str, labels: Option<&EnclosingLabel<V>>) -> bool
    ensures { result ≡ is_one_of name.now (label_names V.term labels.entry) }
{
    let mut rest = labels;
    while let Some(enclosing) = rest {
        if enclosing.label.text_is_also(name) {
            return true;
        }
        rest = enclosing.outer;
    }
    false
}

/// Whether one of these labels is of a loop and has the name.
pub fn is_loop_label<V: View>(name: &str, labels: Option<&EnclosingLabel<V>>) -> bool
    ensures { result ≡ is_one_of name.now (loop_names V.term labels.entry) }
{
    let mut rest = labels;
    while let Some(enclosing) = rest {
        if enclosing.of_loop && enclosing.label.text_is_also(name) {
            return true;
        }
        rest = enclosing.outer;
    }
    false
}
