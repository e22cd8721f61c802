ghost use Rattle.std.specs.Prelude.{◌≡◌};
ghost use Rattle.js_syntax.specs.Sorts.{one};
ghost use Rattle.js_syntax.specs.Super.{has_super_at_home};
ghost use Rattle.js_syntax.specs.Printable.{has_shape, has_chains, is_printable};
ghost use Rattle.js_syntax.specs.ModuleTree.{has_leave, meets_rules, is_sound_at, is_module_tree, is_module_value};
ghost use Rattle.js_rules.specs.SortsSeen.{sort_seen};

use crate::jumps_walk::has_jumps;
use js_rules::{
    ArgumentsRule, ExportsRule, Home, Initializers, Kind, Leave, LeaveRule, LengthRule, Lexicon,
    LinksRule, Outer, PartsRule, Place, ShapeRule, Sort, Super, SuperRule, TargetRule, View,
    at_each_node, everywhere, has_private_names,
};

/// Whether the tree that is seen here is a module tree: printable, and without the early errors that the rules name.
/// Other early errors are not looked for.
pub fn is_module_tree<L: Lexicon, V: View>(view: V) -> bool
    ensures { result ≡ is_module_tree (V.term view) }
{
    is_sound_at::<L, V>(Sort::Only(Kind::Program), view)
}

/// Whether it is an expression that may stand as a value at module level.
pub fn is_module_value<L: Lexicon, V: View>(view: V) -> bool
    ensures { result ≡ is_module_value (V.term view) }
{
    is_sound_at::<L, V>(Sort::Expression, view)
}

/// Whether it is a module that has a text, early errors aside.
pub fn is_printable<L: Lexicon, V: View>(view: V) -> bool
    ensures { result ≡ is_printable (V.term view) }
{
    has_shape_at::<L, V>(Sort::Only(Kind::Program), view)
        && has_chains(view)
        && has_super_at_home(view)
}

/// Whether it may stand at a place of the sort at module level. `meets_rules` asks where `super` stands, for printable
/// trees too.
#[tactic(auto, using(crate::proofs::Joined::asked_once))]
fn is_sound_at<L: Lexicon, V: View>(sort: Sort, view: V) -> bool
    ensures { result ≡ is_sound_at (sort_seen sort) (V.term view) }
{
    has_shape_at::<L, V>(sort, view)
        && has_chains(view)
        && meets_rules(view)
        && at_each_node::<LengthRule, V>((), view)
}

fn has_shape_at<L: Lexicon, V: View>(sort: Sort, view: V) -> bool
    ensures { result ≡ has_shape (one (sort_seen sort)) (V.term view) }
{
    everywhere::<ShapeRule<L>, V>(Place::One(sort), view)
}

fn has_chains<V: View>(view: V) -> bool
    ensures { result ≡ has_chains (V.term view) }
{
    at_each_node::<LinksRule, V>(false, view)
}

fn has_super_at_home<V: View>(view: V) -> bool
    ensures { result ≡ has_super_at_home (V.term view) }
{
    let module = Home {
        here: Super::Nowhere,
        function: Super::Nowhere,
        constructor: Super::Nowhere,
    };
    at_each_node::<SuperRule, V>(module, view)
}

fn has_leave<V: View>(view: V) -> bool
    ensures { result ≡ has_leave (V.term view) }
{
    let module = Leave {
        awaits: true,
        yields: false,
        returns: false,
        has_target: false,
    };
    at_each_node::<LeaveRule, V>(module, view)
}

/// The classes round the root.
fn no_classes<'a, V: View>() -> Option<&'a Outer<'a, V>>
    ensures { result ≡ None }
{
    None
}

/// Whether the six rules hold at module level.
pub fn meets_rules<V: View>(view: V) -> bool
    ensures { result ≡ meets_rules (V.term view) }
{
    at_each_node::<ExportsRule, V>(false, view)
        && has_leave(view)
        && has_super_at_home(view)
        && has_jumps(view)
        && at_each_node::<TargetRule, V>(false, view)
        && at_each_node::<ArgumentsRule, V>(false, view)
        && has_private_names(view, no_classes())
        && at_each_node::<PartsRule, V>(Initializers::OfNone, view)
}
