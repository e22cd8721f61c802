ghost use Rattle.std.specs.Prelude.{◌≡◌, map, IfOk, IsOk};
ghost use Rattle.std.specs.Str.{chars};
ghost use Rattle.std.specs.String.{string_bytes};
ghost use Rattle.traverse_names.specs.Identifier.{joined, name_of_parts};

use crate::gather::GatherNodeParts;
use crate::joined::JoinedParts;
use std::alloc::{AllocError, Global};

/// A name for a variable that stands for the node, made of the node's parts.
pub fn get_var_name_from_node<N: GatherNodeParts>(
    alloc: Global,
    node: &N,
) -> Result<String, AllocError>
    ensures { IfOk result (λ text. chars (string_bytes text) ≡ name_of_parts (map chars (N.parts node.now))) }
{
    let mut name = JoinedParts::new(alloc);
    let mut pushed: Result<(), AllocError> = Ok(());
    node.gather(
        &mut |part: &str|
            ensures { IsOk pushed.exit → IsOk pushed.entry × (name.exit ≡ joined name.entry (chars part.now)) }
        {
            if pushed.is_ok() {
                pushed = name.push(part);
            }
        },
    );
    pushed?;
    name.finish(alloc)
}
