ghost use Rattle.std.specs.Prelude.{◌≡◌, [], IfOk};

use small_tree::Items;
use std::alloc::{AllocError, Global};

/// An empty list with room for so many items, so that it takes memory once and no more than it needs.
pub(crate) fn room<T>(alloc: Global, count: usize) -> Result<Items<T>, AllocError>
    ensures { IfOk result (λ it. it ≡ []) }
{
    Ok(Items::from_vec(Vec::with_capacity(alloc, count)?))
}
