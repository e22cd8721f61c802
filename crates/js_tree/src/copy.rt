//! Copies of trees.

ghost use Rattle.std.specs.Prelude.{◌≡◌, IfOk};

use crate::node::Node;
use js_items::Items;
use std::alloc::{AllocError, Global};

impl Node {
    /// An equal tree, with the same spans and ids, which shares the letters of texts.
    #[cycle(copy)]
    pub fn try_clone(&self, alloc: Global) -> Result<Node, AllocError>
        ensures { IfOk result (λ it. it ≡ self.now) }
    {
        let kids = copy_all(alloc, self.kids.as_slice())?;
        let texts = self.texts.try_clone()?;
        Ok(Node {
            form: self.form,
            id: self.id,
            span: self.span,
            texts,
            kids,
        })
    }
}

#[cycle(copy)]
fn copy_all(alloc: Global, parts: &[Node]) -> Result<Items<Node>, AllocError>
    ensures { IfOk result (λ it. it ≡ parts.now) }
{
    let mut copies = Items::with_capacity(alloc, parts.len())?;
    for part in parts {
        copies.push(part.try_clone(alloc)?)?;
    }
    Ok(copies)
}
