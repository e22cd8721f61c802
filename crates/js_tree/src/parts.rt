//! The parts of a node, read and changed in place.

ghost use Rattle.std.specs.Borrow.{Array, Lends, sem};
ghost use Rattle.std.specs.Prelude.{◌≡◌, ◌++◌, ◌<◌, Some, drop, length, slice_get, take};
ghost use Rattle.std.specs.Option.{option_copied};
ghost use Rattle.js_tree.specs.Parts.{hole, kids, with_kid, with_kids};
ghost use Rattle.js_tree.specs.contracts.node.Node.{the_row};

use crate::node::Node;
use std::alloc::Global;
use std::mem;

impl Node {
    /// How many parts it has: items of a list, kids of a node.
    #[tactic(auto, unfolding(crate::specs::Parts::kids))]
    pub fn kid_count(&self) -> usize
        ensures { result ≡ length (kids self.now) }
    {
        self.kids.len()
    }

    /// Its parts, in text order.
    #[tactic(auto, unfolding(crate::specs::Parts::kids))]
    pub fn kids(&self) -> &[Node]
        ensures { result.now ≡ kids self.now }
    {
        self.kids.as_slice()
    }

    /// Lends the parts to be written.
    #[tactic(auto, unfolding(crate::specs::Parts::kids, crate::specs::Parts::with_kids))]
    pub fn kids_mut(&mut self) -> &mut [Node]
        ensures* after { sem 𝓛 (Lends the_row (Array the_row 0) self.entry result (λ w. with_kids self.entry.now (take (length (kids self.entry.now)) (w ++ drop (length w) (kids self.entry.now))))) }
        ensures value { result.now ≡ kids self.old }
    {
        self.kids.as_mut_slice()
    }

    /// The part numbered `k`, in text order.
    #[tactic(auto, unfolding(crate::specs::Parts::kids))]
    pub fn kid(&self, k: usize) -> Option<&Node>
        ensures { option_copied result ≡ slice_get (kids self.now) k }
    {
        self.kids.get(k)
    }

    /// Puts a part at the place `k`, and hands out the one that stood there.
    #[tactic(auto, unfolding(crate::specs::Parts::kids, crate::specs::Parts::with_kids))]
    pub fn replace_kid(&mut self, k: usize, part: Node) -> Node
        requires { k < length (kids self.old) }
        ensures given { slice_get (kids self.old) k ≡ Some result }
        ensures kept { self.new ≡ with_kid self.old k part }
    {
        self.kids.replace(k, part)
    }

    /// Puts a part at the place `k`, where there is such a place, and drops the one that stood there.
    #[tactic(auto, unfolding(crate::specs::Parts::kids, crate::specs::Parts::with_kids))]
    pub fn put_kid(&mut self, k: usize, part: Node)
        ensures { self.new ≡ with_kid self.old k part }
    {
        self.kids.put(k, part)
    }

    /// Puts another node in this one's place, and hands this one out.
    pub fn replace(&mut self, node: Node) -> Node
        ensures given { result ≡ self.old }
        ensures kept { self.new ≡ node }
    {
        mem::replace(self, node)
    }

    /// Puts another node in this one's place, and drops this one.
    pub fn set(&mut self, node: Node)
        ensures { self.new ≡ node }
    {
        drop(mem::replace(self, node));
    }

    /// Hands this node out and leaves nothing at its place.
    pub fn take(&mut self, alloc: Global) -> Node
        ensures given { result ≡ self.old }
        ensures left { self.new ≡ hole }
    {
        mem::replace(self, Node::absent(alloc))
    }
}
