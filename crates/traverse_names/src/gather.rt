ghost use Rattle.std.specs.Prelude.{◌≡◌, List, ℕ, ◌∷◌, [], map, IfOk};
ghost use Rattle.std.specs.Fn.{CalledAt};
ghost use Rattle.std.specs.List.{FoldsTo};

use small_tree::{BindingIdentifier, IdentifierName, IdentifierReference};

/// A node that has parts of which a name can be made.
pub trait GatherNodeParts {
    ghost parts: { Self → List (List ℕ) };

    /// Calls `f` on each part, in order.
    fn gather<F: FnMut(&str)>(&self, f: &mut F)
        requires { F.IsAlwaysCallable f.old }
        ensures called { FoldsTo (λ p part q. CalledAt F.FnMut p part tt q) f.old (parts self.now) f.new }
        ensures callable { F.IsAlwaysCallable f.new };
}

impl GatherNodeParts for IdentifierName {
    ghost parts = { λ n. n.name ∷ [] };

    fn gather<F: FnMut(&str)>(&self, f: &mut F) {
        f(self.name.as_str());
    }
}

impl GatherNodeParts for IdentifierReference {
    ghost parts = { λ n. n.name ∷ [] };

    fn gather<F: FnMut(&str)>(&self, f: &mut F) {
        f(self.name.as_str());
    }
}

impl GatherNodeParts for BindingIdentifier {
    ghost parts = { λ n. n.name ∷ [] };

    fn gather<F: FnMut(&str)>(&self, f: &mut F) {
        f(self.name.as_str());
    }
}
