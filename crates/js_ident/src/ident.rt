ghost use Rattle.std.specs.Prelude.{◌≡◌, IfOk, nat_eq};
ghost use Rattle.std.specs.Cmp;
ghost use Rattle.std.specs.Cmp.Lexicographic.{pointwise, slice_cmp, nat_list_eq_equiv, nat_list_cmp_total, texts_ties, texts_po};
ghost use Rattle.std.specs.Cmp.Rules.{hashing};
ghost use Rattle.std.specs.Hash as fed;
ghost use Rattle.std.specs.Ordering.{nat_cmp};
ghost use Rattle.std.specs.Prelude.{Some};
ghost use Rattle.std.specs.Rc.{rc_str_bytes};
ghost use Rattle.std.proofs.Common.{refl, rules};

use std::alloc::{AllocError, Global};
use std::cmp::Ordering;
use std::fmt::{self, Display, Formatter, Write};
use std::hash::{Hash, Hasher};
use std::marker::Model;
use std::rc::RcStr;

/// A text that is shared by its copies: contracts see its UTF-8 bytes, and it is compared, ordered and hashed by them.
#[derive(Debug, Drop)]
pub struct Ident {
    text: RcStr,
}

impl Model for Ident {
    ghost use Rattle.std.specs.Prelude.{List, ℕ};
    ghost use Rattle.std.specs.Rc.{rc_str_bytes};

    ghost Value = { List ℕ };

    ghost view = { λ i. rc_str_bytes i.text };
}

impl Ident {
    /// Copies `text` once; clones share it.
    pub fn new(alloc: Global, text: &str) -> Result<Ident, AllocError>
        ensures { IfOk result (λ i. i ≡ text.now) }
    {
        let text = RcStr::from_str(alloc, text)?;
        Ok(Ident { text })
    }

    pub fn as_str(&self) -> &str
        ensures { result.now ≡ self.now }
    {
        self.text.as_str()
    }

    /// The shared text itself, as maps are keyed by it.
    pub fn into_rc(self) -> RcStr
        ensures { rc_str_bytes result ≡ self }
    {
        let Ident { text } = self;
        text
    }
}

impl Clone for Ident {
    ghost is_clone = { λ s copy. copy ≡ s };

    fn clone(&self) -> Result<Ident, AllocError> {
        let text = self.text.clone()?;
        Ok(Ident { text })
    }
}

impl PartialEq for Ident {
    ghost eq = { pointwise nat_eq };

    ghost laws = { Cmp.partial_equiv_from_equiv nat_list_eq_equiv };

    fn eq(&self, other: &Self) -> bool {
        self.text.eq(&other.text)
    }
}

impl Eq for Ident {
    ghost laws = { nat_list_eq_equiv };
}

impl PartialOrd for Ident {
    ghost partial_cmp = { λ x y. Some (slice_cmp nat_cmp x y) };

    ghost laws = { texts_po };

    fn partial_cmp(&self, other: &Self) -> Option<Ordering> {
        Some(self.cmp(other))
    }
}

impl Ord for Ident {
    ghost cmp = { slice_cmp nat_cmp };

    ghost total = { nat_list_cmp_total };

    ghost matches_partial_cmp = { λ x y. refl };

    ghost matches_eq = { texts_ties };

    fn cmp(&self, other: &Self) -> Ordering {
        self.text.cmp(&other.text)
    }
}

impl Hash for Ident {
    ghost hash_input = { fed.str };

    ghost respects_eq = { Prim.search (hashing, rules) };

    fn hash<H: Hasher>(&self, state: &mut H) {
        self.text.hash(state);
    }
}

impl Display for Ident {
    ghost output = { λ s. Some s };

    fn fmt<W: Write>(&self, f: &mut Formatter<W>) -> fmt::Result {
        Display::fmt(&self.text, f)
    }
}
