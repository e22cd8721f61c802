ghost use Rattle.std.specs.Prelude.{◌≡◌, ◌^◌, ◌<◌, ◌≤◌, ◌↔◌, OnOk, OnErr, IfOk, IfSome, Some, None, Err};
ghost use Rattle.std.specs.FinMap as map;
ghost use Rattle.std.specs.Option.{option_map};
ghost use Rattle.traverse_names.specs.Uid.{underscores, base_of, keep, catalogued, next_pair, name_of, is_below};
ghost use Rattle.traverse_names.specs.Kept.{pair_of};

use crate::uid_text::{count_underscores, read_postfix, split_name, write_name};
use js_ident::Ident;
use std::alloc::{AllocError, Global};
use std::collections::BTreeMap;
use std::marker::Model;
use std::rc::RcStr;
use thiserror::Error;

/// Why no name was drawn.
#[derive(Debug, Drop, Error)]
pub enum UidFault {
    /// The next name would have more underscores than a `u32` counts.
    #[error("too many underscores")]
    TooMany,
    #[error("out of memory")]
    NoMemory,
}

impl From<AllocError> for UidFault {
    ghost use Rattle.std.specs.Prelude.{◌≡◌};
    ghost use Rattle.traverse_names.specs.declared.uid.UidFault.TheVariants.{NoMemory};

    ghost from_gives = { λ _ e. e ≡ NoMemory };

    fn from(_: AllocError) -> UidFault {
        UidFault::NoMemory
    }
}

/// The pair that is kept for a base.
#[derive(Clone, Copy)]
struct Kept {
    underscores: u32,
    postfix: u32,
}

/// Draws names that no catalogued name is equal to. Contracts see it as the map from each base to the pair that is
/// kept for it.
#[derive(Drop)]
pub struct UidGenerator {
    alloc: Global,
    names: BTreeMap<RcStr, Kept>,
}

impl Model for UidGenerator {
    ghost use Rattle.std.specs.Prelude.{List, ℕ};
    ghost use Rattle.std.specs.FinMap as map;
    ghost use Rattle.std.specs.Coded.{coded_ℕ, coded_list, coded×};
    ghost use Rattle.std.specs.Ordering.{nat_cmp};
    ghost use Rattle.std.specs.Cmp.Lexicographic.{slice_cmp};

    ghost Value = { map.FinMap (slice_cmp nat_cmp) (ℕ × ℕ) };

    ghost coded = { map.code (coded_list coded_ℕ) (coded× coded_ℕ coded_ℕ) };

    ghost use Rattle.std.specs.Rc.{rc_str_bytes};
    ghost use Rattle.traverse_names.specs.Kept.{kept};

    ghost view = { λ a. kept rc_str_bytes a.names.entries };
}

impl UidGenerator {
    /// A generator that has seen no name.
    pub fn empty(alloc: Global) -> UidGenerator
        ensures { result ≡ map.empty }
    {
        UidGenerator {
            alloc,
            names: BTreeMap::new(alloc),
        }
    }

    /// Takes a name of the program into account.
    pub fn add(&mut self, name: &str) -> Result<(), AllocError>
        requires { underscores name.now < 2 ^ 32 }
        ensures kept { OnOk result (self.new ≡ catalogued self.old name.now) }
        ensures unchanged { OnErr result (self.new ≡ self.old) }
    {
        let count = count_underscores(name);
        if count == 0 {
            return Ok(());
        }
        let (base, digits) = split_name(name, count);
        match read_postfix(digits) {
            Some(postfix) => self.add_pair(base, count as u32, postfix),
            None => Ok(()),
        }
    }

    /// Takes a name of this base, with this many underscores and this postfix, into account.
    pub fn add_pair(&mut self, base: &str, underscores: u32, postfix: u32) -> Result<(), AllocError>
        requires underscored { 1 ≤ underscores }
        requires numbered { 1 ≤ postfix }
        ensures kept { OnOk result (self.new ≡ keep self.old base.now (underscores, postfix)) }
        ensures unchanged { OnErr result (self.new ≡ self.old) }
    {
        let pair = Kept {
            underscores,
            postfix,
        };
        match self.kept(base) {
            Some(kept) if !kept.is_below(&pair) => Ok(()),
            _ => self.put(base, pair),
        }
    }

    /// Draws the next name of a base, which is this name without its leading underscores and the digits at its end.
    pub fn create(&mut self, name: &str) -> Result<Ident, UidFault>
        ensures too_many { (result ≡ Err UidFault.TooMany) ↔ (next_pair (map.get self.old (base_of name.now)) ≡ None) }
        ensures drawn { IfOk result (λ it. IfSome (next_pair (map.get self.old (base_of name.now))) (λ pair. it ≡ name_of (base_of name.now) pair)) }
        ensures kept { OnOk result (IfSome (next_pair (map.get self.old (base_of name.now))) (λ pair. self.new ≡ map.insert self.old (base_of name.now) pair)) }
        ensures unchanged { OnErr result (self.new ≡ self.old) }
    {
        let (base, _) = split_name(name, count_underscores(name));
        let Some(next) = next_of(self.kept(base)) else {
            return Err(UidFault::TooMany);
        };
        let uid = write_name(self.alloc, base, next.underscores, next.postfix)?;
        self.put(base, next)?;
        Ok(uid)
    }

    fn kept(&self, base: &str) -> Option<Kept>
        ensures { option_map pair_of result ≡ map.get self.now base.now }
    {
        self.names.get(base).copied()
    }

    fn put(&mut self, base: &str, pair: Kept) -> Result<(), AllocError>
        ensures kept { OnOk result (self.new ≡ map.insert self.old base.now (pair_of pair)) }
        ensures unchanged { OnErr result (self.new ≡ self.old) }
    {
        if let Some(kept) = self.names.get_mut(base) {
            *kept = pair;
            return Ok(());
        }
        let key = RcStr::from_str(self.alloc, base)?;
        self.names.insert(key, pair)?;
        Ok(())
    }
}

impl Kept {
    fn is_below(&self, other: &Kept) -> bool
        ensures { result ≡ is_below (pair_of self.now) (pair_of other.now) }
    {
        self.underscores < other.underscores
            || (self.underscores == other.underscores && self.postfix < other.postfix)
    }
}

/// The pair of the next name.
fn next_of(kept: Option<Kept>) -> Option<Kept>
    ensures { option_map pair_of result ≡ next_pair (option_map pair_of kept) }
{
    match kept {
        None => Some(Kept {
            underscores: 1,
            postfix: 1,
        }),
        Some(it) if it.postfix < u32::MAX => Some(Kept {
            underscores: it.underscores,
            postfix: it.postfix + 1,
        }),
        Some(it) if it.underscores < u32::MAX => Some(Kept {
            underscores: it.underscores + 1,
            postfix: 2,
        }),
        Some(_) => None,
    }
}
