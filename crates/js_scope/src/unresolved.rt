//! The references that have no symbol, by their names.

ghost use Rattle.std.specs.Prelude.{◌≡◌, [], ◌∷◌, length, slice_get, OnOk, OnErr, option_map, MatchOption, IfSome};
ghost use Rattle.std.specs.Option.{option_copied};
ghost use Rattle.std.specs.Map.{lookup};
ghost use Rattle.js_term.specs.Term.{is_text};
ghost use Rattle.js_scope.specs.Unresolved.{listed, unlisted, without};

use crate::ids::ReferenceId;
use indexmap::IndexMap;
use js_ident::Ident;
use js_items::Items;
use std::alloc::{AllocError, Global};
use std::marker::Model;
use std::mem;
use std::rc::RcStr;

/// A map from names to lists of references, found by hashing. Contracts see its entries, in the order in which the names
/// came.
#[derive(Drop)]
pub struct Unresolved {
    alloc: Global,
    map: IndexMap<RcStr, Items<ReferenceId>>,
}

impl Model for Unresolved {
    ghost use Rattle.std.specs.Prelude.{List, ℕ};
    ghost use Rattle.std.specs.Rc.{rc_str_bytes};
    ghost use Rattle.js_scope.specs.Keyed.{by_text};

    ghost Value = { List (List ℕ × List ℕ) };

    ghost view = { λ lists. by_text rc_str_bytes lists.map.entries };
}

impl Unresolved {
    pub(crate) fn new(alloc: Global) -> Unresolved
        ensures { result ≡ [] }
    {
        Unresolved {
            alloc,
            map: IndexMap::new(alloc),
        }
    }

    /// How many names there are.
    pub fn len(&self) -> usize
        ensures { result ≡ length self.now }
    {
        self.map.len()
    }

    /// The references of a name. It takes no memory.
    pub fn get(&self, name: &str) -> Option<&Items<ReferenceId>>
        ensures { option_copied result ≡ lookup (is_text name.now) self.now }
    {
        self.map.get(name)
    }

    /// Puts a reference last in the list of a name.
    pub(crate) fn add(&mut self, name: Ident, reference: ReferenceId) -> Result<(), AllocError>
        ensures listed { OnOk result (self.new ≡ listed self.old name reference) }
        ensures unchanged { OnErr result (self.new ≡ self.old) }
    {
        if let Some(list) = self.map.get_mut(name.as_str()) {
            return list.push(reference);
        }
        let mut list = Items::new(self.alloc);
        list.push(reference)?;
        match self.map.insert(name.into_rc(), list) {
            Ok(_) => Ok(()),
            Err(_) => Err(AllocError),
        }
    }

    /// Takes a reference out of the list of a name.
    pub(crate) fn delete(&mut self, name: &str, reference: ReferenceId)
        ensures { self.new ≡ unlisted self.old name.now reference }
    {
        let Some(list) = self.map.get_mut(name) else {
            return;
        };
        remove_reference(list, reference);
        if list.is_empty() {
            self.map.shift_remove(name);
        }
    }
}

/// Takes a reference out of a list.
pub(crate) fn remove_reference(list: &mut Items<ReferenceId>, reference: ReferenceId)
    ensures { list.new ≡ without reference list.old }
{
    let mut items = mem::replace(list, Items::new(list.allocator())).into_vec();
    items.retain(|other| *other != reference);
    *list = Items::from_vec(items);
}
