//! The names that a scope has, each with its symbol.

ghost use Rattle.std.specs.Prelude.{◌≡◌, [], OnOk, OnErr};
ghost use Rattle.std.specs.Map.{lookup, remove_entry};
ghost use Rattle.js_term.specs.Term.{is_text};
ghost use Rattle.indexmap.specs.IndexMap.{insert_entry};

use crate::ids::SymbolId;
use indexmap::IndexMap;
use js_ident::Ident;
use std::alloc::{AllocError, Global};
use std::marker::Model;
use std::rc::RcStr;

/// A map from names to symbols, found by hashing. Contracts see its entries, in the order in which the names came.
#[derive(Drop)]
pub struct Names {
    map: IndexMap<RcStr, SymbolId>,
}

impl Model for Names {
    ghost use Rattle.std.specs.Prelude.{List, ℕ};
    ghost use Rattle.std.specs.Rc.{rc_str_bytes};
    ghost use Rattle.js_scope.specs.Keyed.{by_text};

    ghost Value = { List (List ℕ × ℕ) };

    ghost view = { λ names. by_text rc_str_bytes names.map.entries };
}

impl Names {
    pub fn new(alloc: Global) -> Names
        ensures { result ≡ [] }
    {
        Names {
            map: IndexMap::new(alloc),
        }
    }

    /// The symbol of a name. It takes no memory.
    pub fn get(&self, name: &str) -> Option<SymbolId>
        ensures { result ≡ lookup (is_text name.now) self.now }
    {
        self.map.get(name).copied()
    }

    /// Sets the symbol of a name.
    pub fn insert(&mut self, name: Ident, symbol: SymbolId) -> Result<(), AllocError>
        ensures set { OnOk result (self.new ≡ insert_entry is_text self.old name symbol) }
        ensures unchanged { OnErr result (self.new ≡ self.old) }
    {
        match self.map.insert(name.into_rc(), symbol) {
            Ok(_) => Ok(()),
            Err(_) => Err(AllocError),
        }
    }

    /// Takes a name out, where it is there.
    pub fn remove(&mut self, name: &str)
        ensures { self.new ≡ remove_entry (is_text name.now) self.old }
    {
        self.map.shift_remove(name);
    }
}
