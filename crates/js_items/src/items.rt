ghost use Rattle.js_items.specs.contracts.items.Items.{the_row};
ghost use Rattle.std.specs.Borrow.{Array, Lends, LendsIf, sem};
ghost use Rattle.std.specs.Prelude.{◌≡◌, [], ◌∷◌, ◌++◌, ◌<◌, length, slice_get, slice_index_or, slice_set, take, drop, ◌↔◌, IsTrue, IfOk, MatchOption, OnOk, OnErr, OnSome};
ghost use Rattle.std.specs.Option.{option_copied};

use crate::boxed::discard;
use std::alloc::{AllocError, AllocFailed, Global};
use std::marker::Model;
use std::mem;

/// A `Vec` that contracts see as the list of its elements, so that a copy equals what it copies.
#[derive(Debug, Drop)]
pub struct Items<T> {
    items: Vec<T>,
}

impl<T> Model for Items<T> {
    ghost use Rattle.std.specs.Prelude.{List};
    ghost use Rattle.std.specs.Coded.{coded_list};

    ghost Value = { List T };

    ghost coded = { coded_list T.code };

    ghost view = { λ it. it.items.items };
}

impl<T> Items<T> {
    /// The empty list. It takes no memory before the first push.
    pub fn new(alloc: Global) -> Items<T>
        ensures { result ≡ [] }
    {
        Items {
            items: Vec::new(alloc),
        }
    }

    /// The empty list, with memory for so many items.
    pub fn with_capacity(alloc: Global, capacity: usize) -> Result<Items<T>, AllocError>
        ensures { IfOk result (λ it. it ≡ []) }
    {
        let items = Vec::with_capacity(alloc, capacity)?;
        Ok(Items { items })
    }

    pub fn from_vec(items: Vec<T>) -> Items<T>
        ensures { result ≡ items.items }
    {
        Items { items }
    }

    pub fn into_vec(self) -> Vec<T>
        ensures { result.items ≡ self }
    {
        let Items { items } = self;
        items
    }

    /// The allocator that the list grows by.
    pub fn allocator(&self) -> Global {
        *self.items.allocator()
    }

    pub fn as_slice(&self) -> &[T]
        ensures { result.now ≡ self.now }
    {
        self.items.as_slice()
    }

    pub fn len(&self) -> usize
        ensures { result ≡ length self.now }
    {
        self.items.len()
    }

    pub fn is_empty(&self) -> bool
        ensures { IsTrue result ↔ (self.now ≡ []) }
    {
        self.items.is_empty()
    }

    pub fn get(&self, at: usize) -> Option<&T>
        ensures value { option_copied result ≡ slice_get self.now at }
        ensures within { OnSome result (at < length self.now) }
    {
        self.items.get(at)
    }

    /// Lends the items to be written.
    pub fn as_mut_slice(&mut self) -> &mut [T]
        ensures* after { sem 𝓛 (Lends (the_row T.row) (Array T.row 0) self.entry result (λ w. take (length self.entry.now) (w ++ drop (length w) self.entry.now))) }
        ensures value { result.now ≡ self.old }
    {
        self.items.as_mut_slice()
    }

    /// Lends an item to be written; what is written there is in the list afterwards.
    pub fn get_mut(&mut self, at: usize) -> Option<&mut T>
        ensures* after { sem 𝓛 (LendsIf (the_row T.row) T.row self.entry result (λ w. slice_set self.entry.now at w) self.entry.now) }
    {
        self.items.get_mut(at)
    }

    /// Puts an item into the place of another, which is handed out.
    pub fn replace(&mut self, at: usize, item: T) -> T
        requires { at < length self.old }
        ensures value { result ≡ slice_index_or self.old at result }
        ensures after { self.new ≡ slice_set self.old at item }
    {
        mem::replace(&mut self.items[at], item)
    }

    /// Puts an item into the place of another, which is dropped, where there is such a place.
    pub fn put(&mut self, at: usize, item: T)
    where
        T: Drop,
        ensures { self.new ≡ slice_set self.old at item }
    {
        if at < self.items.len() {
            self.items[at] = item;
        }
    }

    /// Adds an item. Where there is no memory, the item is discarded.
    pub fn push(&mut self, item: T) -> Result<(), AllocError>
        ensures ok { OnOk result (self.new ≡ self.old ++ item ∷ []) }
        ensures err { OnErr result (self.new ≡ self.old) }
    {
        match self.items.push(item) {
            Ok(()) => Ok(()),
            Err(failed) => {
                let AllocFailed { value } = failed;
                discard(value);
                Err(AllocError)
            }
        }
    }

    /// Takes the last item out.
    pub fn pop(&mut self) -> Option<T>
        ensures { MatchOption result ((self.old ≡ []) × (self.new ≡ [])) (λ last. self.old ≡ self.new ++ last ∷ []) }
    {
        self.items.pop()
    }

    /// Ends a list that holds nothing, so of items that may not be dropped.
    pub fn destroy_empty(self)
        requires { self ≡ [] }
    {
        let Items { items } = self;
        items.destroy_empty();
    }
}
