//! Items of which few are put, side by side.

ghost use Rattle.std.specs.Prelude.{◌≡◌, ◌+◌, ◌^◌, ◌<◌, ◌≤◌, length, replicate, slice_index, slice_index_or, slice_set, vec_capacity, IfOk};
ghost use Rattle.pages.specs.Sparse.{listed, AreSingles};

use std::alloc::{AllocError, Global};
use std::marker::Model;

/// A list of items of which few are put. Those stand side by side, in the order in which they were first put, and all
/// others are the same. Memory for all is taken when the list is made, but none of it is written before an item is put.
/// To put an item takes no memory. There are at most 2^30 items.
#[derive(Drop)]
pub struct Sparse<T> {
    /// What each item is until another one is put. It is boxed so that all lists take the same room.
    blank: Box<T>,
    /// Where each item stands in `items`. At 0 is the one that all have where nothing was put.
    numbers: Vec<u32>,
    items: Vec<T>,
}

impl<T> Model for Sparse<T> {
    ghost use Rattle.std.specs.Prelude.{List};

    ghost Value = { List T };

    ghost use Rattle.pages.specs.Sparse.{view_of, IsSparse};

    ghost view = { view_of };

    ghost invariant = { IsSparse };
}

/// Where an item stands. It gets a place of its own if it has none.
fn number_for<T: Copy>(numbers: &mut Vec<u32>, items: &mut Vec<T>, at: usize, blank: T) -> usize
    requires singles { AreSingles numbers.old.items items.old.items blank }
    requires within { at < length numbers.old.items }
    requires few { length numbers.old.items ≤ 2 ^ 30 }
    requires room { 1 + length numbers.old.items ≤ vec_capacity items.old }
    ensures singles { AreSingles numbers.new.items items.new.items blank }
    ensures number { result ≡ slice_index numbers.new.items at }
    ensures own { 0 < result }
    ensures within { result < length items.new.items }
    ensures same { listed numbers.new.items items.new.items blank ≡ listed numbers.old.items items.old.items blank }
    ensures count { length numbers.new.items ≡ length numbers.old.items }
    ensures room { 1 + length numbers.new.items ≤ vec_capacity items.new }
{
    if numbers[at] > 0 {
        return numbers[at] as usize;
    }
    let number = items.len();
    let Ok(()) = items.resize(number + 1, blank) else {
        unreachable!()
    };
    numbers[at] = number as u32;
    number
}

impl<T: Copy> Sparse<T> {
    /// So many items that are all the same.
    pub fn filled(alloc: Global, len: usize, blank: T) -> Result<Sparse<T>, AllocError>
        requires { len ≤ 2 ^ 30 }
        ensures { IfOk result (λ p. p ≡ replicate len blank) }
    {
        let numbers = vec![in alloc; 0u32; len]?;
        let mut items = Vec::with_capacity(alloc, len + 1)?;
        let Ok(()) = items.resize(1, blank) else {
            unreachable!()
        };
        let blank = Box::new(alloc, blank)?;
        Ok(Sparse {
            blank,
            numbers,
            items,
        })
    }

    pub fn len(&self) -> usize
        ensures { result ≡ length self.now }
    {
        self.numbers.len()
    }

    /// The item at a place.
    pub fn get(&self, at: usize) -> T
        requires { at < length self.now }
        ensures { result ≡ slice_index_or self.now at result }
    {
        *self.item(at)
    }

    /// Lends the item at a place.
    pub fn item(&self, at: usize) -> &T
        requires { at < length self.now }
        ensures { result.now ≡ slice_index_or self.now at result.now }
    {
        &self.items[self.numbers[at] as usize]
    }

    /// Puts an item at a place.
    pub fn put(&mut self, at: usize, item: T)
        requires { at < length self.old }
        ensures { self.new ≡ slice_set self.old at item }
    {
        let number = number_for(&mut self.numbers, &mut self.items, at, *self.blank);
        self.items[number] = item;
    }
}

#[cfg(test)]
mod tests {
    use super::*;
    use std::test::Fail;

    #[test]
    fn few_items_are_put(rt: HostRuntime) -> Result<(), Fail> {
        let mut items = Sparse::filled(rt.alloc(), 100, 7u32)?;
        assert_eq!(rt; (items.len(), items.get(0), items.get(99)), (100, 7, 7));
        items.put(40, 1);
        items.put(99, 2);
        items.put(41, 3);
        items.put(40, 4);
        assert_eq!(rt; (items.get(40), items.get(99), items.get(41)), (4, 2, 3));
        assert_eq!(rt; (items.get(39), *items.item(42), items.get(0)), (7, 7, 7));
        Ok(())
    }
}
