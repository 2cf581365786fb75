//! Long lists of which most items are the same.
#![tactic(auto)]

ghost use Rattle.std.specs.Prelude.{◌≡◌, ℕ, ◌+◌, ◌*◌, ◌^◌, ◌<◌, ◌≤◌, length, replicate, slice_index, slice_index_or, slice_set, vec_capacity, IfOk};
ghost use Rattle.pages.specs.Pages.{item_at, ArePages};

mod sparse;

pub use sparse::Sparse;
use std::alloc::{AllocError, Global};
use std::marker::Model;

/// A list of items, in pages of 4. Memory for all of them is taken when it is made, but none of it is written for a
/// page until an item is put there. So a list of which few pages are put costs little, and to put an item takes no
/// memory. There are at most 2^32 items.
#[derive(Drop)]
pub struct Pages<T> {
    len: usize,
    /// What each item is until another one is put. It is boxed so that all lists take the same room.
    blank: Box<T>,
    /// Where the items of each page stand, in pages. At 0 are those of all pages where nothing was put.
    numbers: Vec<u32>,
    items: Vec<T>,
}

impl<T> Model for Pages<T> {
    ghost use Rattle.std.specs.Prelude.{List};

    ghost Value = { List T };

    ghost use Rattle.pages.specs.Pages.{view_of, IsPaged};

    ghost view = { view_of };

    ghost invariant = { IsPaged };
}

/// Where the items of a page stand. They get a place of their own if they have none.
fn page_for<T: Copy>(numbers: &mut Vec<u32>, items: &mut Vec<T>, page: usize, blank: T) -> usize
    requires pages { ArePages numbers.old.items items.old.items blank }
    requires within { page < length numbers.old.items }
    requires few { length numbers.old.items ≤ 2 ^ 30 }
    requires room { 4 * (1 + length numbers.old.items) ≤ vec_capacity items.old }
    ensures pages { ArePages numbers.new.items items.new.items blank }
    ensures number { result ≡ slice_index numbers.new.items page }
    ensures own { 0 < result }
    ensures within { 4 * (result + 1) ≤ length items.new.items }
    ensures same { (i : ℕ) → item_at numbers.new.items items.new.items blank i
        ≡ item_at numbers.old.items items.old.items blank i }
    ensures count { length numbers.new.items ≡ length numbers.old.items }
    ensures room { 4 * (1 + length numbers.new.items) ≤ vec_capacity items.new }
{
    if numbers[page] > 0 {
        return numbers[page] as usize;
    }
    let number = items.len() / 4;
    let Ok(()) = items.resize(4 * (number + 1), blank) else {
        unreachable!()
    };
    numbers[page] = number as u32;
    number
}

impl<T: Copy> Pages<T> {
    /// So many items that are all the same.
    pub fn filled(alloc: Global, len: usize, blank: T) -> Result<Pages<T>, AllocError>
        requires { len ≤ 2 ^ 32 }
        ensures { IfOk result (λ p. p ≡ replicate len blank) }
    {
        let pages = len.div_ceil(4);
        let numbers = vec![in alloc; 0u32; pages]?;
        let mut items = Vec::with_capacity(alloc, 4 * (pages + 1))?;
        let Ok(()) = items.resize(4, blank) else {
            unreachable!()
        };
        let blank = Box::new(alloc, blank)?;
        Ok(Pages {
            len,
            blank,
            numbers,
            items,
        })
    }

    pub fn len(&self) -> usize
        ensures { result ≡ length self.now }
    {
        self.len
    }

    /// The item at a place.
    pub fn get(&self, at: usize) -> T
        requires { at < length self.now }
        ensures { result ≡ slice_index_or self.now at result }
    {
        *self.item(at)
    }

    /// Lends the item at a place.
    pub fn item(&self, at: usize) -> &T
        requires { at < length self.now }
        ensures { result.now ≡ slice_index_or self.now at result.now }
    {
        &self.items[4 * self.numbers[at / 4] as usize + at % 4]
    }

    /// Puts an item at a place.
    pub fn put(&mut self, at: usize, item: T)
        requires { at < length self.old }
        ensures { self.new ≡ slice_set self.old at item }
    {
        let number = page_for(&mut self.numbers, &mut self.items, at / 4, *self.blank);
        self.items[4 * number + at % 4] = item;
    }
}

#[cfg(test)]
mod tests {
    use super::*;
    use std::test::Fail;

    #[test]
    fn items_are_put(rt: HostRuntime) -> Result<(), Fail> {
        let mut pages = Pages::filled(rt.alloc(), 100, 7u32)?;
        assert_eq!(rt; (pages.len(), pages.get(0), pages.get(99)), (100, 7, 7));
        pages.put(40, 1);
        pages.put(99, 2);
        pages.put(47, 3);
        pages.put(40, 4);
        assert_eq!(rt; (pages.get(40), pages.get(99), pages.get(47)), (4, 2, 3));
        assert_eq!(rt; (pages.get(39), *pages.item(41), pages.get(0)), (7, 7, 7));
        Ok(())
    }
}
