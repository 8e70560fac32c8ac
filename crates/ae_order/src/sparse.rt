// Lists of which most items are missing.

ghost use Rattle.std.specs.Prelude.{◌≡◌, ◌<◌, ◌^◌, ◌⊎◌, [], Option, None, Some, length, replicate, slice_get, slice_set, OnErr, OnOk};
ghost use Rattle.ae_order.specs.Sparses.{IsFilled, IsIndex, sparse};

use ae_judge::MaybePlace;
use std::alloc::{AllocError, Global};
use std::marker::Model;

/// So many places with an item or none each. It takes no memory until the first item is set, and then four bytes a place beside
/// the items that are there.
#[derive(Drop)]
pub struct Sparse<T> {
    count: u32,
    /// Where in `items` the item of each place is; empty as long as there is none.
    index: Vec<MaybePlace>,
    items: Vec<T>,
}

impl<T> Model for Sparse<T> {
    ghost use Rattle.std.specs.Prelude.{List, Option, length};
    ghost use Rattle.ae_order.specs.Sparses.{IsIndex, sparse};

    ghost Value = { List (Option T) };

    ghost view = { λ s. sparse s.count s.index.items s.items.items };

    ghost invariant = { λ s. IsIndex s.count s.index.items (length s.items.items) };
}

/// Gives an index all its places.
fn fill(index: &mut Vec<MaybePlace>, count: u32) -> Result<(), AllocError>
    requires long { (index.old.items ≡ []) ⊎ (length index.old.items ≡ count) }
    ensures long { OnOk result (length index.new.items ≡ count) }
    ensures filled { IsFilled count index.old.items index.new.items }
{
    if index.is_empty() {
        *index = vec![in *index.allocator(); MaybePlace::none(); count as usize]?;
    }
    Ok(())
}

/// Puts an item at a place of an index that has all its places: instead of the one that is there, or behind the others.
fn put<T: Copy>(
    index: &mut Vec<MaybePlace>,
    items: &mut Vec<T>,
    _count: u32,
    place: usize,
    item: T,
) -> Result<(), AllocError>
    requires index { IsIndex _count index.old.items (length items.old.items) }
    requires long { length index.old.items ≡ _count }
    requires inside { place < _count }
    ensures index { IsIndex _count index.new.items (length items.new.items) }
    ensures put { OnOk result (sparse _count index.new.items items.new.items ≡ slice_set (sparse _count index.old.items items.old.items) place (Some item)) }
    ensures same { OnErr result (sparse _count index.new.items items.new.items ≡ sparse _count index.old.items items.old.items) }
{
    match index[place].place() {
        Some(k) => {
            items[k as usize] = item;
            Ok(())
        }
        None => {
            let k = items.len() as u32;
            items.push(item)?;
            index[place] = MaybePlace::some(k);
            Ok(())
        }
    }
}

impl<T: Copy> Sparse<T> {
    /// So many places without an item.
    pub fn none(alloc: Global, count: usize) -> Sparse<T>
        requires few { count < 2 ^ 32 }
        ensures { result ≡ replicate count None }
    {
        Sparse {
            count: count as u32,
            index: Vec::new(alloc),
            items: Vec::new(alloc),
        }
    }

    /// How many places there are.
    pub fn len(&self) -> usize
        ensures { result ≡ length self.now }
    {
        self.count as usize
    }

    /// Sets the item of a place. Nothing has changed where memory ran out.
    pub fn set(&mut self, place: usize, item: T) -> Result<(), AllocError>
        requires inside { place < length self.old }
        ensures ok { OnOk result (self.new ≡ slice_set self.old place (Some item)) }
        ensures err { OnErr result (self.new ≡ self.old) }
    {
        fill(&mut self.index, self.count)?;
        put(&mut self.index, &mut self.items, self.count, place, item)?;
        Ok(())
    }

    /// The item of a place.
    pub fn at(&self, place: usize) -> Option<T>
        requires inside { place < length self.now }
        ensures { slice_get self.now place ≡ Some result }
    {
        if self.index.is_empty() {
            return None;
        }
        match self.index[place].place() {
            Some(k) => Some(self.items[k as usize]),
            None => None,
        }
    }
}
