//! Items with keys of 64 bits, found by their keys, the last ones first.

ghost use Rattle.std.specs.Prelude.{◌≡◌, ◌++◌, ◌∷◌, ◌<◌, ◌≤◌, ◌-◌, ◌^◌, [], length, replicate, slice_get, take, OnOk, OnErr, IfSome, None, Some};
ghost use Rattle.record_book.specs.Chains.{AreChained, AreInBuckets, bucket, last_beside, with_keys};
ghost use Rattle.record_book.specs.KeyedItems.{keyed_item, last_with};

use aerie_base::OutOfMemory;
use std::alloc::Global;
use std::marker::Model;

/// How many buckets there are once there is an item.
const LEAST_BUCKETS: usize = 16;

/// An item with its key, and where the last item before it in its bucket stands.
#[derive(Drop)]
pub(crate) struct Keyed<T> {
    key: u64,
    item: T,
    older: Option<u32>,
}

/// Items in the order in which they came, each with a key; several may have one key. Contracts see them with their keys.
///
/// Keys are spread over buckets, two to four for each item. Of each bucket it is known where its last item stands, and with each item
/// where the last before it in the same bucket stands: so a search reads one place, and then little else than the items with the key.
#[derive(Drop)]
pub(crate) struct KeyedItems<T> {
    items: Vec<Keyed<T>>,
    newest: Vec<Option<u32>>,
}

impl<T> Model for KeyedItems<T> {
    ghost use Rattle.std.specs.Prelude.{List, ℕ, map};
    ghost use Rattle.std.specs.Coded.{coded_list, coded_ℕ, coded×};
    ghost use Rattle.record_book.specs.Chains.{AreChained, with_key};

    ghost Value = { List (ℕ × T) };

    ghost coded = { coded_list (coded× coded_ℕ T.code) };

    ghost view = { λ it. map with_key it.items.items };

    ghost invariant = { λ it. AreChained it.items.items it.newest.items };
}

impl<T> KeyedItems<T> {
    /// No items. It takes no memory yet.
    pub(crate) fn new(alloc: Global) -> KeyedItems<T>
        ensures { result ≡ [] }
    {
        KeyedItems {
            items: Vec::new(alloc),
            newest: Vec::new(alloc),
        }
    }

    /// How many items there are.
    pub(crate) fn len(&self) -> usize
        ensures { result ≡ length self.now }
    {
        self.items.len()
    }

    /// The item at a position, counted from 0.
    pub(crate) fn item(&self, at: usize) -> &T
        requires { at < length self.now }
        ensures { keyed_item self.now at ≡ Some result.now }
    {
        &self.items[at].item
    }

    /// The position of the last item with a key.
    pub(crate) fn newest(&self, key: u64) -> Option<usize>
        ensures { result ≡ last_with key self.now }
    {
        let (items, newest) = (self.items.as_slice(), self.newest.as_slice());
        let first = last_of_bucket(items, newest, key);
        last_from(items, newest, items.len(), first, key)
    }

    /// The position of the last item before this one with the same key.
    pub(crate) fn older(&self, at: usize) -> Option<usize>
        requires { at < length self.now }
        ensures { IfSome (slice_get self.now at) (λ item. result ≡ last_with item.0 (take at self.now)) }
    {
        let (items, newest) = (self.items.as_slice(), self.newest.as_slice());
        let keyed = &items[at];
        last_from(items, newest, at, keyed.older, keyed.key)
    }
}

impl<T: Drop> KeyedItems<T> {
    /// Puts an item with a key behind the last. After want of memory the items are as they were, and the new one is dropped.
    pub(crate) fn push(&mut self, alloc: Global, key: u64, item: T) -> Result<(), OutOfMemory>
        ensures pushed { OnOk result (self.new ≡ self.old ++ (key, item) ∷ []) }
        ensures unchanged { OnErr result (self.new ≡ self.old) }
    {
        make_room(alloc, &mut self.items, &mut self.newest)?;
        push_linked(&mut self.items, &mut self.newest, key, item)
    }

    /// Keeps the first items, so many.
    pub(crate) fn truncate(&mut self, len: usize)
        ensures { self.new ≡ take len self.old }
    {
        while self.len() > len {
            self.take_last();
        }
    }

    /// Takes out the last item.
    fn take_last(&mut self)
        ensures { self.new ≡ take (length self.old - 1) self.old }
    {
        let Some(last) = self.items.pop() else {
            return;
        };
        let at = bucket_of(last.key, self.newest.len());
        self.newest[at] = last.older;
    }
}

/// The bucket of a key, of so many.
fn bucket_of(key: u64, count: usize) -> usize
    requires { 0 < count }
    ensures value { result ≡ bucket count key }
    ensures within { result < count }
{
    (key & (count as u64 - 1)) as usize
}

/// The position of the last item in the bucket of a key.
fn last_of_bucket<T>(items: &[Keyed<T>], newest: &[Option<u32>], key: u64) -> Option<u32>
    requires { AreChained items.now newest.now }
    ensures { result ≡ last_beside (length newest.now) key (with_keys items.now) }
{
    let _ = items;
    if newest.len() == 0 {
        return None;
    }
    let at = bucket_of(key, newest.len());
    newest[at]
}

/// The position of the last item with a key before a position, where the last one of its bucket stands before it.
fn last_from<T>(
    items: &[Keyed<T>],
    newest: &[Option<u32>],
    before: usize,
    first: Option<u32>,
    key: u64,
) -> Option<usize>
    requires chained { AreChained items.now newest.now }
    requires within { before ≤ length items.now }
    requires first { first ≡ last_beside (length newest.now) key (take before (with_keys items.now)) }
    ensures { result ≡ last_with key (take before (with_keys items.now)) }
{
    let (_, _) = (newest, before);
    let mut next = first;
    while let Some(at) = next {
        let keyed = &items[at as usize];
        if keyed.key == key {
            return Some(at as usize);
        }
        next = keyed.older;
    }
    None
}

/// Makes more buckets where there are fewer than twice as many as items.
fn make_room<T>(
    alloc: Global,
    items: &mut Vec<Keyed<T>>,
    newest: &mut Vec<Option<u32>>,
) -> Result<(), OutOfMemory>
    requires { AreChained items.old.items newest.old.items }
    ensures chained { AreChained items.new.items newest.new.items }
    ensures same { with_keys items.new.items ≡ with_keys items.old.items }
    ensures room { OnOk result (length items.new.items < length newest.new.items) }
{
    if items.len() < newest.len() / 2 {
        return Ok(());
    }
    let Some(count) = newest.len().max(LEAST_BUCKETS / 2).checked_mul(2) else {
        return Err(OutOfMemory);
    };
    let mut more = Vec::new(alloc);
    more.resize(count, None)?;
    link_all(items.as_mut_slice(), more.as_mut_slice());
    *newest = more;
    Ok(())
}

/// Links items anew, where no bucket has one yet.
fn link_all<T>(items: &mut [Keyed<T>], newest: &mut [Option<u32>])
    requires few { length items.old ≤ 2 ^ 32 }
    requires buckets { 0 < length newest.old }
    requires none { newest.old ≡ replicate (length newest.old) None }
    ensures linked { AreInBuckets (length newest.old) (length items.old) items.new newest.new }
    ensures same { with_keys items.new ≡ with_keys items.old }
    ensures len { length newest.new ≡ length newest.old }
{
    for at in 0..items.len() {
        let bucket = bucket_of(items[at].key, newest.len());
        items[at].older = newest[bucket];
        newest[bucket] = Some(at as u32);
    }
}

/// Puts an item with a key behind the last, where there is a bucket for it.
fn push_linked<T: Drop>(
    items: &mut Vec<Keyed<T>>,
    newest: &mut Vec<Option<u32>>,
    key: u64,
    item: T,
) -> Result<(), OutOfMemory>
    requires chained { AreChained items.old.items newest.old.items }
    requires room { length items.old.items < length newest.old.items }
    ensures chained { AreChained items.new.items newest.new.items }
    ensures pushed { OnOk result (with_keys items.new.items ≡ with_keys items.old.items ++ (key, item) ∷ []) }
    ensures unchanged { OnErr result (with_keys items.new.items ≡ with_keys items.old.items) }
{
    let Ok(place) = u32::try_from(items.len()) else {
        return Err(OutOfMemory);
    };
    let at = bucket_of(key, newest.len());
    let older = newest[at];
    items.push(Keyed { key, item, older })?;
    newest[at] = Some(place);
    Ok(())
}
