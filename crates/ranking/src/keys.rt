//! The keys of classes, from a first class on.
ghost use Rattle.std.specs.Prelude.{◌≡◌, ◌≤◌, ◌<◌, length, IfOk};
ghost use Rattle.ranking.specs.Order.{key_of};
ghost use Rattle.ranking.specs.Keys.{AreSame, IsSet, all_keys};

use play_base::NoMemory;
use std::alloc::Global;

/// A key for each of some classes in a row. Those before the first have none.
#[derive(Debug, Drop)]
pub struct Keys {
    first: u32,
    items: Vec<Option<u128>>,
}

impl Keys {
    /// The same key for `classes` classes from `first` on.
    pub fn reserve(
        alloc: Global,
        first: u32,
        classes: u32,
        key: Option<u128>,
    ) -> Result<Keys, NoMemory>
        ensures { IfOk result (AreSame first classes key) }
    {
        let items = vec![in alloc; key; classes as usize]?;
        Ok(Keys { first, items })
    }

    /// The key of a class.
    #[inline(always)]
    pub fn get(&self, class: u32) -> Option<u128>
        ensures { result ≡ key_of (all_keys self.now) class }
    {
        if class < self.first {
            return None;
        }
        match self.items.get((class - self.first) as usize) {
            None => None,
            Some(key) => *key,
        }
    }

    /// Gives a class a key.
    #[inline(always)]
    pub fn set(&mut self, class: u32, key: Option<u128>)
        requires from { self.old.first ≤ class }
        requires room { class < length (all_keys self.old) }
        ensures { IsSet class key self.old self.new }
    {
        let place = (class - self.first) as usize;
        self.items[place] = key;
    }
}
