// The names of the queue classes.
ghost use Rattle.std.specs.Prelude.{◌≡◌, ◌≢◌, ◌<◌, ◌≤◌, ◌++◌, ◌∷◌, [], length, All, IfSome, IsTrue, OnOk, OnErr, Some, option_map, slice_get};
ghost use Rattle.line_text.specs.Names.{is_name};
ghost use Rattle.play_text.specs.Names.{AreNames, HasClass, class_named, name_of, place_of};

use play_base::NoMemory;
use std::alloc::Global;
use std::marker::Model;

// How many hashes there are: four for each class.
const HASHES: usize = 1024;

// A hash of a name.
fn hash_of(name: &[u8]) -> usize
    ensures { result < 1024 }
{
    let mut hash = 0;
    for byte in name {
        hash = (hash * 31 + usize::from(*byte)) % HASHES;
    }
    hash
}

// A queue class and its name.
#[derive(Drop)]
struct Named {
    class: u32,
    name: String,
}

/// The queue classes of an interface in the order of its file, each with its name. Contracts see a list of pairs of a class and a
/// name, in which the classes rise.
#[derive(Drop)]
pub struct Names {
    entries: Vec<Named>,
    // By the hash of a name: where the entry with that hash was put last.
    by_hash: [u8; HASHES],
}

impl Model for Names {
    ghost use Rattle.play_text.specs.Names.{AreNames, NameList};

    ghost Value = { NameList };

    ghost use Rattle.play_text.specs.Named.{pairs_of};

    ghost view = { λ n. pairs_of n.entries.items };

    ghost invariant = { λ n. AreNames (pairs_of n.entries.items) };
}

impl Names {
    /// No class. Does not allocate.
    pub fn make(alloc: Global) -> Names
        ensures { result ≡ [] }
    {
        Names {
            entries: Vec::new(alloc),
            by_hash: [0; HASHES],
        }
    }

    /// Puts a queue class at the end, with the name that altq.conf(5) gives it: 1 to 64 letters, digits and `_`, `-`, `.`, `:`, `/`.
    /// The only error is lack of memory, and then nothing has changed. Costs the length of the name, and now and then a move of
    /// all entries.
    pub fn add(&mut self, class: u32, name: &str) -> Result<(), NoMemory>
        requires last { All (λ pair. pair.0 < class) self.old }
        requires named { IsTrue (is_name name.now) }
        requires fresh { All (λ pair. pair.1 ≢ name.now) self.old }
        requires room { length self.old < 256 }
        ensures added { OnOk result (self.new ≡ self.old ++ (class, name.now) ∷ []) }
        ensures kept { OnErr result (self.new ≡ self.old) }
    {
        let alloc = *self.entries.allocator();
        let at = self.entries.len() as u8;
        let hash = hash_of(name.as_bytes());
        let name = String::from_str(alloc, name)?;
        self.entries.push(Named { class, name })?;
        self.by_hash[hash] = at;
        Ok(())
    }

    /// How many classes there are, at most 256. Does not allocate, in constant time.
    pub fn len(&self) -> u32
        ensures count { result ≡ length self.now }
        ensures names { AreNames self.now }
    {
        self.entries.len() as u32
    }

    /// The place, from 0, at which a class stands; None exactly where it is not there. Does not allocate, in the time of a binary search.
    pub fn place(&self, class: u32) -> Option<u32>
        ensures { result ≡ place_of self.now class }
    {
        match self.search(class) {
            Some(at) => Some(at as u32),
            None => None,
        }
    }

    /// The class of a name; None exactly where no class has it. Does not allocate; compares the name with at most 257 others, mostly
    /// with one.
    pub fn class(&self, name: &[u8]) -> Option<u32>
        ensures { result ≡ class_named self.now name.now }
    {
        match self.class_by_hash(name) {
            Some(class) => Some(class),
            None => self.class_by_each(name),
        }
    }

    // The class of a name, if its entry is the one that was put last with its hash.
    fn class_by_hash(&self, name: &[u8]) -> Option<u32>
        ensures { IfSome result (λ class. class_named self.now name.now ≡ Some class) }
    {
        let at = usize::from(self.by_hash[hash_of(name)]);
        if at >= self.entries.len() {
            return None;
        }
        let named = &self.entries[at];
        if named.name.as_bytes() == name {
            Some(named.class)
        } else {
            None
        }
    }

    // The class of a name, which is compared with each entry's.
    fn class_by_each(&self, name: &[u8]) -> Option<u32>
        ensures { result ≡ class_named self.now name.now }
    {
        for named in &self.entries {
            if named.name.as_bytes() == name {
                return Some(named.class);
            }
        }
        None
    }

    // The name of a class.
    pub(crate) fn name(&self, class: u32) -> &str
        requires { HasClass self.now class }
        ensures name { result.now ≡ name_of self.now class }
        ensures short { length result.now ≤ 64 }
    {
        match self.search(class) {
            Some(at) => self.entries[at].name.as_str(),
            None => "",
        }
    }

    // The name of the class at a place.
    pub(crate) fn name_at(&self, place: usize) -> &str
        requires { place < length self.now }
        ensures { option_map (λ pair. pair.1) (slice_get self.now place) ≡ Some result.now }
    {
        self.entries[place].name.as_str()
    }

    // Where a class stands, if those before it follow one another without a gap from the first one on.
    #[inline]
    fn guess(&self, class: u32) -> Option<usize>
        ensures place { IfSome result (λ at. place_of self.now class ≡ Some at) }
        ensures few { IfSome result (λ at. at < 256) }
    {
        if self.entries.is_empty() {
            return None;
        }
        let at = class.saturating_sub(self.entries[0].class) as usize;
        if at < self.entries.len() && self.entries[at].class == class {
            Some(at)
        } else {
            None
        }
    }

    // Where a class stands: the classes rise, and mostly by one.
    fn search(&self, class: u32) -> Option<usize>
        ensures place { result ≡ place_of self.now class }
        ensures few { IfSome result (λ at. at < 256) }
    {
        if let Some(at) = self.guess(class) {
            return Some(at);
        }
        self.entries
            .binary_search_by_key(&class, |named| named.class)
            .ok()
    }
}
