//! What the words of a statement say.
ghost use Rattle.std.specs.Prelude.{◌≡◌, ℕ, List, string_bytes};

use crate::options::Key;
use std::marker::Model;

/// A text of its own: a name of an interface or a class. Contracts see it as the list of its bytes.
#[derive(Drop)]
pub struct Text {
    string: String,
}

impl Model for Text {
    ghost Value = { List ℕ };

    ghost view = { λ t. string_bytes t.string };
}

impl Text {
    /// The text of a string. Does not allocate.
    pub fn of(string: String) -> Text
        ensures { result ≡ string_bytes string }
    {
        Text { string }
    }

    /// Its bytes as a text. Does not allocate.
    pub fn as_str(&self) -> &str
        ensures { result.now ≡ self.now }
    {
        self.string.as_str()
    }
}

/// What one word says.
#[derive(Drop)]
pub enum What {
    /// The name of an interface or a class.
    Name(Text),
    /// The word of an option.
    Key(Key),
    /// A rate in bits per second.
    Rate(u64),
    /// A whole number; a protocol is one by its number, and a time is in milliseconds.
    Whole(u64),
    /// An IPv4 address, or its mask.
    Ip4([u8; 4]),
    /// An IPv6 address and its prefix length in bits.
    Ip6([u8; 16], u8),
    /// The address `0`, which every address agrees with.
    Any,
    /// The word of an option without effect.
    Skipped,
}

/// One read word behind those that say which statement it is.
#[derive(Drop)]
pub struct Item {
    /// The number of the word in its logical line, from 1.
    pub word: u64,
    /// What it says.
    pub what: What,
}

/// The items of a statement, in the order of their words. Contracts see them as a list.
#[derive(Drop)]
pub struct Items {
    items: Vec<Item>,
}

impl Model for Items {
    ghost use Rattle.std.specs.Prelude.{List};
    ghost use Rattle.conf_lines.specs.declared.item.Item.{Item};

    ghost Value = { List Item };

    ghost view = { λ i. i.items.items };
}

impl Items {
    /// The items of a vector. Does not allocate.
    pub fn of(items: Vec<Item>) -> Items
        ensures { result ≡ items.items }
    {
        Items { items }
    }

    /// The items, in order. Does not allocate.
    pub fn as_slice(&self) -> &[Item]
        ensures { result.now ≡ self.now }
    {
        self.items.as_slice()
    }
}
