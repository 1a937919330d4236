// What is wrong with a statement, in a few words, and how it is written.

use conf_lines::{ConfKind, Slots};
use line_text::Token;

// The word at a place of a line, or no bytes.
pub(crate) fn word_at<'a>(words: &[Token<'a>], at: usize) -> &'a [u8] {
    match words.get(at) {
        Some(word) => word.parts,
        None => b"",
    }
}

// A first and a second word of a line, no text for any word, and what to say of that line.
pub(crate) type Row = (&'static str, &'static str, &'static str);

// How the statements are written.
pub(crate) const STATEMENTS: [Row; 8] = [
    (
        "interface",
        "",
        "interface NAME [bandwidth RATE] hfsc, or cbq",
    ),
    (
        "class",
        "cbq",
        "class cbq INTERFACE NAME PARENT [priority N] pbandwidth PERCENT [borrow] [qlimit N] [red | ecn | rio] [default]",
    ),
    (
        "class",
        "hfsc",
        "class hfsc INTERFACE NAME PARENT [sc | rt | ls | ul M1 D M2] [pshare PERCENT] [qlimit N] [red | ecn | rio] [default]",
    ),
    ("class", "", "class hfsc, or class cbq"),
    (
        "filter6",
        "",
        "filter6 INTERFACE CLASS [ruleno N] DST[/BITS] DPORT SRC[/BITS] SPORT PROTO",
    ),
    (
        "filter",
        "",
        "filter INTERFACE CLASS [ruleno N] DST [netmask M] DPORT SRC [netmask M] SPORT PROTO",
    ),
    (
        "conditioner",
        "",
        "conditioner INTERFACE CLASS srtcm CIR CBS EBS AF, or trtcm PIR PBS CIR CBS AF",
    ),
    ("", "", "interface, class, filter, filter6 or conditioner"),
];

const OF_PF: &str = " this is pf.conf: see docs/operators/PF-TC.md";

const OF_TC: &str = " this is of tc: see docs/operators/PF-TC.md";

// The words that begin a line of pf.conf, and one of tc.
pub(crate) const FOREIGN: [Row; 11] = [
    ("altq", "", OF_PF),
    ("queue", "", OF_PF),
    ("pass", "", OF_PF),
    ("block", "", OF_PF),
    ("match", "", OF_PF),
    ("set", "", OF_PF),
    ("scrub", "", OF_PF),
    ("table", "", OF_PF),
    ("tc", "", OF_TC),
    ("qdisc", "", OF_TC),
    ("", "", ""),
];

// What the first row that fits says of a line.
pub(crate) fn row_of(rows: &[Row], words: &[Token]) -> &'static str {
    let (one, two) = (word_at(words, 0), word_at(words, 1));
    for (first, second, said) in rows {
        let is_first = first.is_empty() || first.as_bytes() == one;
        if is_first && (second.is_empty() || second.as_bytes() == two) {
            return *said;
        }
    }
    ""
}

// What is wrong, and what to write, by the kind of a fault and the words of its line, where it stands at the word with this place, in
// this slot. In this form `%` is how the statement is written, and `#` a bound of the slot.
pub(crate) fn fault_form(kind: ConfKind, words: &[Token], at: usize, slot: Slots) -> &'static str {
    match (kind, slot) {
        (ConfKind::UnknownWord, _) if at == 0 => "no statement: %",
        (ConfKind::UnknownWord, _) => "not known here: %",
        (ConfKind::MissingWord, _) => "the line ends too early: %",
        (ConfKind::BadNumber, Slots::Rate(_, _)) => "a rate is digits and K, M or G, as 10M",
        (ConfKind::BadNumber, Slots::Whole(_, _)) =>
            "no number that may stand here: digits, # to #",
        (ConfKind::BadNumber, _) =>
            "no number that may stand here: a port is 0 to 65535, a protocol 0 to 255, icmp, tcp or udp",
        (ConfKind::RateRange, Slots::Rate(_, _)) => "out of range: # to # bits per second",
        (ConfKind::RateRange, _) =>
            "less than 1000 bits per second: more percent, or exactbandwidth",
        (ConfKind::BadAddress, _) if word_at(words, 0) == b"filter6".as_slice() => {
            "no address: one of IPv6, as fe80::1/64, or 0 for any"
        }
        (ConfKind::BadAddress, _) => "no address: a.b.c.d, then netmask a.b.c.d, or 0 for any",
        (ConfKind::BadByte, _) => bad_byte(word_at(words, at)),
        (ConfKind::WrongDiscipline, _) if word_at(words, 1) == b"cbq".as_slice() => {
            "an interface of hfsc: class hfsc"
        }
        (ConfKind::WrongDiscipline, _) => "an interface of cbq: class cbq",
        (ConfKind::TooLong, _) =>
            "the line has more than 4096 bytes: several statements, or shorter names",
        (ConfKind::InterfaceTwice, _) =>
            "an interface of this name stands above: one statement with all options, or another name",
        (ConfKind::NoInterface, _) =>
            "no interface of this name above: put its interface line first",
        (ConfKind::NameTaken, _) => "a class of this name stands above: another name",
        (ConfKind::NoParent, _) =>
            "no class of this name above: put the parent first, or NULL for the root",
        (ConfKind::TwoRoots, _) => "a second root: name the root as the parent",
        (ConfKind::TooDeep, _) => "on level 9 of 8: put the class higher up",
        (ConfKind::TooManyClasses, _) => "the 257th class of its interface: 256 at most",
        (ConfKind::TooManyFilters, _) => "the 1025th filter of its interface: 1024 at most",
        (ConfKind::TooManyInterfaces, _) => "the 17th interface: 16 at most",
        (ConfKind::ConvexFirst, _) =>
            "the curve begins slowly and then rises: m1 is 0, or at least m2",
        (ConfKind::NoShare, _) => "no link-sharing curve: add sc, ls or pshare",
        (ConfKind::RealTimeInside, _) =>
            "a parent with a real-time curve: leave rt and grate out of it",
        (ConfKind::InnerQueue, _) =>
            "a class with children holds no packets: filters, conditioners and default name classes without children",
        (ConfKind::TwoDefaults, _) => "a second default: leave one of the two out",
        (ConfKind::NoDefault, _) =>
            "no class has default: add it to the class for what no filter matches",
        (ConfKind::NoClass, _) => "no class of this name above: put its class line first",
        (ConfKind::ConditionerTwice, _) =>
            "the class has a conditioner above: leave one of the two out",
    }
}

// What is wrong with a word that has a byte that may not be.
fn bad_byte(word: &[u8]) -> &'static str {
    for byte in word {
        if *byte <= 32 || *byte >= 127 {
            return "a byte that is no printable ASCII character: letters, digits and _ - . : /";
        }
    }
    "no name: 1 to 64 letters, digits and _ - . : /"
}
