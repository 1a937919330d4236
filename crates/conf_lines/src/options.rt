//! The options of the statements, as one table.
ghost use Rattle.std.specs.Prelude.{◌≡◌, ◌∷◌, []};
ghost use Rattle.conf_lines.specs.Options.{most_rate, most_bend, most_ruleno, most_port, most_protocol, most_tos, most_burst, most_af, word_of_key, slots_of, completes, options_of, one_of, option_of};

use crate::slot::is_text;
use crate::statement::Form;

/// The greatest rate, in bits per second.
pub const MOST_RATE: u64 = 1_000_000_000_000;

/// The greatest bend of a curve, in milliseconds.
pub const MOST_BEND: u64 = 1_000_000;

/// The greatest rule number of a filter.
pub const MOST_RULENO: u64 = 4_294_967_295;

/// The greatest port.
pub const MOST_PORT: u64 = 65_535;

/// The greatest protocol number.
pub const MOST_PROTOCOL: u64 = 255;

/// The greatest type of service or traffic class, and mask of one.
pub const MOST_TOS: u64 = 255;

/// The greatest burst of a conditioner, in bytes.
pub const MOST_BURST: u64 = 1_073_741_824;

/// The greatest class of assured forwarding.
pub const MOST_AF: u64 = 4;

/// What stands behind the word of an option.
#[derive(Clone, Copy)]
pub enum Slots {
    /// Nothing.
    Nothing,
    /// A WORD without effect.
    Word,
    /// A RATE of at least the first number and at most the second.
    Rate(u64, u64),
    /// A WHOLE of at least the first number and at most the second.
    Whole(u64, u64),
    /// A curve, RATE WHOLE RATE, with the least of its first and of its second slope.
    Curve(u64, u64),
    /// A mask of an IPv4 address.
    Mask,
    /// A meter of one rate, RATE WHOLE WHOLE: its rate, its burst and its excess burst.
    Single,
    /// A meter of two rates, RATE WHOLE RATE WHOLE: its peak rate and burst, and its committed rate and burst.
    Two,
}

/// The words of options, one for each word of altq.conf(5) that this profile reads.
#[derive(Clone, Copy)]
pub enum Key {
    Bandwidth,
    Tbrsize,
    Hfsc,
    Cbq,
    Efficient,
    CbqWrr,
    Sc,
    Rt,
    Ls,
    Ul,
    Pshare,
    Grate,
    Qlimit,
    Red,
    Ecn,
    Rio,
    Cleardscp,
    Admission,
    Default,
    Priority,
    Pbandwidth,
    Exactbandwidth,
    Borrow,
    Control,
    Maxburst,
    Packetsize,
    Name,
    Ruleno,
    Netmask,
    Tos,
    Tosmask,
    Tclass,
    Tclassmask,
    Srtcm,
    Trtcm,
}

impl Key {
    /// Its word in altq.conf(5).
    pub fn word(self) -> &'static str
        ensures { result.now ≡ word_of_key self }
    {
        match self {
            Key::Bandwidth => "bandwidth",
            Key::Tbrsize => "tbrsize",
            Key::Hfsc => "hfsc",
            Key::Cbq => "cbq",
            Key::Efficient => "efficient",
            Key::CbqWrr => "cbq-wrr",
            Key::Sc => "sc",
            Key::Rt => "rt",
            Key::Ls => "ls",
            Key::Ul => "ul",
            Key::Pshare => "pshare",
            Key::Grate => "grate",
            Key::Priority => "priority",
            Key::Pbandwidth => "pbandwidth",
            Key::Exactbandwidth => "exactbandwidth",
            Key::Borrow => "borrow",
            Key::Control => "control",
            Key::Maxburst => "maxburst",
            Key::Packetsize => "packetsize",
            Key::Qlimit => "qlimit",
            Key::Red => "red",
            Key::Ecn => "ecn",
            Key::Rio => "rio",
            Key::Cleardscp => "cleardscp",
            Key::Admission => "admission",
            Key::Default => "default",
            Key::Name => "name",
            Key::Ruleno => "ruleno",
            Key::Netmask => "netmask",
            Key::Tos => "tos",
            Key::Tosmask => "tosmask",
            Key::Tclass => "tclass",
            Key::Tclassmask => "tclassmask",
            Key::Srtcm => "srtcm",
            Key::Trtcm => "trtcm",
        }
    }

    /// What stands behind its word.
    pub fn slots(self) -> Slots
        ensures { result ≡ slots_of self }
    {
        match self {
            Key::Bandwidth | Key::Exactbandwidth => Slots::Rate(1000, MOST_RATE),
            Key::Tbrsize | Key::Admission | Key::Name => Slots::Word,
            Key::Sc | Key::Ls => Slots::Curve(0, 1),
            Key::Rt => Slots::Curve(0, 0),
            Key::Ul => Slots::Curve(1000, 1000),
            Key::Pshare => Slots::Whole(1, 100),
            Key::Grate => Slots::Rate(0, MOST_RATE),
            Key::Priority => Slots::Whole(0, 7),
            Key::Pbandwidth => Slots::Whole(0, 100),
            Key::Maxburst => Slots::Whole(1, 1000),
            Key::Packetsize => Slots::Whole(1, 262_144),
            Key::Qlimit => Slots::Whole(1, 10_000),
            Key::Ruleno => Slots::Whole(0, MOST_RULENO),
            Key::Netmask => Slots::Mask,
            Key::Tos | Key::Tosmask | Key::Tclass | Key::Tclassmask => Slots::Whole(0, MOST_TOS),
            Key::Srtcm => Slots::Single,
            Key::Trtcm => Slots::Two,
            _ => Slots::Nothing,
        }
    }

    /// Whether a statement has by it what it must have at its end.
    pub(crate) fn completes(self) -> bool
        ensures { result ≡ completes self }
    {
        matches!(
            self,
            Key::Hfsc
                | Key::Cbq
                | Key::Sc
                | Key::Ls
                | Key::Pshare
                | Key::Pbandwidth
                | Key::Exactbandwidth
        )
    }
}

/// The options of a statement.
fn options_of(form: Form) -> &'static [Key]
    ensures { result.now ≡ options_of form }
{
    match form {
        Form::Interface => &[
            Key::Bandwidth,
            Key::Tbrsize,
            Key::Hfsc,
            Key::Cbq,
            Key::Efficient,
            Key::CbqWrr,
        ],
        Form::ClassHfsc => &[
            Key::Sc,
            Key::Rt,
            Key::Ls,
            Key::Ul,
            Key::Pshare,
            Key::Grate,
            Key::Qlimit,
            Key::Red,
            Key::Ecn,
            Key::Rio,
            Key::Cleardscp,
            Key::Admission,
            Key::Default,
        ],
        Form::ClassCbq => &[
            Key::Priority,
            Key::Pbandwidth,
            Key::Exactbandwidth,
            Key::Borrow,
            Key::Control,
            Key::Maxburst,
            Key::Packetsize,
            Key::Qlimit,
            Key::Red,
            Key::Ecn,
            Key::Rio,
            Key::Cleardscp,
            Key::Admission,
            Key::Default,
        ],
        _ => &[],
    }
}

/// The option of a statement that a word names.
pub(crate) fn option_of(form: Form, word: &[u8]) -> Option<Key>
    ensures { result ≡ option_of form word.now }
{
    for key in options_of(form) {
        if is_text(key.word(), word) {
            return Some(*key);
        }
    }
    None
}

/// Which of two options a word names.
pub(crate) fn one_of(first: Key, second: Key, word: &[u8]) -> Option<Key>
    ensures { result ≡ one_of (first ∷ second ∷ []) word.now }
{
    if is_text(first.word(), word) {
        Some(first)
    } else if is_text(second.word(), word) {
        Some(second)
    } else {
        None
    }
}
