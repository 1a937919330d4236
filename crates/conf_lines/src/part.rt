//! The parts that a statement has in a fixed order, as one table.
ghost use Rattle.std.specs.Prelude.{◌≡◌};
ghost use Rattle.conf_lines.specs.Parts.{parts_of, takes, reach, may_end};

use crate::options::Key;
use crate::slot::is_text;
use crate::statement::Form;

/// What a word is that must be there.
#[derive(Clone, Copy)]
pub(crate) enum Slot {
    /// A NAME.
    Name,
    /// The NAME of a parent, or `NULL`.
    Parent,
    /// `0`, or an IPv4 address.
    Address,
    /// `0`, or an IPv6 address with its prefix length.
    Address6,
    /// A port.
    Port,
    /// A protocol.
    Protocol,
    /// A class of assured forwarding.
    Af,
}

/// A part of a statement.
#[derive(Clone, Copy)]
pub(crate) enum Part {
    /// A word that is always there.
    Must(Slot),
    /// One of two options, which is always there.
    Either(Key, Key),
    /// An option.
    May(Key),
    /// An option that may stand only where the part before it does and is not the address `0`.
    Behind(Key),
}

/// The parts of a statement, in order.
pub(crate) fn parts_of(form: Form) -> &'static [Part]
    ensures { result.now ≡ parts_of form }
{
    match form {
        Form::Interface | Form::Unread => &[Part::Must(Slot::Name)],
        Form::ClassHfsc | Form::ClassCbq => &[
            Part::Must(Slot::Name),
            Part::Must(Slot::Name),
            Part::Must(Slot::Parent),
        ],
        Form::Filter => &[
            Part::Must(Slot::Name),
            Part::Must(Slot::Name),
            Part::May(Key::Name),
            Part::May(Key::Ruleno),
            Part::Must(Slot::Address),
            Part::Behind(Key::Netmask),
            Part::Must(Slot::Port),
            Part::Must(Slot::Address),
            Part::Behind(Key::Netmask),
            Part::Must(Slot::Port),
            Part::Must(Slot::Protocol),
            Part::May(Key::Tos),
            Part::Behind(Key::Tosmask),
        ],
        Form::Filter6 => &[
            Part::Must(Slot::Name),
            Part::Must(Slot::Name),
            Part::May(Key::Name),
            Part::May(Key::Ruleno),
            Part::Must(Slot::Address6),
            Part::Must(Slot::Port),
            Part::Must(Slot::Address6),
            Part::Must(Slot::Port),
            Part::Must(Slot::Protocol),
            Part::May(Key::Tclass),
            Part::Behind(Key::Tclassmask),
        ],
        Form::Conditioner => &[
            Part::Must(Slot::Name),
            Part::Must(Slot::Name),
            Part::Either(Key::Srtcm, Key::Trtcm),
            Part::Must(Slot::Af),
        ],
    }
}

/// Whether a word is read as a part; `stands` says whether the part before stands and is not the address `0`.
fn takes(stands: bool, part: Part, word: &[u8]) -> bool
    ensures { result ≡ takes stands part word.now }
{
    match part {
        Part::Must(_) | Part::Either(_, _) => true,
        Part::May(key) => is_text(key.word(), word),
        Part::Behind(key) => stands && is_text(key.word(), word),
    }
}

/// The parts from the one on that a word is read as: options with other words are past.
pub(crate) fn reach(stands: bool, parts: &'static [Part], word: &[u8]) -> &'static [Part]
    ensures { result.now ≡ reach stands parts.now word.now }
{
    let mut stands = stands;
    let mut left = parts;
    while let Some((part, behind)) = left.split_first() {
        if takes(stands, *part, word) {
            return left;
        }
        left = behind;
        stands = false;
    }
    left
}

/// Whether a statement may end where these parts are left: all are options.
pub(crate) fn may_end(parts: &[Part]) -> bool
    ensures { result ≡ may_end parts.now }
{
    for part in parts {
        if matches!(part, Part::Must(_) | Part::Either(_, _)) {
            return false;
        }
    }
    true
}
