//! What a word leads to from a place of a statement.
ghost use Rattle.std.specs.Prelude.{◌≡◌, ◌||◌, Ok, IfOk, true};
ghost use Rattle.conf_lines.specs.Grammar.{seen, step, at_statement, at_discipline, at_parent, at_part, filled, took, chosen, at_slope, at_bend, at_last_slope, at_pir, behind_option, refused, begins, says, leads, reads, as_read, end, Gives, Fails};
ghost use Rattle.conf_lines.specs.Options.{option_of, most_rate, most_bend};
ghost use Rattle.conf_lines.specs.Parts.{reach};
ghost use Rattle.line_text.specs.Names.{is_name};
ghost use Rattle.conf_lines.specs.Slots.{rate_in, whole_in, name_in, is_text};
ghost use Rattle.conf_lines.specs.declared.item.What.TheVariants as what;

use crate::fault::ConfKind;
use crate::grammar::{Next, Place, Refusal, Step};
use crate::item::{Text, What};
use crate::options::{
    Key, MOST_AF, MOST_BEND, MOST_BURST, MOST_PORT, MOST_RATE, Slots, one_of, option_of,
};
use crate::part::{Part, Slot, may_end, parts_of, reach};
use crate::slot::{
    address_in, address6_in, are_plain, is_name, is_text, mask_in, protocol_in, rate_in,
    skipped_in, whole_in,
};
use crate::statement::Form;
use line_text::Token;
use std::alloc::{AllocError, Global};

/// A word that says something, and then another is next. No mask may stand behind the address `0`.
fn says(what: What, place: Place, next: Next) -> Step
    ensures { Gives (Ok result) (says what (seen place) next) }
{
    let stands = !matches!(what, What::Any);
    Step {
        what: Some(what),
        after: Place {
            next,
            stands,
            ..place
        },
    }
}

/// The refusal of a word that is not allowed at its place.
fn refused(word: &Token) -> Result<Step, Refusal>
    ensures { Gives result (refused word.now.parts.now) }
{
    if are_plain(word.parts) {
        Err(Refusal::Kind(ConfKind::UnknownWord))
    } else {
        Err(Refusal::Kind(ConfKind::BadByte))
    }
}

/// A word that only says which statement it is. A filter and a conditioner have nothing to have besides their parts.
fn begins(form: Form, next: Next) -> Result<Step, Refusal>
    ensures { Gives result (begins form next) }
{
    Ok(Step {
        what: None,
        after: Place {
            form,
            next,
            parts: parts_of(form),
            stands: true,
            completed: matches!(form, Form::Filter | Form::Filter6 | Form::Conditioner),
        },
    })
}

/// A word that was read, and then another is next.
fn leads(read: Result<What, ConfKind>, place: Place, next: Next) -> Result<Step, Refusal>
    ensures { Gives result (leads read (seen place) next) }
{
    match read {
        Ok(what) => Ok(says(what, place, next)),
        Err(kind) => Err(Refusal::Kind(kind)),
    }
}

/// A word that was read, and then a part is next.
fn reads(read: Result<What, ConfKind>, place: Place) -> Result<Step, Refusal>
    ensures { Gives result (reads read (seen place)) }
{
    leads(read, place, Next::Part)
}

#[tactic(auto, unfolding(crate::specs::Grammar::at_statement))]
fn at_statement(word: &Token) -> Result<Step, Refusal>
    ensures { Gives result (at_statement word.now.parts.now) }
{
    if is_text("interface", word.parts) {
        begins(Form::Interface, Next::Part)
    } else if is_text("class", word.parts) {
        begins(Form::Unread, Next::Discipline)
    } else if is_text("filter", word.parts) {
        begins(Form::Filter, Next::Part)
    } else if is_text("filter6", word.parts) {
        begins(Form::Filter6, Next::Part)
    } else if is_text("conditioner", word.parts) {
        begins(Form::Conditioner, Next::Part)
    } else {
        refused(word)
    }
}

#[tactic(auto, unfolding(crate::specs::Grammar::at_discipline))]
fn at_discipline(word: &Token) -> Result<Step, Refusal>
    ensures { Gives result (at_discipline word.now.parts.now) }
{
    if is_text("hfsc", word.parts) {
        begins(Form::ClassHfsc, Next::Part)
    } else if is_text("cbq", word.parts) {
        begins(Form::ClassCbq, Next::Part)
    } else {
        refused(word)
    }
}

/// What is next behind the word of an option.
fn behind_option(slots: Slots) -> Next
    ensures { result ≡ behind_option slots }
{
    match slots {
        Slots::Nothing => Next::Part,
        Slots::Word => Next::Skipped,
        Slots::Rate(low, high) => Next::Rate(low, high),
        Slots::Whole(low, high) => Next::Whole(low, high),
        Slots::Curve(low, least) => Next::Slope(low, least),
        Slots::Mask => Next::Mask,
        Slots::Single => Next::Cir,
        Slots::Two => Next::Pir,
    }
}

/// The word of an option.
fn took(key: Key, place: Place) -> Step
    ensures { Gives (Ok result) (took key (seen place)) }
{
    let completed = place.completed || key.completes();
    says(
        What::Key(key),
        Place { completed, ..place },
        behind_option(key.slots()),
    )
}

/// An option, or a word that the statement does not have at its place.
fn chosen(place: Place, word: &Token, option: Option<Key>) -> Result<Step, Refusal>
    ensures { Gives result (chosen (seen place) word.now.parts.now option) }
{
    match option {
        None => refused(word),
        Some(key) => Ok(took(key, place)),
    }
}

fn at_slope(low: u64, least: u64, place: Place, word: &Token) -> Result<Step, Refusal>
    ensures { Gives result (at_slope least (rate_in low most_rate word.now.parts.now) (seen place)) }
{
    match rate_in(low, MOST_RATE, word) {
        Ok(first) => Ok(says(What::Rate(first), place, Next::Bend(least, first))),
        Err(kind) => Err(Refusal::Kind(kind)),
    }
}

fn at_bend(least: u64, first: u64, place: Place, word: &Token) -> Result<Step, Refusal>
    ensures { Gives result (at_bend least (whole_in 0 most_bend word.now.parts.now) (seen place) first) }
{
    match whole_in(0, MOST_BEND, word) {
        Ok(time) => Ok(says(
            What::Whole(time),
            place,
            Next::LastSlope(least, first, time),
        )),
        Err(kind) => Err(Refusal::Kind(kind)),
    }
}

fn at_last_slope(
    least: u64,
    first: u64,
    time: u64,
    place: Place,
    word: &Token,
) -> Result<Step, Refusal>
    ensures { Gives result (at_last_slope first time (rate_in least most_rate word.now.parts.now) (seen place)) }
{
    match rate_in(least, MOST_RATE, word) {
        Ok(last) => {
            if time > 0 && first > 0 && first < last {
                return Err(Refusal::Kind(ConfKind::ConvexFirst));
            }
            Ok(says(What::Rate(last), place, Next::Part))
        }
        Err(kind) => Err(Refusal::Kind(kind)),
    }
}

/// The peak rate of a meter of two rates, and then its burst is next.
fn at_pir(place: Place, word: &Token) -> Result<Step, Refusal>
    ensures { Gives result (at_pir (rate_in 1000 most_rate word.now.parts.now) (seen place)) }
{
    match rate_in(1000, MOST_RATE, word) {
        Ok(pir) => Ok(says(What::Rate(pir), place, Next::Pbs(pir))),
        Err(kind) => Err(Refusal::Kind(kind)),
    }
}

/// A NAME, and then a part is next.
#[tactic(auto, unfolding(crate::specs::Slots::name_in))]
fn named(alloc: Global, place: Place, word: &Token) -> Result<Step, Refusal>
    ensures { Gives result (reads (name_in word.now.parts.now) (seen place)) }
{
    if !is_name(word.parts) {
        return Err(Refusal::Kind(ConfKind::BadByte));
    }
    match text_of(alloc, word.parts) {
        Ok(text) => Ok(says(What::Name(text), place, Next::Part)),
        Err(AllocError) => Err(Refusal::NoMemory),
    }
}

/// A NAME as a text of its own.
fn text_of(alloc: Global, name: &[u8]) -> Result<Text, AllocError>
    requires { is_name name.now ≡ true }
    ensures { IfOk result (λ text. text ≡ name.now) }
{
    let mut string = String::new(alloc);
    for byte in name {
        string.push(char::from(*byte))?;
    }
    Ok(Text::of(string))
}

/// The NAME of a parent: with `NULL` the class is the root, which has what it must have.
#[tactic(auto, unfolding(crate::specs::Grammar::at_parent))]
fn at_parent(alloc: Global, place: Place, word: &Token) -> Result<Step, Refusal>
    ensures { Gives result (at_parent (seen place) word.now.parts.now) }
{
    let completed = place.completed || is_text("NULL", word.parts);
    named(alloc, Place { completed, ..place }, word)
}

/// A word that must be there.
fn filled(alloc: Global, slot: Slot, place: Place, word: &Token) -> Result<Step, Refusal>
    ensures { Gives result (filled slot (seen place) word.now.parts.now) }
{
    match slot {
        Slot::Name => named(alloc, place, word),
        Slot::Parent => at_parent(alloc, place, word),
        Slot::Address => reads(address_in(word), place),
        Slot::Address6 => reads(address6_in(word), place),
        Slot::Port => reads(whole_in(0, MOST_PORT, word).map(What::Whole), place),
        Slot::Protocol => reads(protocol_in(word).map(What::Whole), place),
        Slot::Af => reads(whole_in(1, MOST_AF, word).map(What::Whole), place),
    }
}

/// The first part that the word is read as, or behind the parts an option.
fn at_part(alloc: Global, place: Place, word: &Token) -> Result<Step, Refusal>
    ensures { Gives result (at_part (reach place.stands place.parts.now word.now.parts.now) (seen place) word.now.parts.now) }
{
    let left = reach(place.stands, place.parts, word.parts);
    match left.split_first() {
        None => {
            let place = Place {
                parts: left,
                ..place
            };
            chosen(place, word, option_of(place.form, word.parts))
        }
        Some((part, parts)) => {
            let place = Place { parts, ..place };
            match *part {
                Part::Must(slot) => filled(alloc, slot, place, word),
                Part::Either(first, second) => {
                    chosen(place, word, one_of(first, second, word.parts))
                }
                Part::May(key) | Part::Behind(key) => Ok(took(key, place)),
            }
        }
    }
}

/// What a word leads to from a place.
#[tactic(auto, unfolding(crate::specs::Grammar::step))]
pub(crate) fn step(alloc: Global, place: Place, word: &Token) -> Result<Step, Refusal>
    ensures { Gives result (step (seen place) word.now.parts.now) }
{
    match place.next {
        Next::Statement => at_statement(word),
        Next::Discipline => at_discipline(word),
        Next::Part => at_part(alloc, place, word),
        Next::Skipped => reads(skipped_in(word), place),
        Next::Rate(low, high) => reads(rate_in(low, high, word).map(What::Rate), place),
        Next::Whole(low, high) => reads(whole_in(low, high, word).map(What::Whole), place),
        Next::Mask => reads(mask_in(word), place),
        Next::Slope(low, least) => at_slope(low, least, place, word),
        Next::Bend(least, first) => at_bend(least, first, place, word),
        Next::LastSlope(least, first, time) => at_last_slope(least, first, time, place, word),
        Next::Cir => leads(
            rate_in(1000, MOST_RATE, word).map(What::Rate),
            place,
            Next::Cbs,
        ),
        Next::Cbs => leads(
            whole_in(1, MOST_BURST, word).map(What::Whole),
            place,
            Next::Whole(0, MOST_BURST),
        ),
        Next::Pir => at_pir(place, word),
        Next::Pbs(pir) => leads(
            whole_in(1, MOST_BURST, word).map(What::Whole),
            place,
            Next::CirBelow(pir),
        ),
        Next::CirBelow(pir) => leads(
            rate_in(1000, pir, word).map(What::Rate),
            place,
            Next::Whole(1, MOST_BURST),
        ),
    }
}

/// The kind of the fault of a statement that ends at a place, if it may not end there.
#[tactic(auto, unfolding(crate::specs::Grammar::end))]
pub(crate) fn end(place: Place) -> Option<ConfKind>
    ensures { result ≡ end (seen place) }
{
    match place.next {
        Next::Part if !may_end(place.parts) => Some(ConfKind::MissingWord),
        Next::Part if place.completed => None,
        Next::Part if matches!(place.form, Form::ClassHfsc) => Some(ConfKind::NoShare),
        _ => Some(ConfKind::MissingWord),
    }
}
