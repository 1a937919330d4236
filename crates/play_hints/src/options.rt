// Which option a word belongs to, by the table of options.

use conf_lines::{Key, MOST_AF, MOST_BEND, MOST_BURST, MOST_RATE, Slots};
use line_text::{Token, rate};

// The options with something behind them.
const KEYS: [Key; 23] = [
    Key::Bandwidth,
    Key::Exactbandwidth,
    Key::Tbrsize,
    Key::Sc,
    Key::Rt,
    Key::Ls,
    Key::Ul,
    Key::Pshare,
    Key::Grate,
    Key::Priority,
    Key::Pbandwidth,
    Key::Maxburst,
    Key::Packetsize,
    Key::Qlimit,
    Key::Ruleno,
    Key::Netmask,
    Key::Tos,
    Key::Tosmask,
    Key::Tclass,
    Key::Tclassmask,
    Key::Admission,
    Key::Srtcm,
    Key::Trtcm,
];

// What stands behind the word at a place of a line; none where it is no option with something behind it.
fn slots_at(words: &[Token], at: usize) -> Option<Slots> {
    let word = words.get(at)?;
    for key in &KEYS {
        if key.word().as_bytes() == word.parts {
            return Some(key.slots());
        }
    }
    None
}

// The slot at a place behind an option's word, 1 being the next word: a rate or a whole number, with its bounds, or another.
fn slot_behind(slots: Slots, back: usize) -> Slots {
    match (slots, back) {
        (Slots::Rate(_, _) | Slots::Whole(_, _), 1) => slots,
        (Slots::Curve(low, _), 1) | (Slots::Curve(_, low), 3) => Slots::Rate(low, MOST_RATE),
        (Slots::Curve(_, _), 2) => Slots::Whole(0, MOST_BEND),
        (Slots::Single | Slots::Two, 1) | (Slots::Two, 3) => Slots::Rate(1000, MOST_RATE),
        (Slots::Single | Slots::Two, 2) | (Slots::Two, 4) => Slots::Whole(1, MOST_BURST),
        (Slots::Single, 3) => Slots::Whole(0, MOST_BURST),
        (Slots::Single, 4) | (Slots::Two, 5) => Slots::Whole(1, MOST_AF),
        _ => Slots::Nothing,
    }
}

// The slot of the word at a place of a line, by the nearest option before it. A committed rate is at most the peak rate, two words
// before it.
pub(crate) fn slot_at(words: &[Token], at: usize) -> Slots {
    for back in 1usize..=5 {
        match (slots_at(words, at.wrapping_sub(back)), back) {
            (Some(Slots::Two), 3) => return Slots::Rate(1000, peak_rate(words, at.wrapping_sub(2))),
            (Some(slots), _) => return slot_behind(slots, back),
            (None, _) => {}
        }
    }
    Slots::Nothing
}

// The rate at a place of a line, or the greatest rate.
fn peak_rate(words: &[Token], at: usize) -> u64 {
    match words.get(at) {
        Some(word) => rate(word).unwrap_or(MOST_RATE),
        None => MOST_RATE,
    }
}
