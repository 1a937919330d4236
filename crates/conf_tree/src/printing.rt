//! How a line of the canonical text is written.
ghost use Rattle.std.specs.Prelude.{◌≡◌, ◌+◌, ◌*◌, ◌<◌, ◌++◌, IfOk, OnOk, codes, map, string_bytes};
ghost use Rattle.conf_tree.specs.Printed.{ip4_word, group, groups, ip6_word, word_of, rest_of};

use conf_lines::What;
use std::alloc::{AllocError, Global};

fn ip4_word(alloc: Global, address: &[u8; 4]) -> Result<String, AllocError>
    ensures { IfOk result (λ word. string_bytes word ≡ ip4_word address.now) }
{
    let a = address[0];
    let b = address[1];
    let c = address[2];
    let d = address[3];
    format!(in alloc; "{a}.{b}.{c}.{d}")
}

/// A group of an IPv6 address, from 0 to 7.
fn group(address: &[u8; 16], number: usize) -> u16
    requires { number < 8 }
    ensures { result ≡ group address.now number }
{
    let upper = address[2 * number];
    let lower = address[2 * number + 1];
    u16::from(upper) * 256 + u16::from(lower)
}

/// Four groups of an IPv6 address, from one on.
fn groups(alloc: Global, address: &[u8; 16], from: usize) -> Result<String, AllocError>
    requires { from < 5 }
    ensures { IfOk result (λ words. string_bytes words ≡ groups address.now from) }
{
    let a = group(address, from);
    let b = group(address, from + 1);
    let c = group(address, from + 2);
    let d = group(address, from + 3);
    format!(in alloc; "{a:x}:{b:x}:{c:x}:{d:x}")
}

fn ip6_word(alloc: Global, address: &[u8; 16]) -> Result<String, AllocError>
    ensures { IfOk result (λ word. string_bytes word ≡ ip6_word address.now) }
{
    let front = groups(alloc, address, 0)?;
    let back = groups(alloc, address, 4)?;
    format!(in alloc; "{front}:{back}")
}

/// The word that says something.
fn word_of(alloc: Global, what: &What) -> Result<String, AllocError>
    ensures { IfOk result (λ word. string_bytes word ≡ word_of what.now) }
{
    match what {
        What::Name(name) => String::from_str(alloc, name.as_str()),
        What::Key(key) => String::from_str(alloc, key.word()),
        What::Rate(n) => format!(in alloc; "{n}"),
        What::Whole(n) => format!(in alloc; "{n}"),
        What::Ip4(address) => ip4_word(alloc, address),
        What::Ip6(address, bits) => {
            let word = ip6_word(alloc, address)?;
            format!(in alloc; "{word}/{bits}")
        }
        What::Any => String::from_str(alloc, "0"),
        What::Skipped => Ok(String::new(alloc)),
    }
}

/// Writes the words that say these, each behind a space; the line feed behind them is left out.
fn push_words(alloc: Global, out: &mut String, whats: &[What]) -> Result<(), AllocError>
    ensures { OnOk result (string_bytes out.new ++ codes "\n" ≡ string_bytes out.old ++ rest_of (map word_of whats.now)) }
{
    for what in whats {
        out.push_str(" ")?;
        out.push_str(word_of(alloc, what)?.as_str())?;
    }
    Ok(())
}

/// Writes a line: its first words, and then the words that say these.
pub(crate) fn push_line(
    alloc: Global,
    out: &mut String,
    first: &str,
    whats: &[What],
) -> Result<(), AllocError>
    ensures { OnOk result (string_bytes out.new ≡ string_bytes out.old ++ (first.now ++ rest_of (map word_of whats.now))) }
{
    out.push_str(first)?;
    push_words(alloc, out, whats)?;
    out.push_str("\n")
}
