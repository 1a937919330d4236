// A packet, from the words of a line.

use crate::changes::add;
use crate::words::{number, word};
use line_text::{Token, ip4, ip6};
use std::alloc::Global;

/// A packet that arrives.
#[derive(Clone, Copy)]
pub struct Packet<'a> {
    pub len: u32,
    pub times: u32,
    captured: Option<u32>,
    vlan: Option<u32>,
    tos: u32,
    sum: u32,
    heads: Heads<'a>,
}

// What stands in the frame: nothing, ARP, these digits, or a flow.
#[derive(Clone, Copy)]
enum Heads<'a> {
    None,
    Arp,
    Given(&'a str),
    Flow(&'a str, &'a str, &'a str),
}

// The addresses of Ethernet.
const LINK: [u8; 12] = [2, 0, 0, 0, 0, 2, 2, 0, 0, 0, 0, 1];

#[derive(Clone, Copy)]
enum Address {
    V4([u8; 4]),
    V6([u8; 16]),
}

fn protocol_of(text: &str) -> Option<u8> {
    match text {
        "icmp" => Some(1),
        "tcp" => Some(6),
        "udp" => Some(17),
        "icmp6" => Some(58),
        _ => u8::try_from(number(text)?).ok(),
    }
}

fn address_of(text: &str) -> Option<Address> {
    let word = Token {
        index: 1,
        parts: text.as_bytes(),
    };
    match ip4(&word) {
        Some(address) => Some(Address::V4(address)),
        None => Some(Address::V6(ip6(&word)?)),
    }
}

fn is_4(address: Address) -> bool {
    matches!(address, Address::V4(_))
}

// The address of one end, and its port, if it has one.
fn end_of(text: &str) -> Option<(Address, Option<u16>)> {
    if let Some(address) = address_of(text) {
        return Some((address, None));
    }
    let (host, port) = text.rsplit_once(':')?;
    let address = address_of(host.trim_start_matches('[').trim_end_matches(']'))?;
    Some((address, Some(u16::try_from(number(port)?).ok()?)))
}

/// The frame of a packet of 60 bytes with these heads.
pub fn frame_of(alloc: Global, heads: &[&str]) -> Option<Vec<u8>> {
    Packet::read("60", heads)?.frame(alloc)
}

impl<'a> Packet<'a> {
    /// The packet of these words.
    pub fn read(len: &str, heads: &[&'a str]) -> Option<Packet<'a>> {
        let mut packet = Packet {
            len: word(len)?,
            times: 1,
            captured: None,
            vlan: None,
            tos: 0,
            sum: 0,
            heads: Heads::None,
        };
        let mut taken = 0usize;
        for _ in 0..heads.len() {
            if let Some((name, rest)) = heads.get(taken..).unwrap_or_default().split_first() {
                taken = taken.wrapping_add(packet.take(name, rest)?);
            }
        }
        Some(packet)
    }

    // Takes what a name and the words behind it say, and answers how many words that are.
    fn take(&mut self, name: &'a str, words: &[&'a str]) -> Option<usize> {
        if name == "arp" {
            self.heads = Heads::Arp;
            return Some(1);
        }
        if let [from, ">", to, ..] = words {
            self.heads = Heads::Flow(name, from, to);
            return Some(4);
        }
        let value = words.first()?;
        if name == "hex" {
            self.heads = Heads::Given(value);
        } else {
            self.set(name, word(value)?)?;
        }
        Some(2)
    }

    fn set(&mut self, name: &str, value: u32) -> Option<()> {
        match name {
            "times" => self.times = value,
            "captured" => self.captured = Some(value),
            "vlan" => self.vlan = Some(value),
            "tos" => self.tos = value,
            "sum" => self.sum = value,
            _ => return None,
        }
        Some(())
    }

    /// The captured bytes: those given, else 60 or as many as is said, with zeros behind the heads.
    pub fn frame(&self, alloc: Global) -> Option<Vec<u8>> {
        let mut frame = Vec::new(alloc);
        self.add_heads(alloc, &mut frame)?;
        let usual = match self.heads {
            Heads::Given(_) => frame.len(),
            _ => 60,
        };
        let captured = match self.captured {
            Some(captured) => captured as usize,
            None => usual,
        };
        frame.resize(captured, 0).ok()?;
        Some(frame)
    }

    // Adds what stands in the frame.
    fn add_heads(&self, alloc: Global, frame: &mut Vec<u8>) -> Option<()> {
        match self.heads {
            Heads::None => Some(()),
            Heads::Arp => self.add_link(frame, [8, 6], [&[], &[], &[]]),
            Heads::Given(digits) => add(alloc, frame, digits),
            Heads::Flow(protocol, from, to) => {
                self.add_flow(frame, protocol_of(protocol)?, end_of(from)?, end_of(to)?)
            }
        }
    }

    // Adds the heads of a flow. The lengths that they tell are those of the packet on the link.
    fn add_flow(
        &self,
        frame: &mut Vec<u8>,
        protocol: u8,
        (from, source): (Address, Option<u16>),
        (to, target): (Address, Option<u16>),
    ) -> Option<()> {
        let tag = if self.vlan.is_some() { 4 } else { 0 };
        let total = self.len.saturating_sub(14 + tag);
        let head = if is_4(from) { 20 } else { 40 };
        let rest = total.saturating_sub(head);
        self.add_ip(frame, protocol, [total, rest], from, to)?;
        add_ports(frame, protocol, rest, source, target)
    }

    // Adds the heads of Ethernet and of IP, which tell the length with IP's head or without it.
    fn add_ip(
        &self,
        frame: &mut Vec<u8>,
        protocol: u8,
        [total, rest]: [u32; 2],
        from: Address,
        to: Address,
    ) -> Option<()> {
        match (from, to) {
            (Address::V4(from), Address::V4(to)) => {
                let head = self.head_of_4(protocol, total);
                self.add_link(frame, [8, 0], [&head, &from, &to])
            }
            (Address::V6(from), Address::V6(to)) => {
                let head = self.head_of_6(protocol, rest);
                self.add_link(frame, [0x86, 0xdd], [&head, &from, &to])
            }
            _ => None,
        }
    }

    // Adds the head of Ethernet, with the tag if there is one, and what stands behind it.
    fn add_link(&self, frame: &mut Vec<u8>, kind: [u8; 2], [a, b, c]: [&[u8]; 3]) -> Option<()> {
        let [high, low] = half_of(self.vlan.unwrap_or_default());
        let tag = [0x81, 0, high, low];
        let count = if self.vlan.is_some() { 4 } else { 0 };
        add_all(frame, &[&LINK, &tag[..count], &kind, a, b, c])
    }

    // The head of IPv4 in front of its addresses.
    fn head_of_4(&self, protocol: u8, total: u32) -> [u8; 12] {
        let ([high, low], [first, second]) = (half_of(total), half_of(self.sum));
        let [_, tos] = half_of(self.tos);
        [
            0x45, tos, high, low, 0, 0, 0, 0, 64, protocol, first, second,
        ]
    }

    // The head of IPv6 in front of its addresses.
    fn head_of_6(&self, protocol: u8, rest: u32) -> [u8; 8] {
        let [high, low] = half_of(rest);
        let [_, tos] = half_of(self.tos);
        [
            0x60 + tos / 16,
            tos % 16 * 16,
            0,
            0,
            high,
            low,
            protocol,
            64,
        ]
    }
}

// Adds both ports or none, and the length of a datagram of UDP.
fn add_ports(
    frame: &mut Vec<u8>,
    protocol: u8,
    rest: u32,
    source: Option<u16>,
    target: Option<u16>,
) -> Option<()> {
    if source.is_some() != target.is_some() {
        return None;
    }
    let count = if source.is_some() { 2 } else { 0 };
    let source = source.unwrap_or_default().to_be_bytes();
    let target = target.unwrap_or_default().to_be_bytes();
    let length = if protocol == 17 { 2 } else { 0 };
    let pieces: [&[u8]; 3] = [&source[..count], &target[..count], &half_of(rest)[..length]];
    add_all(frame, &pieces)
}

// Adds pieces of bytes.
fn add_all(frame: &mut Vec<u8>, pieces: &[&[u8]]) -> Option<()> {
    for piece in pieces {
        frame.extend_from_slice(piece).ok()?;
    }
    Some(())
}

// The lower half of a number, the greater byte first.
fn half_of(number: u32) -> [u8; 2] {
    let [_, _, high, low] = number.to_be_bytes();
    [high, low]
}
