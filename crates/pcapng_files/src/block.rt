// A block of a file.
ghost use Rattle.std.specs.Prelude.{◌≡◌, ◌≤◌, ◌+◌, ◌^◌, option_map, IfOk, IfErr, drop, length, take};
ghost use Rattle.pcapng_model.specs.Block.{Whole, Broken, framed, order_at};

use crate::numbers::four;
use pcapng_model::NgKind;

// The type of a section header. Its four bytes read the same in both byte orders.
pub const SECTION: u32 = 0x0a0d_0d0a;

// A whole block: its byte order, its type, its body, and the place behind it.
#[derive(Clone, Copy)]
pub struct Block<'a> {
    pub big: bool,
    pub kind: u32,
    pub body: &'a [u8],
    pub after: usize,
}

// The byte order of the block at a place: a section header tells that of its own section.
fn order_at(big: bool, bytes: &[u8], at: usize) -> Option<bool>
    requires { at + 12 ≤ length bytes.now }
    ensures { result ≡ order_at big bytes.now at }
{
    if four(true, bytes, at) != SECTION {
        return Some(big);
    }
    match four(true, bytes, at + 8) {
        0x1a2b_3c4d => Some(true),
        0x4d3c_2b1a => Some(false),
        _ => None,
    }
}

// The block at a place, or the first test of its lengths and its byte order that it fails.
pub fn block_at(big: bool, bytes: &[u8], at: usize) -> Result<Block<'_>, NgKind>
    requires here { at ≤ length bytes.now }
    requires small { length bytes.now ≤ 2 ^ 30 }
    ensures ok { IfOk result (λ b. framed big bytes.now at ≡ Whole b.big b.kind b.body.now b.after) }
    ensures size { IfOk result (λ b. at + 12 + length b.body.now ≡ b.after) }
    ensures body { IfOk result (λ b. b.body.now ≡ take (length b.body.now) (drop (at + 8) bytes.now)) }
    ensures within { IfOk result (λ b. b.after ≤ length bytes.now) }
    ensures err { IfErr result (λ kind. framed big bytes.now at ≡ Broken kind) }
{
    if bytes.len() < at + 12 {
        return Err(NgKind::ShortBlock);
    }
    let Some(own) = order_at(big, bytes, at) else {
        return Err(NgKind::BadMagic);
    };
    let total = four(own, bytes, at + 4) as usize;
    if bytes.len() < at + total {
        return Err(NgKind::ShortBlock);
    }
    if total < 12 || total % 4 != 0 || four(own, bytes, at + total - 4) as usize != total {
        return Err(NgKind::BadBlock);
    }
    Ok(Block {
        big: own,
        kind: four(own, bytes, at),
        body: &bytes[at + 8..at + total - 4],
        after: at + total,
    })
}
