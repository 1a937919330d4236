//! Addresses under their masks.
ghost use Rattle.std.specs.Prelude.{◌≡◌, ◌≤◌, ◌<◌, ◌^◌};
ghost use Rattle.conf_tree.specs.Masks.{masked, upper, prefix};

/// An IPv4 address under its mask.
pub(crate) fn masked(address: [u8; 4], mask: [u8; 4]) -> [u8; 4]
    ensures { result ≡ masked address mask }
{
    let [a, b, c, d] = address;
    let [e, f, g, h] = mask;
    [a & e, b & f, c & g, d & h]
}

/// The upper `bits` bits of a byte; its other bits are 0.
fn upper(bits: u8, byte: u8) -> u8
    requires { bits ≤ 8 }
    ensures { result ≡ upper bits byte }
{
    let lower = 1u16 << (8 - bits);
    (u16::from(byte) / lower * lower) as u8
}

/// The first `bits` bits of an IPv6 address; its other bits are 0.
pub(crate) fn prefix(bits: u8, address: &[u8; 16]) -> [u8; 16]
    ensures { result ≡ prefix bits address.now }
{
    let mut masked = [0; 16];
    let mut left = bits;
    for i in 0..16usize {
        masked[i] = upper(left.min(8), address[i]);
        left = left.saturating_sub(8);
    }
    masked
}
