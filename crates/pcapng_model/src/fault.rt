// What is wrong with a pcapng capture.
ghost use Rattle.std.specs.Prelude.{◌≡◌};
ghost use Rattle.pcapng_model.specs.Numbers.{block_name, block_number};

use capture_model::DamageKind;

/// The kind of the first test that a block fails. The tests come in the order in which `ShortBlock` to `BadStamp` are told here,
/// but for `BadMagic`, which of the others only the test of 12 bytes precedes: such a section shows no order of its bytes.
#[derive(Clone, Copy, Debug, PartialEq, Eq)]
pub enum NgKind {
    /// Fewer than 12 bytes stand, or fewer than the block's total length.
    ShortBlock,
    /// The total length is below 12 or no multiple of 4, or differs from its copy; or the body is too short for its type or for
    /// its padded captured bytes; or an option ends past the body; or option 9 has not 1 byte, or option 14 not 8.
    BadBlock,
    /// The byte-order magic of a section header is in neither order.
    BadMagic,
    /// The major version of a section is not 1.
    BadVersion,
    /// The resolution of an interface is below 10^-18 or 2^-63 seconds.
    BadResolution,
    /// The block is an obsolete or a simple packet block.
    OldPacket,
    /// The section has no interface of the packet's number.
    UnknownInterface,
    /// The link type of the packet's interface is not 1, Ethernet.
    BadLink,
    /// The captured or the original length of the packet is above 262,144.
    LongRecord,
    /// Both lengths of the packet are 0.
    EmptyRecord,
    /// The packet's stamp is before the epoch, or 2^32 seconds or more behind it.
    BadStamp,
}

impl NgKind {
    /// The kind's number as a status gives it: 2, 3, 4, 6, 7 as of the classic form, or 8 to 13.
    pub fn number(self) -> u8
        ensures { result ≡ block_number self }
    {
        match self {
            NgKind::BadMagic => DamageKind::BadMagic.number(),
            NgKind::BadVersion => DamageKind::BadVersion.number(),
            NgKind::BadLink => DamageKind::BadLink.number(),
            NgKind::EmptyRecord => DamageKind::EmptyRecord.number(),
            NgKind::LongRecord => DamageKind::LongRecord.number(),
            NgKind::BadBlock => 8,
            NgKind::ShortBlock => 9,
            NgKind::UnknownInterface => 10,
            NgKind::BadStamp => 11,
            NgKind::BadResolution => 12,
            NgKind::OldPacket => 13,
        }
    }

    /// The kind's name, as a message gives it.
    pub fn name(self) -> &'static str
        ensures { result.now ≡ block_name self }
    {
        match self {
            NgKind::BadMagic => DamageKind::BadMagic.name(),
            NgKind::BadVersion => DamageKind::BadVersion.name(),
            NgKind::BadLink => DamageKind::BadLink.name(),
            NgKind::EmptyRecord => DamageKind::EmptyRecord.name(),
            NgKind::LongRecord => DamageKind::LongRecord.name(),
            NgKind::BadBlock => "BadBlock",
            NgKind::ShortBlock => "ShortBlock",
            NgKind::UnknownInterface => "UnknownInterface",
            NgKind::BadStamp => "BadStamp",
            NgKind::BadResolution => "BadResolution",
            NgKind::OldPacket => "OldPacket",
        }
    }
}

/// The first fault of a pcapng capture: the place of its block, in bytes from 0, and its kind.
#[derive(Clone, Copy, Debug, PartialEq, Eq)]
pub struct NgPlace {
    pub place: u64,
    pub kind: NgKind,
}
