// What is wrong with a capture.
ghost use Rattle.std.specs.Prelude.{◌≡◌};
ghost use Rattle.capture_model.specs.Numbers.{damage_name, damage_number};

/// The kind of the first test that a capture fails, in the order of the tests of the header and then of a record.
#[derive(Clone, Copy, Debug, PartialEq, Eq)]
pub enum DamageKind {
    /// The file has fewer than 24 bytes. The place is its length.
    ShortHead,
    /// The first four bytes are no magic number of the classic format. The place is 0.
    BadMagic,
    /// The version is not 2.4. The place is 4.
    BadVersion,
    /// The low 16 bits of the link type are not 1, Ethernet. The place is 20.
    BadLink,
    /// Fewer bytes stand at the record's place than its header or its captured length needs.
    ShortRecord,
    /// Both lengths of the record are 0.
    EmptyRecord,
    /// The captured or the original length is above 262,144.
    LongRecord,
}

impl DamageKind {
    /// The kind's number, from 1, as a status gives it.
    pub fn number(self) -> u8
        ensures { result ≡ damage_number self }
    {
        match self {
            DamageKind::ShortHead => 1,
            DamageKind::BadMagic => 2,
            DamageKind::BadVersion => 3,
            DamageKind::BadLink => 4,
            DamageKind::ShortRecord => 5,
            DamageKind::EmptyRecord => 6,
            DamageKind::LongRecord => 7,
        }
    }

    /// The kind's name, as a message gives it.
    pub fn name(self) -> &'static str
        ensures { result.now ≡ damage_name self }
    {
        match self {
            DamageKind::ShortHead => "ShortHead",
            DamageKind::BadMagic => "BadMagic",
            DamageKind::BadVersion => "BadVersion",
            DamageKind::BadLink => "BadLink",
            DamageKind::ShortRecord => "ShortRecord",
            DamageKind::EmptyRecord => "EmptyRecord",
            DamageKind::LongRecord => "LongRecord",
        }
    }
}

/// The first fault of a capture: the byte, counted from 0, at which the failed test looks, and its kind.
#[derive(Clone, Copy, Debug, PartialEq, Eq)]
pub struct Damage {
    pub place: u64,
    pub kind: DamageKind,
}
