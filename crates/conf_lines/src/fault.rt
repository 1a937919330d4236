//! The faults of a configuration.
ghost use Rattle.std.specs.Prelude.{◌≡◌};
ghost use Rattle.conf_lines.specs.Kinds.{kind_name, kind_number};

/// What is wrong with a configuration.
#[derive(Clone, Copy, Debug, PartialEq, Eq)]
pub enum ConfKind {
    /// A word is no statement, no option of its statement, or stands past the statement's end.
    UnknownWord,
    /// A statement ends where a word is needed.
    MissingWord,
    /// A number is not of its form, or a WHOLE is out of its range.
    BadNumber,
    /// A RATE, or the rate of `pbandwidth`, is out of its range.
    RateRange,
    /// An address, a mask or a prefix length is not of its form.
    BadAddress,
    /// A word has a byte outside 33 to 126, or a NAME is not of its form.
    BadByte,
    /// The joined line passes 4,096 bytes.
    TooLong,
    /// `interface` names an interface a second time.
    InterfaceTwice,
    /// A class, a filter or a conditioner names an interface that does not stand earlier, or the interface asked for is absent.
    NoInterface,
    /// `class hfsc` names a `cbq` interface, or the reverse.
    WrongDiscipline,
    /// A class name stands earlier on this interface.
    NameTaken,
    /// The parent is no earlier class of this interface.
    NoParent,
    /// A second class has the parent `NULL`.
    TwoRoots,
    /// The class would be on level 9, the root being level 1.
    TooDeep,
    /// The 257th class of an interface.
    TooManyClasses,
    /// The 1,025th filter of an interface.
    TooManyFilters,
    /// The 17th interface.
    TooManyInterfaces,
    /// A curve begins slowly and then rises.
    ConvexFirst,
    /// A class of HFSC other than the root has no link-sharing curve.
    NoShare,
    /// A class that is named as a parent has a real-time curve that `rt` or `grate` set last.
    RealTimeInside,
    /// On an HFSC interface a parent would hold packets or have a conditioner, or a filter or a conditioner names a parent.
    InnerQueue,
    /// A second `default` on an interface.
    TwoDefaults,
    /// An interface has classes and no default.
    NoDefault,
    /// A filter or a conditioner names no earlier class of its interface.
    NoClass,
    /// A conditioner names a class that has one already.
    ConditionerTwice,
}

impl ConfKind {
    /// The kind's number, from 1 to 25, as a status gives it.
    pub fn number(self) -> u8
        ensures { result ≡ kind_number self }
    {
        self as u8 + 1
    }

    /// The kind's name, as a message gives it.
    pub fn name(self) -> &'static str
        ensures { result.now ≡ kind_name self }
    {
        match self {
            ConfKind::UnknownWord => "UnknownWord",
            ConfKind::MissingWord => "MissingWord",
            ConfKind::BadNumber => "BadNumber",
            ConfKind::RateRange => "RateRange",
            ConfKind::BadAddress => "BadAddress",
            ConfKind::BadByte => "BadByte",
            ConfKind::TooLong => "TooLong",
            ConfKind::InterfaceTwice => "InterfaceTwice",
            ConfKind::NoInterface => "NoInterface",
            ConfKind::WrongDiscipline => "WrongDiscipline",
            ConfKind::NameTaken => "NameTaken",
            ConfKind::NoParent => "NoParent",
            ConfKind::TwoRoots => "TwoRoots",
            ConfKind::TooDeep => "TooDeep",
            ConfKind::TooManyClasses => "TooManyClasses",
            ConfKind::TooManyFilters => "TooManyFilters",
            ConfKind::TooManyInterfaces => "TooManyInterfaces",
            ConfKind::ConvexFirst => "ConvexFirst",
            ConfKind::NoShare => "NoShare",
            ConfKind::RealTimeInside => "RealTimeInside",
            ConfKind::InnerQueue => "InnerQueue",
            ConfKind::TwoDefaults => "TwoDefaults",
            ConfKind::NoDefault => "NoDefault",
            ConfKind::NoClass => "NoClass",
            ConfKind::ConditionerTwice => "ConditionerTwice",
        }
    }
}

/// Where a configuration has a fault, and which.
#[derive(Clone, Copy, Debug, PartialEq, Eq)]
pub struct ConfPlace {
    /// The number of the first physical line of the statement, from 1; 0 where no line is at fault.
    pub line: u64,
    /// The number of the word in its logical line, from 1. It is 0 where the line is too long, and the count of words and 1
    /// where a word is missing.
    pub word: u64,
    /// What is wrong there.
    pub kind: ConfKind,
}

/// Why a configuration cannot be had.
#[derive(Clone, Copy, Debug, PartialEq, Eq)]
pub enum ConfFault {
    /// The text has a fault.
    At(ConfPlace),
    /// Memory ran out.
    NoMemory,
}
