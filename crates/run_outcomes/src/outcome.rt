// What can come of a run.
use capture_model::Damage;
use conf_lines::ConfPlace;
use file_plans::Part;
use file_tests::Test;
use pcapng_model::NgPlace;
use play_words::WordsFault;

/// What a command did: what it does, and of a check that the curves exceed the link.
#[derive(Clone, Copy)]
pub enum Done {
    Done,
    Exceeds,
}

/// The link whose capture or play ended a run: the only one, or one of two in a row.
#[derive(Clone, Copy)]
pub enum Link {
    Sole,
    /// The link that the arrivals come to.
    First,
    /// The link that the departures of the first come to.
    Second,
}

/// What is wrong with the capture that comes to a link, or ends its play.
#[derive(Clone, Copy)]
pub enum CaptureStop {
    /// A classic capture fails this test first.
    Damage(Damage),
    /// A pcapng file has a block that fails this test first.
    Block(NgPlace),
    /// The capture has bytes after 4,000,000 records, or a record would end past byte 2^30.
    TooLong,
    /// The sending that is due next would end at 2^32 seconds or later.
    Late,
}

/// What ended a command early, as its status and its message tell it.
#[derive(Clone, Copy)]
pub enum Failure {
    /// The words are refused.
    Words(WordsFault),
    /// The configuration has this fault first, or lacks the interface asked for.
    Configuration(ConfPlace),
    /// The capture of this link, or its play, ends so.
    Capture(Link, CaptureStop),
    /// This could not be read.
    Read(Part),
    /// This could not be written.
    Write(Part),
    /// What is printed of what was done could not be.
    Unsaid,
    /// This has more bytes than it may have: a configuration 2^20, fates and departures 2^30.
    TooLong(Part),
    /// Given files fail this test first, and this is the first row that fails it.
    Refuted { row: u64, test: Test },
    /// No memory was left.
    NoMemory,
}
