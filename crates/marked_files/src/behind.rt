// What stands behind the records of a capture that were passed.
use capture_model::Damage;

/// What stands behind the records that a marker has made ready.
#[derive(Clone, Copy)]
pub enum Behind {
    /// More may follow: no whole record stands there yet.
    More,
    /// Nothing: the capture ends there.
    End,
    /// The first test that the capture fails, and its place.
    Damaged(Damage),
    /// Bytes after 4,000,000 records, or a record that would end past byte 2^30.
    Limit,
}
