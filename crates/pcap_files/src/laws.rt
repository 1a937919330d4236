// Laws of the reading of captures, told by functions that do nothing.
ghost use Rattle.std.specs.Prelude.{◌≡◌, ℕ, List};
ghost use Rattle.capture_model.specs.Capture.{Record, Step, Reads, IsCapture};
ghost use Rattle.capture_model.specs.Capture.{IsLast};
ghost use Rattle.capture_model.specs.Written.{AreWithin, written};

/// What the two headers write, with the captured bytes after each record's header, is a capture of the records that were given,
/// while lengths, count and size are within the limits. It does nothing.
#[tactic(auto, using(crate::proofs::WritingLemmas::reads_written))]
pub fn written_captures_read_back()
    ensures { (records : List Record) → AreWithin records → IsCapture (written records) records }
{}

/// Bytes have at most one reading: the complete records, and the end, the fault or the limit after them. It does nothing.
pub fn bytes_read_one_way()
    ensures { (bytes : List ℕ) (xs ys : List Record) (p q : Step) → Reads bytes xs p → IsLast p →
        Reads bytes ys q → IsLast q → (xs ≡ ys) × (p ≡ q) }
{}
