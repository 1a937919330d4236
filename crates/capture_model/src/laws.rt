// Laws of the reading of captures.
ghost use Rattle.std.specs.Prelude.{List, ℕ};
ghost use Rattle.capture_model.specs.Capture.{IsLast, Reads, outcome};

/// Every file has a reading, the one that `outcome` computes: its complete records, and then its end, its first fault or its
/// limit.
pub fn every_file_has_a_reading()
    ensures reads { (bytes : List ℕ) → Reads bytes (outcome bytes).records (outcome bytes).last }
    ensures last { (bytes : List ℕ) → IsLast (outcome bytes).last }
{}
