// Laws of the reading of pcapng captures.
ghost use Rattle.std.specs.Prelude.{◌≡◌, ◌<◌, ◌≤◌, List, ℕ, false, length};
ghost use Rattle.capture_model.specs.Capture.{Record, most_bytes};
ghost use Rattle.pcapng_model.specs.Block.{framed};
ghost use Rattle.pcapng_model.specs.Reading.{IsLast, Limit, Reads, Step, outcome, start, step, step_in};

/// Every file has a reading, the one that `outcome` computes: its packets, and then its end, its first fault or its limit.
pub fn every_pcapng_has_a_reading()
    ensures reads { (bytes : List ℕ) → Reads bytes (outcome bytes).records (outcome bytes).last }
    ensures last { (bytes : List ℕ) → IsLast (outcome bytes).last }
{}

/// Bytes have at most one reading: the packets, and the end, the fault or the limit behind them.
pub fn pcapng_reads_one_way()
    ensures { (bytes : List ℕ) (xs ys : List Record) (p q : Step) → Reads bytes xs p → IsLast p →
        Reads bytes ys q → IsLast q → (xs ≡ ys) × (p ≡ q) }
{}

/// A file of more than 2^30 bytes is a limit, whatever its blocks say; no other file is one for its size.
pub fn long_files_are_a_limit()
    ensures longer { (bytes : List ℕ) → most_bytes < length bytes → step bytes start ≡ Limit }
    ensures others { (bytes : List ℕ) → 0 < length bytes → length bytes ≤ most_bytes →
        step bytes start ≡ step_in start (framed false bytes 0) }
{}
