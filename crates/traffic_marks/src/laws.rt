// Laws of marked captures. The function does nothing: it states its laws.
ghost use Rattle.std.specs.Prelude.{◌<◌, ◌^◌, ℕ, List, All};
ghost use Rattle.traffic_marks.specs.Laws.{AreAssured, KeepsLength, KeepsOthers, KeepsReading};
ghost use Rattle.traffic_marks.specs.Marked.{Conditioning};

/// The marked capture is as long as the capture, and reads as it does but for the frames of its complete records: as many records
/// with the same stamps and lengths, and then the same end, fault or limit. Each byte stays but the marks.
pub fn marks_alone_change()
    ensures length { (c : Conditioning) (bytes : List ℕ) → KeepsLength c bytes }
    ensures reading { (c : Conditioning) (bytes : List ℕ) → KeepsReading c bytes }
    ensures others { (c : Conditioning) (bytes : List ℕ) → All (λ byte. byte < 256) bytes → AreAssured c → KeepsOthers c bytes }
{}
