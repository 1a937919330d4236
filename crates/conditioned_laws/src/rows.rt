// A worked meter, computed by the checker from the definitions.
ghost use Rattle.std.specs.Prelude.{◌≡◌, ◌∷◌, []};
ghost use Rattle.traffic_meter.specs.Conforming.{allowed, coloured, is_green};
ghost use Rattle.traffic_meter.specs.History.{colours};
ghost use Rattle.traffic_meter.specs.Rows.{G, R, at};
ghost use Rattle.traffic_marks.specs.Rows.{by_version, packet, v4, v6};
ghost use Rattle.conditioned_laws.specs.Metered.{asked, coloured_frames, frames_of};
ghost use Rattle.conditioned_laws.specs.Rows.{four_and_one, meter, one_meter};

/// Of four packets of 1,000 bytes at 2 ms and behind, and one of another class, the first is green, and the last, a millisecond later, in
/// which 8 Mbit/s give 1,000 bytes. Together they have all that may be green: 2,000 bytes, 16·10^12 units.
pub fn worked_meter()
    ensures asked { asked one_meter 1 four_and_one ≡ at 1000 3000000 ∷ at 1000 2999999 ∷ at 1000 2000000 ∷ at 1000 2000000 ∷ [] }
    ensures of_its_own_class { asked one_meter 2 four_and_one ≡ at 500 2000000 ∷ [] }
    ensures colours { colours meter (asked one_meter 1 four_and_one) [] ≡ G ∷ R ∷ R ∷ G ∷ [] }
    ensures green { coloured is_green meter (asked one_meter 1 four_and_one) [] ≡ 16000000000000 }
    ensures allowed { allowed 8000000 1000 (asked one_meter 1 four_and_one) ≡ 16000000000000 }
    ensures came { coloured_frames meter (G ∷ R ∷ R ∷ G ∷ []) (frames_of by_version 1 four_and_one four_and_one)
        ≡ v4 0x28 0x65cb ∷ v4 0x38 0x65bb ∷ v4 0x38 0x65bb ∷ v4 0x28 0x65cb ∷ [] }
    ensures carried { frames_of by_version 1 four_and_one
        (packet 2000000 1000 (v4 0x28 0x65cb) ∷ packet 0 500 (v6 0x03) ∷ packet 1000000 1000 (v4 0x38 0x65bb)
        ∷ packet 2999999 1000 (v4 0x38 0x65bb) ∷ packet 3000000 1000 (v4 0x28 0x65cb) ∷ [])
        ≡ v4 0x28 0x65cb ∷ v4 0x38 0x65bb ∷ v4 0x38 0x65bb ∷ v4 0x28 0x65cb ∷ [] }
{}
