// The colours at both ends of what a meter takes, computed by the checker from the definitions.
ghost use Rattle.std.specs.Prelude.{◌≡◌, ◌-◌, ◌^◌, ◌∷◌, []};
ghost use Rattle.traffic_meter.specs.Rows.{G, R, Y, at, met, srtcm};

/// The longest packet, the last moment, and rates and bursts that fill 64 and 32 bits.
pub fn greatest_numbers()
    ensures { met (srtcm (2 ^ 64 - 1) (2 ^ 32 - 1) (2 ^ 32 - 1)) (at (2 ^ 32 - 1) 0 ∷ at (2 ^ 32 - 1) 0 ∷ at 1 0
        ∷ at (2 ^ 32 - 1) (2 ^ 64 - 1) ∷ at (2 ^ 32 - 1) (2 ^ 64 - 1) ∷ at 1 (2 ^ 64 - 1) ∷ [])
        ≡ G ∷ Y ∷ R ∷ G ∷ Y ∷ R ∷ [] }
{}
