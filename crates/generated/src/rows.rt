// Examples that are computed from the definitions.
ghost use Rattle.std.specs.Prelude.{◌≡◌, ◌∷◌, [], length};
ghost use Rattle.generated.specs.Packets.{generated_capture, packet};

/// A worked example: the first packet of seed 42, 161,783 ns after the epoch, of 262 bytes, from port 1027 to port 5001.
pub fn worked_packets()
    ensures first_generated_packet { packet 42 0 ≡ record {
      stamp = 161783;
      captured = 2 ∷ 0 ∷ 0 ∷ 0 ∷ 0 ∷ 2 ∷ 2 ∷ 0 ∷ 0 ∷ 0 ∷ 0 ∷ 1 ∷ 8 ∷ 0
          ∷ 0x45 ∷ 0x28 ∷ 0x00 ∷ 0xf8 ∷ 0 ∷ 0 ∷ 0 ∷ 0 ∷ 0x40 ∷ 0x11 ∷ 0 ∷ 0 ∷ 10 ∷ 0 ∷ 0 ∷ 1 ∷ 10 ∷ 0 ∷ 0 ∷ 2
          ∷ 0x04 ∷ 0x03 ∷ 0x13 ∷ 0x89 ∷ 0x00 ∷ 0xe4 ∷ 0 ∷ 0 ∷ [];
      original = 262;
    } }
    ensures size { length (generated_capture 42 1) ≡ 82 }
{}
