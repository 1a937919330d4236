// Laws of the packets that are generated, told by functions that do nothing.
ghost use Rattle.std.specs.Prelude.{◌≡◌, ◌≤◌, ◌+◌, ◌*◌, ℕ, length};
ghost use Rattle.capture_model.specs.Capture.{IsCapture};
ghost use Rattle.generated.specs.Packets.{generated_capture, most_packets, packets};

/// What is generated is a capture of the packets, and has 24 bytes and 58 for each of them. It does nothing.
#[tactic(auto, using(crate::proofs::PacketLemmas::generated_reads, crate::proofs::PacketLemmas::packets_length, crate::proofs::PacketLemmas::capture_length))]
pub fn generated_captures_read()
    ensures capture { (seed count : ℕ) → count ≤ most_packets → IsCapture (generated_capture seed count) (packets seed count) }
    ensures count { (seed count : ℕ) → length (packets seed count) ≡ count }
    ensures size { (seed count : ℕ) → length (generated_capture seed count) ≡ 24 + 58 * count }
{}
