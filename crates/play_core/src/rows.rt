// Worked rows, computed by the checker from the definitions.
ghost use Rattle.std.specs.Prelude.{◌≡◌, ◌∷◌, [], None, Some};
ghost use Rattle.altq_model.specs.declared.Verdict.TheVariants.{Drop, Keep, Mark};
ghost use Rattle.altq_model.specs.declared.Reason.TheVariants.{Early};
ghost use Rattle.play_core.specs.Turns.{drop_of, packet_of_lent};
ghost use Rattle.play_core.specs.declared.turn.LentPacket.{LentPacket};

/// Worked examples of what becomes of a packet that is lent: it is kept with its bytes, or its drop is told without them. It does nothing.
pub fn worked_packets()
    ensures kept { (p : LentPacket) → p.number ≡ 1 → p.at ≡ 8 → p.len ≡ 60 → p.bytes.now ≡ 6 ∷ 7 ∷ []
        → packet_of_lent p ≡ record { number = 1; at = 8; len = 60; bytes = 6 ∷ 7 ∷ [] } }
    ensures dropped { (p : LentPacket) → p.number ≡ 1 → p.at ≡ 8 → p.len ≡ 60
        → drop_of (Drop Early) p ≡ Some (record { number = 1; at = 8; len = 60; reason = Early }) }
    ensures not_dropped { (p : LentPacket) → drop_of Keep p ≡ None }
    ensures marked { (p : LentPacket) → drop_of Mark p ≡ None }
{}
