// Worked examples, computed by the checker from the definitions.
ghost use Rattle.std.specs.Prelude.{◌≡◌, ◌∷◌, [], true, false, Some};
ghost use Rattle.cbq_model.specs.Choice.{picked, rounds};
ghost use Rattle.cbq_model.specs.Rows.{nested, thirds};
ghost use Rattle.cbq_model.specs.Tree.{lenders, path};
ghost use Rattle.cbq_model.specs.First.{place_in};
ghost use Rattle.cbq_model.specs.WayRows.{chain, waiting_thirds};
ghost use Rattle.cbq_model.specs.Ways.{IsWay};

/// Three classes, each with a packet of 1,500 bytes, a quantum of 500 and the same priority. Where none has credit, all need 3 rounds,
/// and the class goes first at which the ring begins; the file's first class, the root, has nothing. Where the last has 1,000 bytes
/// of credit it needs 1 round, and goes first.
pub fn worked_picks()
    ensures from_the_first { picked thirds 8000000 (waiting_thirds (0 ∷ 0 ∷ 0 ∷ 0 ∷ []) 0) 0 ≡ 1 }
    ensures from_the_second { picked thirds 8000000 (waiting_thirds (0 ∷ 0 ∷ 0 ∷ 0 ∷ []) 2) 0 ≡ 2 }
    ensures from_the_third { picked thirds 8000000 (waiting_thirds (0 ∷ 0 ∷ 0 ∷ 0 ∷ []) 3) 0 ≡ 3 }
    ensures fewer_rounds { picked thirds 8000000 (waiting_thirds (0 ∷ 0 ∷ 0 ∷ 1000 ∷ []) 1) 0 ≡ 3 }
    ensures one_byte_less { rounds thirds 8000000 (waiting_thirds (0 ∷ 0 ∷ 0 ∷ 999 ∷ []) 1) 3 ≡ 2 }
    ensures at_the_start { place_in 4 2 2 ≡ 0 }
    ensures behind_it { place_in 4 2 3 ≡ 1 }
    ensures from_the_beginning { place_in 4 2 0 ≡ 2 }
    ensures last_of_all { place_in 4 2 1 ≡ 3 }
{}

/// A class of the eighth level has 8 classes on its way, one of the ninth level 9, of which a walk over 8 levels leaves out the root.
pub fn worked_ways()
    ensures eight_levels { path (chain 7) 7 ≡ 7 ∷ 6 ∷ 5 ∷ 4 ∷ 3 ∷ 2 ∷ 1 ∷ 0 ∷ [] }
    ensures nine_are_cut { path (chain 8) 8 ≡ 8 ∷ 7 ∷ 6 ∷ 5 ∷ 4 ∷ 3 ∷ 2 ∷ 1 ∷ [] }
    ensures root_alone { IsWay (chain 7) (Some 0) (0 ∷ []) }
    ensures parent_left_out { ¬ IsWay (nested true) (Some 2) (2 ∷ 0 ∷ []) }
    ensures both_lend { lenders (nested true) 2 ≡ 1 ∷ 0 ∷ [] }
    ensures one_lends { lenders (nested false) 2 ≡ 1 ∷ [] }
    ensures none_lends_to_the_root { lenders (nested true) 0 ≡ [] }
{}
