//! The choice of CBQ and its walks up the tree, said of its definitions as properties. The functions do nothing: each states its law.
//! The source is Floyd and Jacobson, "Link-sharing and resource management models for packet networks", IEEE/ACM Transactions on
//! Networking 3(4), 1995.

ghost use Rattle.std.specs.Prelude.{◌≡◌, ℕ, List, Some};
ghost use Rattle.cbq_model.specs.declared.CbqClass.{CbqClass};
ghost use Rattle.cbq_model.specs.Choice.{Situation, choice_of};
ghost use Rattle.cbq_model.specs.Tree.{class_of, lender_of, lenders, path};
ghost use Rattle.cbq_model.specs.First.{IsCandidate, IsFirst};
ghost use Rattle.cbq_model.specs.Ways.{IsEightDeep, IsWay, IsWayOfLoans};

/// Wherever a class waits and may send, the class that CBQ chooses is such a class. None of them has a greater priority, none of that
/// priority needs fewer rounds, and none of those stands earlier in the ring, which is the file's order from the class on that
/// was sent last of that priority. There is one such class alone.
pub fn picks_are_the_first_candidates()
    ensures pick { (cs : List CbqClass) (rate : ℕ) (s : Situation) (t c : ℕ) → IsCandidate cs rate s t c
        → IsFirst cs rate s t (choice_of cs rate s t).class }
    ensures one { (cs : List CbqClass) (rate : ℕ) (s : Situation) (t c d : ℕ) → IsFirst cs rate s t c → IsFirst cs rate s t d → c ≡ d }
{}

/// In a tree of at most 8 levels a walk over 8 levels leaves out nothing: it goes on from a class up to the root, and that of the
/// classes that may lend to it up to the last one that does.
pub fn eight_levels_are_the_whole_way()
    ensures paths { (cs : List CbqClass) (c : ℕ) → IsEightDeep cs → IsWay cs (Some c) (path cs c) }
    ensures lenders { (cs : List CbqClass) (c : ℕ) → IsEightDeep cs → IsWayOfLoans cs (lender_of (class_of cs c)) (lenders cs c) }
{}
