// Laws of the texts of a play.
ghost use Rattle.std.specs.Prelude.{◌≡◌, ◌++◌, ℕ, List};
ghost use Rattle.altq_model.specs.Arrivals.{Captured, bare_arrivals};
ghost use Rattle.altq_model.specs.History.{Decision, LabelledEvent, journal};
ghost use Rattle.play_laws.specs.Events.{AreOfArrivals};
ghost use Rattle.play_text.specs.Texts.{Naming, fate_rows, fates};

/// The text of more decisions begins with that of the first of them, and what is decided of packets that arrived keeps its text,
/// whatever arrives later.
pub fn texts_extend()
    ensures fates { (names : Naming) (arrived : List Captured) (xs ys : List Decision)
        → fates names arrived (xs ++ ys) ≡ fates names arrived xs ++ fate_rows names arrived ys }
    ensures rows { (names : Naming) (arrived : List Captured) (xs ys : List Decision)
        → fate_rows names arrived (xs ++ ys) ≡ fate_rows names arrived xs ++ fate_rows names arrived ys }
    ensures stay { (names : Naming) (arrived more : List Captured) (g : List LabelledEvent) → AreOfArrivals (bare_arrivals arrived) g
        → fate_rows names (arrived ++ more) (journal g) ≡ fate_rows names arrived (journal g) }
{}
