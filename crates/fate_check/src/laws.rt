// Laws of the texts of fates.
ghost use Rattle.std.specs.Prelude.{◌≡◌, ◌++◌, ℕ, List};
ghost use Rattle.altq_model.specs.Arrivals.{Captured};
ghost use Rattle.altq_model.specs.History.{Decision};
ghost use Rattle.play_text.specs.Texts.{fates};
ghost use Rattle.play_text.specs.Names.{AreNames, NameList};
ghost use Rattle.play_text.specs.Names.{name_of};
ghost use Rattle.fate_check.specs.Given.{rows_for};
ghost use Rattle.fate_check.specs.Text.{AreRows, FailsAt, Reads};
ghost use Rattle.fate_check.specs.declared.reading.Row.{Row};

/// A text is the rows of one list at most, or it has one first row that is none, and not both. So the fates of a play are read as
/// its decisions with their arrivals. The function does nothing: it states its laws.
pub fn texts_are_read_one_way()
    ensures one_list { (names : NameList) (text : List ℕ) (rs qs : List Row) → AreNames names → Reads names text rs → Reads names text qs → rs ≡ qs }
    ensures one_row { (names : NameList) (text : List ℕ) (row other : ℕ) → AreNames names → FailsAt names text row → FailsAt names text other → row ≡ other }
    ensures never_both { (names : NameList) (text : List ℕ) (rs : List Row) (row : ℕ) → AreNames names → Reads names text rs → ¬ FailsAt names text row }
    ensures fates_are_read { (names : NameList) (arrived : List Captured) (js : List Decision) → AreRows names (rows_for arrived js)
        → Reads names (fates (name_of names) arrived js) (rows_for arrived js) }
{}
