// Laws of the tests of rows.
ghost use Rattle.std.specs.Prelude.{◌≡◌, ℕ};
ghost use Rattle.fate_judge.specs.Judged.{Case, IsRefuted, PassesAll};
ghost use Rattle.fate_judge.specs.declared.given.Kind.{Kind};

/// Rows that fail a test have one least kind that fails, and of it one first row; and rows that pass every test fail none. The
/// function does nothing: it states its laws.
pub fn rows_fail_one_way()
    ensures one_answer { (c : Case) (row other : ℕ) (k j : Kind) → IsRefuted c row k → IsRefuted c other j → (row ≡ other) × (k ≡ j) }
    ensures never_both { (c : Case) (row : ℕ) (k : Kind) → PassesAll c → ¬ IsRefuted c row k }
{}
