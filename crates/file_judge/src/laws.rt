// Laws of given files.
ghost use Rattle.std.specs.Prelude.{◌≡◌, ℕ, List};
ghost use Rattle.conf_laws.specs.Fit.{IsInterface};
ghost use Rattle.fate_timely.specs.declared.given.Late.{Late};
ghost use Rattle.file_judge.specs.Given.{Given};
ghost use Rattle.file_judge.specs.Journal.{AreOfJournal};
ghost use Rattle.file_judge.specs.Verdict.{AreVerified, IsRefuted};
ghost use Rattle.file_tests.specs.declared.Test.{Test};

/// Given files pass every test, in one way, or there is one least test that they fail, and of it one first row; and not both. The
/// function does nothing: it states its laws.
#[tactic(auto, using(crate::proofs::OneVerdict::one_answer, crate::proofs::OneVerdict::never_both, crate::proofs::OneVerdict::one_lateness))]
pub fn files_are_judged_one_way()
    ensures one_answer { (g : Given) (row other : ℕ) (t u : Test) → IsInterface g.interface → IsRefuted g row t → IsRefuted g other u
        → (row ≡ other) × (t ≡ u) }
    ensures never_both { (g : Given) (row : ℕ) (t : Test) (came : List Late) → IsInterface g.interface → AreVerified g came → ¬ IsRefuted g row t }
    ensures one_lateness { (g : Given) (came other : List Late) → IsInterface g.interface → AreVerified g came → AreVerified g other → came ≡ other }
{}

/// Files that pass every test are the texts of a journal that keeps the laws, whoever made them. The function does nothing: it states
/// its law.
#[tactic(auto, using(crate::proofs::JournalLemmas::of_journal))]
pub fn verified_files_are_of_a_journal()
    ensures { (g : Given) (came : List Late) → AreVerified g came → AreOfJournal g }
{}
