// The laws of marked files. The function does nothing: it states the laws.
ghost use Rattle.std.specs.Prelude.{List, ℕ, Option};
ghost use Rattle.altq_model.specs.declared.Placed.{Placed};
ghost use Rattle.play_base.specs.View.{View};
ghost use Rattle.traffic_meter.specs.declared.rule.MeterRule.{MeterRule};
ghost use Rattle.marked_files.specs.Courses.{MakesMarked};
ghost use Rattle.marked_files.specs.Through.{ReadsMarked};

/// What becomes of a whole capture as it is read is the marked capture of `traffic_marks`; and so whoever reads a marked file from its
/// front to its end has read exactly that, in whatever pieces.
pub fn reading_marks()
    ensures marked { (place : List ℕ → Placed) (rules : List (Option MeterRule)) (bytes : List ℕ) → MakesMarked place rules bytes }
    ensures read { (v w : View) (reference file marker : ℕ) (place : List ℕ → Placed) (rules : List (Option MeterRule))
        (capture bytes : List ℕ) → ReadsMarked v w reference file marker place rules capture bytes }
{}
