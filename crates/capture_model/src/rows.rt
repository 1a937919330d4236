// Worked examples, computed by the checker from the definitions.
ghost use Rattle.std.specs.Prelude.{◌≡◌, ◌∷◌, [], take};
ghost use Rattle.capture_model.specs.Capture.{Fault, End, damage, outcome};
ghost use Rattle.capture_model.specs.Rows.{plain, two_records};

use crate::DamageKind;

/// Worked examples: what the definitions make of a capture of two records, whole, cut by one byte, and of an empty file.
pub fn worked_captures()
    ensures whole_capture { outcome two_records ≡ record { records = plain 0 100 ∷ plain 0 100 ∷ []; last = End } }
    ensures last_record_cut_by_one_byte { outcome (take 175 two_records)
        ≡ record { records = plain 0 100 ∷ []; last = Fault (damage 100 DamageKind.ShortRecord) } }
    ensures empty_file_is_no_capture { outcome [] ≡ record { records = []; last = Fault (damage 0 DamageKind.ShortHead) } }
{}
