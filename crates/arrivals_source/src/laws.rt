// The laws of a source. The function does nothing: it states them.
ghost use Rattle.std.specs.Prelude.{List, ℕ};
ghost use Rattle.altq_model.specs.declared.Placed.{Placed};
ghost use Rattle.play_base.specs.View.{View};
ghost use Rattle.arrivals_source.specs.Reading.{IsReadWhole, ReadsByWay};
ghost use Rattle.pcapng_files.specs.declared.front.Front.{Front};
ghost use Rattle.arrivals_source.specs.declared.way.Way.{Way};

use discipline::Classify;

/// Which capture is read in each way; and whoever reads the arrivals of a source from the front to the end has read exactly that, in
/// whatever pieces.
#[tactic(auto, using(crate::proofs::SourceLaws::reads_by_way, crate::proofs::SourceLaws::is_read_whole))]
pub fn reading_arrivals<C: Classify>(_classes: &C)
    ensures ways { (v : View) (file : ℕ) (front : Front) (own : List ℕ) → ReadsByWay C.placed v file front own }
    ensures whole { (v w : View) (reference file : ℕ) (front : Front) (way : Way C) (capture bytes : List ℕ) →
        IsReadWhole C.placed v w reference file front way capture bytes }
{}
