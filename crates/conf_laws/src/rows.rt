//! Worked rows of the configuration.
ghost use Rattle.conf_laws.specs.Rows.{LinesAre, EndsAre, NamesAre, RangesAre, OrdersAre, LaterAre, FiltersAre, PartsAre, ConditionersAre, ImpliedAre};

/// Worked rows, computed from the definitions: first faults with their places and kinds, and canonical texts.
pub fn worked_rows()
    ensures lines { LinesAre }
    ensures ends { EndsAre }
    ensures names { NamesAre }
    ensures ranges { RangesAre }
    ensures orders { OrdersAre }
    ensures later { LaterAre }
    ensures filters { FiltersAre }
    ensures parts { PartsAre }
    ensures conditioners { ConditionersAre }
    ensures implied { ImpliedAre }
{}
