// A packet at the bound of the guarantee of its curve, and one behind it.
ghost use Rattle.hfsc_model.specs.Timely.{IsTimely};
ghost use Rattle.hfsc_model.specs.TimelyRows.{curves_of_one, link_rate, sent_from};

/// A packet may end as long after its due moment as the longest packet takes, and not a nanosecond later. One that takes 1,000,000 ns,
/// alone, due at 1,000,000, is timely where it ends at 2,000,000, and is not where it ends at 2,000,001.
pub fn timely_at_the_bound()
    ensures timely { IsTimely link_rate curves_of_one (sent_from 1000000) }
    ensures late { IsTimely link_rate curves_of_one (sent_from 1000001) → ⊥ }
{}
