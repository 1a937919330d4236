//! The filter that wins.
ghost use Rattle.std.specs.Prelude.{◌≡◌, option_copied};
ghost use Rattle.flow_filter.specs.Index.{Indexes};
ghost use Rattle.flow_filter.specs.Winner.{matching, winner};
ghost use Rattle.packet_heads.specs.Heads.{flow_of};

use crate::index::Index;
use crate::ranking::filter_at;
use conf_tree::Filter;
use packet_heads::FlowHeads;

/// Of the filters that match the first one whose rule number is the greatest.
pub(crate) fn winner<'a>(
    filters: &'a [Filter],
    index: &Index,
    heads: &FlowHeads,
) -> Option<&'a Filter>
    requires { Indexes filters.now index.now }
    ensures { option_copied result ≡ winner (matching filters.now (flow_of heads.now)) }
{
    match index.first(heads) {
        Some(rank) => filter_at(filters, index.places.as_slice(), rank),
        None => None,
    }
}
