//! The filters of an interface.
ghost use Rattle.std.specs.Prelude.{◌≡◌, ◌==◌, IfOk, IfSome, None, Some, length, if◌then◌else◌};
ghost use Rattle.flow_filter.specs.Ranked.{IsRanked};
ghost use Rattle.flow_filter.specs.Rules.{rules_of};
ghost use Rattle.flow_filter.specs.Winner.{class_of};
ghost use Rattle.packet_heads.specs.Flow.{Flow};
ghost use Rattle.packet_heads.specs.Heads.{flow_of};

use crate::control::{default_class, push_control};
use crate::index::Index;
use crate::winner::winner;
use conf_tree::{Filter, Interface};
use packet_heads::FlowHeads;
use play_base::NoMemory;
use std::alloc::Global;
use std::marker::Model;

/// The filters of an interface, those that `control` adds among them, and its default class. Contracts see the `Rules` of
/// the interface.
#[derive(Drop)]
pub struct Filters {
    filters: Vec<Filter>,
    otherwise: u32,
    index: Index,
}

impl Model for Filters {
    ghost use Rattle.flow_filter.specs.Index.{Indexes};
    ghost use Rattle.flow_filter.specs.Rules.{Rules};

    ghost Value = { Rules };

    ghost view = { λ f. record { filters = f.filters.items; otherwise = f.otherwise } };

    ghost invariant = { λ f. Indexes f.filters.items f.index };
}

impl Filters {
    /// The filters of an interface: those of the text, in its order, and behind them those of each class with `control`, in
    /// the order of the classes.
    ///
    /// They are sorted here, by their rule numbers downwards and then by their places, so that `class` can ask them in that
    /// order. Returns `NoMemory` where memory ran out, or where there are 2^32 filters or more, or the default class or one
    /// with `control` has such a number, which no configuration has. Takes memory linear in the filters and classes, and time
    /// for sorting them. See altq.conf(5).
    pub fn build(alloc: Global, interface: &Interface) -> Result<Filters, NoMemory>
        ensures { IfOk result (λ filters. filters ≡ rules_of interface.now) }
    {
        let mut filters = Vec::new(alloc);
        filters.extend_from_slice(interface.filters.as_slice())?;
        push_control(&mut filters, interface.classes.as_slice())?;
        let otherwise = default_class(interface.classes.as_slice())?;
        let index = Index::build(alloc, filters.as_slice())?;
        Ok(Filters {
            filters,
            otherwise,
            index,
        })
    }

    /// The number of the class of a flow: that of the filter that wins among those that match, or the default class where
    /// none does, as for every `Other`. Addresses are of four or sixteen bytes in the flow of a frame. An IPv4 address of
    /// fewer bytes, or an IPv6 address of another length, matches no filter; of a longer IPv4 address only the first four
    /// bytes are compared. Does not allocate. Only filters of the flow's version are asked, and of those that fix a port only
    /// those of the flow's ports; they are found at one look or by bisection, and asked up to the first that matches, at a few loads and
    /// compares of numbers each. Those that fix none are asked likewise. See altq.conf(5).
    pub fn class(&self, heads: &FlowHeads) -> u32
        ensures { result ≡ class_of self.now (flow_of heads.now) }
    {
        match winner(self.filters.as_slice(), &self.index, heads) {
            Some(filter) => filter.class,
            None => self.otherwise,
        }
    }

    /// The class of every flow where there are no filters: the default class. None where there are any. Constant time.
    pub fn only_class(&self) -> Option<u32>
        ensures value { result ≡ (if length self.now.filters == 0 then Some self.now.otherwise else None) }
        ensures class { IfSome result (λ class. (flow : Flow) → class_of self.now flow ≡ class) }
    {
        if self.filters.is_empty() {
            Some(self.otherwise)
        } else {
            None
        }
    }

    /// The places of the filters, from 0, in the order in which they are asked: by their rule numbers downwards, and those of
    /// one number by their places. Those of the text stand first, and behind them those of `control`. Constant time.
    pub fn ranked(&self) -> &[u32]
        ensures { IsRanked self.now.filters result.now }
    {
        self.index.places.as_slice()
    }
}
