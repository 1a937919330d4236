// Where an interface puts its frames.
ghost use Rattle.std.specs.Prelude.{◌≡◌, IfOk};
ghost use Rattle.frame_classes.specs.Frames.{classes_of, dress_in, place_in, placed_flow, precedence_by};
ghost use Rattle.frame_classes.specs.Handlings.{handling_at};
ghost use Rattle.packet_heads.specs.Departing.{tos_of};
ghost use Rattle.packet_heads.specs.Heads.{flow_of};

use crate::handling::{Handling, handling_at, handlings};
use altq_model::Placed;
use conf_tree::Interface;
use discipline::Classify;
use flow_filter::Filters;
use packet_heads::{FlowHeads, dress, flow, precedence_of, tos};
use play_base::NoMemory;
use std::alloc::Global;
use std::marker::Model;

/// Tells of each frame the class of its flow by the filters of an interface, and its precedence in the class's queue; and leaves a
/// frame as it departs. Contracts see what is kept of the interface.
#[derive(Drop)]
pub struct Classifier {
    filters: Filters,
    handlings: Vec<Handling>,
}

impl Model for Classifier {
    ghost use Rattle.frame_classes.specs.Frames.{Classes};

    ghost Value = { Classes };

    ghost view = { λ c. record { rules = c.filters; handlings = c.handlings.items } };
}

impl Classifier {
    /// The classifier of an interface. Returns `NoMemory` where memory ran out, or where it has 2^32 filters or classes, which no
    /// configuration has. Takes time for sorting the filters.
    pub fn build(alloc: Global, interface: &Interface) -> Result<Classifier, NoMemory>
        ensures kept { IfOk result (λ c. c ≡ classes_of interface.now) }
        ensures placed { IfOk result (λ c. ⟦<Classifier as Classify>⟧.placed c ≡ place_in interface.now) }
        ensures dressed { IfOk result (λ c. ⟦<Classifier as Classify>⟧.dressed c ≡ dress_in interface.now) }
    {
        let filters = Filters::build(alloc, interface)?;
        let handlings = handlings(alloc, interface.classes.as_slice())?;
        Ok(Classifier { filters, handlings })
    }

    // Where a packet of a class belongs by its type of service or traffic class.
    fn place_plain(&self, class: u32, tos: u8) -> Placed
        ensures { result ≡ record { class = class; prec = precedence_by (handling_at self.now.handlings class).marks tos } }
    {
        let handling = handling_at(self.handlings.as_slice(), class);
        Placed {
            class,
            prec: precedence_by(handling.marks, tos),
        }
    }

    // Where a flow belongs.
    fn place(&self, heads: &FlowHeads) -> Placed
        ensures { result ≡ placed_flow self.now (flow_of heads.now) }
    {
        let class = self.filters.class(heads);
        self.place_plain(class, tos_in(heads))
    }
}

// The type of service or traffic class of a flow, 0 of `Other`.
fn tos_in(heads: &FlowHeads) -> u8
    ensures { result ≡ tos_of (flow_of heads.now) }
{
    match heads {
        FlowHeads::V4 { tos, .. } => *tos,
        FlowHeads::V6 { tos, .. } => *tos,
        FlowHeads::Other => 0,
    }
}

// The precedence in a class that marks, or not, by the type of service or traffic class.
fn precedence_by(marks: bool, tos: u8) -> u8
    ensures { result ≡ precedence_by marks tos }
{
    if marks {
        u8::from(tos % 4 != 0)
    } else {
        precedence_of(tos >> 2)
    }
}

impl Classify for Classifier {
    ghost use Rattle.frame_classes.specs.Frames.{dressed_by, placed_by};
    ghost use Rattle.frame_classes.specs.Handlings.{handling_at};
    ghost use Rattle.packet_heads.proofs.Lengths.{length-departing};

    ghost placed = { placed_by };

    ghost dressed = { dressed_by };

    /// Does not allocate. Of the filters that fix a port only those of the flow's ports are asked, found at one look or by bisection.
    /// Where there are no filters, of the flow the type of service or traffic class alone is read.
    fn class(&self, frame: &[u8]) -> Placed {
        match self.filters.only_class() {
            Some(class) => self.place_plain(class, tos(frame)),
            None => self.place(&flow(frame)),
        }
    }

    /// Clears the code point in a class that asks for it, and marks the packet where its queue did. Does not allocate; constant time.
    #[inline(always)]
    fn dress(&self, class: u32, marked: bool, frame: &mut [u8]) {
        let handling = handling_at(self.handlings.as_slice(), class);
        dress(frame, handling.clears, marked);
    }

    ghost lengths = { λ c class marked frame. length-departing (handling_at c.handlings class).clears marked frame };
}
