// The disciplines.
ghost use Rattle.std.specs.Prelude.{◌≡◌, [], IfOk};
ghost use Rattle.conf_laws.specs.Fit.{IsInterface};
ghost use Rattle.conf_tree.specs.declared.interface.Kind.TheVariants as kind;
ghost use Rattle.discipline.specs.Laws.{HasRate};
ghost use Rattle.hfsc_order.specs.Queue.{IsOneQueue};
ghost use Rattle.interface_policy.specs.Classes.{hfsc_classes};
ghost use Rattle.interface_policy.specs.Policy.{policy_of};

use crate::classes::{cbq_classes, hfsc_classes};
use crate::queues::queues_of;
use cbq_rounds::Cbq;
use conf_tree::Interface;
use discipline::Discipline;
use hfsc_core::Hfsc;
use hfsc_order::one_leaf_is_one_queue;
use one_queue::OneQueue;
use play_base::NoMemory;
use rio_precedence::AnyQueue;
use std::alloc::Global;

/// The discipline of an interface that shares its link by HFSC, to which nothing was offered yet. Takes all the memory that it will
/// ever take; `NoMemory` comes only when memory runs out.
pub fn hfsc_of(alloc: Global, interface: &Interface) -> Result<Hfsc<AnyQueue>, NoMemory>
    requires fit { IsInterface interface.now }
    requires kind { interface.now.kind ≡ kind.Hfsc }
    ensures empty { IfOk result (λ d. (⟦<Hfsc<AnyQueue> as Discipline>⟧.view d).represents []) }
    ensures policy { IfOk result (λ d. (⟦<Hfsc<AnyQueue> as Discipline>⟧.view d).policy ≡ policy_of interface.now) }
    ensures rate { IfOk result (λ d. HasRate (⟦<Hfsc<AnyQueue> as Discipline>⟧.view d).link_rate interface.now.rate) }
{
    let classes = hfsc_classes(alloc, interface.classes.as_slice())?;
    let queues = queues_of(alloc, interface.classes.as_slice(), interface.rate)?;
    Hfsc::build(alloc, classes.as_slice(), queues)
}

/// The discipline of an interface whose play is that of one queue, the queue of this class, likewise: its plays are those of HFSC.
pub fn one_queue_of(
    alloc: Global,
    interface: &Interface,
    class: u32,
) -> Result<OneQueue<AnyQueue>, NoMemory>
    requires fit { IsInterface interface.now }
    requires kind { interface.now.kind ≡ kind.Hfsc }
    requires one { IsOneQueue (hfsc_classes interface.now.classes) class }
    ensures empty { IfOk result (λ d. (⟦<OneQueue<AnyQueue> as Discipline>⟧.view d).represents []) }
    ensures policy { IfOk result (λ d. (⟦<OneQueue<AnyQueue> as Discipline>⟧.view d).policy ≡ policy_of interface.now) }
    ensures rate { IfOk result (λ d. HasRate (⟦<OneQueue<AnyQueue> as Discipline>⟧.view d).link_rate interface.now.rate) }
{
    one_leaf_is_one_queue();
    let queues = queues_of(alloc, interface.classes.as_slice(), interface.rate)?;
    OneQueue::build(alloc, class, queues)
}

/// The discipline of an interface that shares its link by CBQ, likewise.
pub fn cbq_of(alloc: Global, interface: &Interface) -> Result<Cbq<AnyQueue>, NoMemory>
    requires fit { IsInterface interface.now }
    requires kind { interface.now.kind ≡ kind.Cbq }
    ensures empty { IfOk result (λ d. (⟦<Cbq<AnyQueue> as Discipline>⟧.view d).represents []) }
    ensures policy { IfOk result (λ d. (⟦<Cbq<AnyQueue> as Discipline>⟧.view d).policy ≡ policy_of interface.now) }
    ensures rate { IfOk result (λ d. HasRate (⟦<Cbq<AnyQueue> as Discipline>⟧.view d).link_rate interface.now.rate) }
{
    let classes = cbq_classes(alloc, interface.classes.as_slice())?;
    let queues = queues_of(alloc, interface.classes.as_slice(), interface.rate)?;
    Cbq::build(alloc, classes.as_slice(), interface.rate, queues)
}
