//! Conditioners.

use traffic_meter::MeterRule;

/// What a `conditioner` gives a class.
#[derive(Clone, Copy)]
pub(crate) struct Conditioner {
    /// The number of its class among the classes of its interface.
    pub(crate) class: u32,
    pub(crate) rule: MeterRule,
}
