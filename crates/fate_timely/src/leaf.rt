// A class with a real-time curve, and the packets that it sent.
ghost use Rattle.std.specs.Prelude.{◌≡◌, ◌<◌, ◌≤◌, ◌+◌, ◌*◌, ◌^◌, ◌∷◌, [], ℕ, List, IfSome};
ghost use Rattle.play_base.specs.Units.{units};
ghost use Rattle.service_curve.specs.declared.Curve.{Curve};
ghost use Rattle.service_curve.specs.Curve.{IsInRange};
ghost use Rattle.runtime_curve.specs.Deadline.{deadline};
ghost use Rattle.runtime_curve.specs.Opening.{RisesFromZero};
ghost use Rattle.runtime_curve.specs.Running.{Represents};
ghost use Rattle.hfsc_model.specs.Timely.{opens, units_of, Row as SentRow};
ghost use Rattle.fate_timely.specs.Leaf.{IsLeaf, IsSound, OpenBy, opens_at, opens_with};

use crate::late::{late, later};
use runtime_curve::Running;
use service_curve::Curve;

// The units of a byte: a slope of m bits per second gives m·t units in t nanoseconds.
const BYTE: u128 = 8_000_000_000;

// The curve over the openings so far; the units sent; the start of the last packet; and how late the latest came.
#[derive(Clone, Copy)]
pub(crate) struct Leaf {
    pub(crate) running: Running,
    pub(crate) units: u128,
    pub(crate) last: Option<u64>,
    pub(crate) worst: Option<i128>,
}

// Whether a packet opens the class: the first does, and each that arrives later than the last start.
fn opens_at(last: Option<u64>, at: u64) -> bool
    ensures { result ≡ opens_at last at }
{
    match last {
        Some(last) => last < at,
        None => true,
    }
}

impl Leaf {
    // A class that sent nothing.
    pub(crate) fn new(curve: Curve) -> Leaf
        requires range { IsInRange curve }
        requires rises { RisesFromZero curve }
        ensures { IsLeaf curve [] result }
    {
        Leaf {
            running: Running::new(curve),
            units: 0,
            last: None,
            worst: None,
        }
    }

    // A packet that is sent next may open the class.
    fn open(&mut self, at: u64)
        requires sound { IsSound self.old }
        requires few { self.old.units < 2 ^ 99 }
        ensures units { self.new.units ≡ self.old.units }
        ensures last { self.new.last ≡ self.old.last }
        ensures worst { self.new.worst ≡ self.old.worst }
        ensures opens { (s : Curve) (rs : List SentRow) → IsLeaf s rs self.old → Represents self.new.running s (opens_with at rs) }
        ensures open { (t : ℕ) → at ≤ t → IfSome self.old.last (λ last. last ≤ t) → OpenBy self.new t }
    {
        if opens_at(self.last, at) {
            self.running.begin(u128::from(at), self.units);
        }
    }

    // Tells of a packet that is sent; answers its due moment, if it has one.
    pub(crate) fn sent(&mut self, at: u64, len: u32, start: u64, end: u64) -> Option<u128>
        requires some { 0 < len }
        requires few { self.old.units < 2 ^ 98 }
        requires after_arrival { at ≤ start }
        requires after_last { IfSome self.old.last (λ last. last ≤ start) }
        requires known { (s : Curve) × (rs : List SentRow) × IsLeaf s rs self.old }
        ensures units { self.new.units ≡ self.old.units + units len }
        ensures bounded { IfSome result (λ t. t < 2 ^ 120) }
        ensures due { (s : Curve) (rs : List SentRow) → IsLeaf s rs self.old
            → result ≡ deadline s (opens (record { at = at; len = len; start = start; end = end } ∷ rs)) (units_of (record {
              at = at;
              len = len;
              start = start;
              end = end;
            } ∷ rs)) }
        ensures stands { (s : Curve) (rs : List SentRow) → IsLeaf s rs self.old
            → IsLeaf s (record { at = at; len = len; start = start; end = end } ∷ rs) self.new }
    {
        self.open(at);
        self.units += u128::from(len) * BYTE;
        self.last = Some(start);
        let due = self.running.deadline(self.units);
        self.worst = later(late(end, due), self.worst);
        due
    }
}
