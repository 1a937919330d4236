// The next event of a play.
ghost use Rattle.std.specs.Prelude.{◌≡◌, ◌≢◌, ◌≤◌, ◌<◌, ◌*◌, ◌+◌, ◌^◌, ◌∷◌, [], ℕ, true, false, List, IfOk, OnOk, IsSome, Some, is_some, length, if◌then◌else◌};
ghost use Rattle.altq_model.specs.Arrivals.{Captured, bare_arrival, bare_arrivals};
ghost use Rattle.altq_model.specs.History.{DrawnWords, LabelledEvent, unlabelled, is_kept, is_mark};
ghost use Rattle.altq_model.specs.Lawful.{AreRising, IsOneOf};
ghost use Rattle.altq_model.specs.Play.{offer_of};
ghost use Rattle.discipline.specs.Laws.{HasRate};
ghost use Rattle.discipline.specs.View.{SameKind};
ghost use Rattle.leaf_queue.specs.Pool.{count_of, is_marked, packet_of};
ghost use Rattle.play_core.specs.Going.{IsGoing, one_kept};
ghost use Rattle.play_core.specs.Turns.{ComesNext, Offers, arrives, packet_of_lent, drop_of, turned};

use crate::state::Progress;
use crate::step::{Step, next_step};
use crate::{Departure, Dropped, LentPacket, Totals, Turn};
use altq_model::{Placed, Verdict};
use discipline::Discipline;
use leaf_queue::{Pool, Words};
use link_clock::LinkClock;
use play_base::{Bytes, NoMemory, Packet};
use std::alloc::Global;
use std::mem::replace;

impl Progress {
    /// Begins the play of a discipline that nothing was offered yet, over a link of `rate` bits per second, 1,000 to 10^12. Takes
    /// the memory of a place for each packet that the discipline has room for, and of one more; what the bytes of a packet take comes
    /// with its offer. `NoMemory` comes only when memory runs out.
    pub fn begin<D: Discipline>(
        alloc: Global,
        discipline: &D,
        rate: u64,
    ) -> Result<Progress, NoMemory>
        requires least { 1000 ≤ rate }
        requires most { rate ≤ 10 ^ 12 }
        requires rate { HasRate (D.view discipline.now).link_rate rate }
        requires new { (D.view discipline.now).represents [] }
        ensures rate { IfOk result (λ x. x.clock.rate ≡ rate) }
        ensures going { IfOk result (λ x. (arrived : List Captured) (w : DrawnWords) → w.drawn ≡ 0 → AreRising (bare_arrivals arrived)
            → length arrived ≤ 4000000 →
            IsGoing (D.view discipline.now) arrived w x []) }
    {
        let pool = Pool::reserve(alloc, discipline.room() + 1)?;
        Ok(Progress {
            clock: LinkClock::new(rate),
            pool,
            latest: 0,
            totals: Totals {
                arrived: 0,
                sent: 0,
                dropped: 0,
                last_end: 0,
            },
        })
    }

    /// The counts so far.
    pub fn totals(&self) -> Totals
        ensures { result ≡ self.now.totals }
    {
        self.totals
    }

    /// Offers the next arrival, which is due, to the class in which it was placed; its number is one more than that of the last one.
    /// The packet is kept, or what is told of its drop is answered. Only a packet that is kept has its bytes copied: they take the memory
    /// of `room`, in place of what stands there, and more only where that does not hold them; `room` has none then. The only error is
    /// lack of memory for these bytes, and then the play cannot go on.
    #[inline(always)]
    pub fn offer<D: Discipline>(
        &mut self,
        discipline: &mut D,
        words: &mut Words,
        packet: &LentPacket<'_>,
        placed: Placed,
        room: &mut Vec<u8>,
    ) -> Result<Option<Dropped>, NoMemory>
        requires class { IsOneOf placed.class (D.view discipline.old).policy.classes }
        requires prec { placed.prec ≤ 2 }
        requires some { 1 ≤ packet.now.len }
        requires short { packet.now.len ≤ 262144 }
        requires early { packet.now.at < 2 ^ 62 }
        requires next { (arrived : List Captured) × (g : List LabelledEvent) × (a : Captured)
            × IsGoing (D.view discipline.old) arrived words.old self.old g
            × Offers (D.view discipline.old).policy self.old.clock.rate words.old.seed arrived g a packet.now placed }
        ensures offered { OnOk result ((arrived : List Captured) (g : List LabelledEvent) (a : Captured)
            → IsGoing (D.view discipline.old) arrived words.old self.old g
            → Offers (D.view discipline.old).policy self.old.clock.rate words.old.seed arrived g a packet.now placed
            → IsGoing (D.view discipline.new) arrived words.new self.new
            (offer_of (D.view discipline.old).policy words.old.seed g (bare_arrival a) ∷ g)) }
        ensures told { IfOk result (λ dropped. (arrived : List Captured) (g : List LabelledEvent) (a : Captured)
            → IsGoing (D.view discipline.old) arrived words.old self.old g
            → Offers (D.view discipline.old).policy self.old.clock.rate words.old.seed arrived g a packet.now placed
            → dropped ≡ drop_of ((D.view discipline.old).policy.answer (unlabelled g) words.old (bare_arrival a)).verdict packet.now) }
        ensures rate { self.new.clock.rate ≡ self.old.clock.rate }
        ensures seed { words.new.seed ≡ words.old.seed }
        ensures kind { SameKind (D.view discipline.old) (D.view discipline.new) }
    {
        let ticket = self.pool.next();
        let Placed { class, prec } = placed;
        let verdict = discipline.offer(ticket, class, packet.len, prec, packet.at, words);
        match admit(&mut self.pool, packet, verdict, room) {
            Ok(dropped) => {
                self.latest = packet.at;
                self.totals.arrived += 1;
                self.totals.dropped += drop_count(&dropped);
                Ok(dropped)
            }
            Err(_) => Err(NoMemory),
        }
    }

    /// The next event of the play, given the moment of the next arrival, if there is one: the offer of that arrival if it comes up to
    /// the least moment at which a class may send, else the sending at that moment, which is made if it ends before the clock does.
    /// Does not allocate; one division.
    #[inline(always)]
    pub fn turn<D: Discipline>(&mut self, discipline: &mut D, arrival: Option<u64>) -> Turn
        requires going { (arrived : List Captured) × (w : DrawnWords) × (g : List LabelledEvent) × IsGoing (D.view discipline.old) arrived w self.old g }
        ensures turned { (arrived : List Captured) (w : DrawnWords) (g : List LabelledEvent)
            → IsGoing (D.view discipline.old) arrived w self.old g → arrival ≡ arrives arrived g
            → ComesNext (D.view discipline.old).policy self.old.clock.rate w.seed arrived g result
            × IsGoing (D.view discipline.new) arrived w self.new (turned result g) }
        ensures offers { result ≡ Turn.Offer → IsSome arrival }
        ensures number { (d : Departure) → result ≡ Turn.Send d → (1 ≤ d.packet.number) × (d.packet.number ≤ self.new.totals.arrived) }
        ensures in_time { (d : Departure) → result ≡ Turn.Send d → d.end < 2 ^ 32 * 10 ^ 9 }
        ensures rate { self.new.clock.rate ≡ self.old.clock.rate }
        ensures kind { SameKind (D.view discipline.old) (D.view discipline.new) }
    {
        let moment = self.clock.free().max(self.latest);
        let sending = match next_step(discipline, &self.clock, moment, arrival) {
            Step::End => return Turn::End,
            Step::Offer => return Turn::Offer,
            Step::Late => return Turn::Late,
            Step::Send(sending) => sending,
        };
        discipline.sent(sending, &self.clock);
        self.clock.sent(sending.start, sending.len, sending.end);
        self.totals.sent += 1;
        self.totals.last_end = sending.end;
        Turn::Send(Departure {
            class: sending.class,
            marked: self.pool.marked(sending.ticket),
            packet: self.pool.take(sending.ticket),
            rule: sending.rule,
            start: sending.start,
            end: sending.end,
        })
    }
}

// How many packets were dropped: one or none.
fn drop_count(dropped: &Option<Dropped>) -> u64
    ensures { result ≡ (if is_some dropped.now then 1 else 0) }
{
    match dropped {
        Some(_) => 1,
        None => 0,
    }
}

// Puts a packet into the pool, marked or not, or tells of its drop, by its verdict.
#[inline(always)]
fn admit(
    pool: &mut Pool,
    packet: &LentPacket<'_>,
    verdict: Verdict,
    room: &mut Vec<u8>,
) -> Result<Option<Dropped>, NoMemory>
    requires { count_of pool.old < pool.old.room }
    ensures held { OnOk result ((t : ℕ) (other : Packet) → packet_of pool.old t ≡ Some other → packet_of pool.new t ≡ Some other) }
    ensures marks { OnOk result ((t : ℕ) (other : Packet) → packet_of pool.old t ≡ Some other → is_marked pool.new t ≡ is_marked pool.old t) }
    ensures kept { OnOk result (is_kept verdict ≡ true → packet_of pool.new pool.old.next ≡ Some (packet_of_lent packet.now)) }
    ensures mark { OnOk result (is_kept verdict ≡ true → is_marked pool.new pool.old.next ≡ is_mark verdict) }
    ensures count { OnOk result (count_of pool.new ≡ count_of pool.old + one_kept verdict) }
    ensures room { OnOk result (pool.new.room ≡ pool.old.room) }
    ensures told { IfOk result (λ dropped. dropped ≡ drop_of verdict packet.now) }
{
    let marked = match verdict {
        Verdict::Keep => false,
        Verdict::Mark => true,
        Verdict::Drop(reason) => {
            return Ok(Some(Dropped {
                number: packet.number,
                at: packet.at,
                len: packet.len,
                reason,
            }));
        }
    };
    match held(packet, room) {
        Ok(packet) => {
            pool.put(packet, marked);
            Ok(None)
        }
        Err(_) => Err(NoMemory),
    }
}

// The packet with its bytes, which are copied into the memory of `room`.
#[inline(always)]
fn held(packet: &LentPacket<'_>, room: &mut Vec<u8>) -> Result<Packet, NoMemory>
    ensures { IfOk result (λ held. held ≡ packet_of_lent packet.now) }
{
    let empty = Vec::new(*room.allocator());
    let mut bytes = replace(room, empty);
    bytes.clear();
    bytes.extend_from_slice(packet.bytes)?;
    Ok(Packet {
        number: packet.number,
        at: packet.at,
        len: packet.len,
        bytes: Bytes::of(bytes),
    })
}
