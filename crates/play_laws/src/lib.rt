//! The laws of every play: what holds of its history whatever its policy is, so long as the policy is lawful. The functions do
//! nothing: each states its laws, and a caller that cites one calls nothing at run time.
#![tactic(auto)]

ghost use Rattle.std.specs.Prelude.{Bool, IsTrue, ◌↔◌, ◌≡◌, ◌≤◌, ◌<◌, ◌+◌, ◌-◌, ◌++◌, ◌∷◌, ℕ, max, List, drop, length, Some, slice_get};
ghost use Rattle.altq_model.specs.declared.Placed.{Placed};
ghost use Rattle.altq_model.specs.declared.Rule.{Rule};
ghost use Rattle.altq_model.specs.Arrivals.{Captured, arrival, arrivals_from, arrivals_of, bare_arrival, bare_arrivals};
ghost use Rattle.capture_model.specs.Capture.{Reads, Record, Step};
ghost use Rattle.altq_model.specs.History.{Arrival, Decision, LabelledEvent, Event, unlabelled, journal, offered};
ghost use Rattle.altq_model.specs.Laws.{IsInTime, KeepsLaws, at_of};
ghost use Rattle.capture_model.specs.Written.{AreWithin, record_texts, written};
ghost use Rattle.altq_model.specs.Busy.{IsBusy, IsLeastStart};
ghost use Rattle.altq_model.specs.declared.Fate.{Fate};
ghost use Rattle.altq_model.specs.Counts.{of_arrivals, of_decisions};
ghost use Rattle.altq_model.specs.Departures.{Dressing, KeepsLength, departed, departures};
ghost use Rattle.altq_model.specs.Idle.{NeverIdles};
ghost use Rattle.altq_model.specs.Link.{HasLinkEnds, link};
ghost use Rattle.altq_model.specs.Play.{AreDue, IsPlay, Policy, first_start, play};
ghost use Rattle.altq_model.specs.Policies.{Answering, one_queue, strict};
ghost use Rattle.play_laws.specs.Heads.{ComeInOrder, StartsWithHead};
ghost use Rattle.play_laws.specs.Events.{AreOfArrivals, HasLaws, IsWhole};
ghost use Rattle.altq_model.specs.Lawful.{AreHeld, AreRising, IsLawful, IsOneOf, IsSteady, NeverWaits, SendsWhen, first_at, greatest, latest};
ghost use Rattle.play_laws.specs.Sizes.{AreSized};
ghost use Rattle.play_laws.specs.Runs.{AreRunEnds, sendings};

/// The moments of arrival of a capture never fall, there is one arrival for each record, those of more records begin with those of
/// the fewer, and a play sees each as it is. Where each record is placed in a class of the policy, every arrival is of a class of the
/// policy.
pub fn arrivals_rise()
    ensures rising { (mark : List ℕ → Placed) (records : List Record) → AreRising (bare_arrivals (arrivals_of mark records)) }
    ensures one_each { (mark : List ℕ → Placed) (records : List Record) → length (bare_arrivals (arrivals_of mark records)) ≡ length records }
    ensures extend { (mark : List ℕ → Placed) (xs ys : List Record)
        → arrivals_of mark (xs ++ ys) ≡ arrivals_of mark xs ++ arrivals_from mark (greatest 0 xs) ys }
    ensures bare_arrivals_extend { (xs ys : List Captured) → bare_arrivals (xs ++ ys) ≡ bare_arrivals xs ++ bare_arrivals ys }
    ensures at { (arrived : List Captured) (n : ℕ) → (arrival arrived n).at ≡ at_of (bare_arrivals arrived) n }
    ensures seen { (arrived : List Captured) (n : ℕ) (a : Arrival) → slice_get (bare_arrivals arrived) (n - 1) ≡ Some a → bare_arrival (arrival arrived n) ≡ a }
    ensures held { (p : Policy) (mark : List ℕ → Placed) (records : List Record) → ((bytes : List ℕ) → IsOneOf (mark bytes).class p.classes)
        → AreHeld p (bare_arrivals (arrivals_of mark records)) }
{}

/// Strict order is lawful and never waits, and so is one queue, which holds every frame of class 1. A policy that never waits is
/// steady.
pub fn strict_order_is_lawful()
    ensures lawful { (classes : List ℕ) (rule : Rule) (answer : Answering) → IsLawful (strict classes rule answer) }
    ensures never_waits { (classes : List ℕ) (rule : Rule) (answer : Answering) → NeverWaits (strict classes rule answer) }
    ensures one_lawful { (limit : ℕ) → IsLawful (one_queue limit) }
    ensures one_never_waits { (limit : ℕ) → NeverWaits (one_queue limit) }
    ensures one_holds { (limit : ℕ) (mark : List ℕ → Placed) (records : List Record) → ((bytes : List ℕ) → (mark bytes).class ≡ 1)
        → AreHeld (one_queue limit) (bare_arrivals (arrivals_of mark records)) }
    ensures steady { (p : Policy) → NeverWaits p → IsSteady p }
{}

/// A policy by when a class may send is lawful and steady, where its moments are the least, an offer changes nothing for a class
/// that waits, and its pick is a candidate wherever there is one.
pub fn policies_by_moments_are_lawful()
    ensures lawful { (allowed : List Event → (c t : ℕ) → Bool) (p : Policy) → SendsWhen (λ h c t. IsTrue (allowed h c t)) p → IsLawful p }
    ensures steady { (allowed : List Event → (c t : ℕ) → Bool) (p : Policy) → SendsWhen (λ h c t. IsTrue (allowed h c t)) p → IsSteady p }
{}

/// The laws of the first events of every play of a lawful policy, however many: each is the offer of the next arrival, or a sending
/// at the least moment at which a class may send, before every arrival that was not offered; each is of the arrival of its number,
/// with its class and length; no number has two fates; each class departs in order of number, no packet starts before it arrives, and
/// each end is that of its run.
pub fn due_events_keep_the_laws()
    ensures laws { (p : Policy) (rate seed : ℕ) (arrived : List Arrival) (g : List LabelledEvent) → 0 < rate → IsLawful p → AreRising arrived
        → AreDue p rate seed arrived g → HasLaws p rate seed arrived g }
{}

/// The laws of every play of a lawful policy whose classes hold each arrival: each packet is sent or dropped, once; each class
/// departs in order of number, no packet starts before it arrives, and each end is that of its run. At the end every arrival was
/// offered, and nothing waits.
pub fn plays_keep_the_laws()
    ensures laws { (p : Policy) (rate seed : ℕ) (arrived : List Arrival) (g : List LabelledEvent) → 0 < rate → IsLawful p → AreRising arrived
        → AreHeld p arrived → IsPlay p rate seed arrived g → KeepsLaws rate arrived g }
    ensures whole { (p : Policy) (rate seed : ℕ) (arrived : List Arrival) (g : List LabelledEvent) → 0 < rate → IsLawful p → AreRising arrived
        → AreHeld p arrived → IsPlay p rate seed arrived g → IsWhole arrived g }
{}

/// The link's ends in words of starts, lengths and ends alone: no sending starts before the end of the one before it, and in a run
/// that began at r each end is r and the time of the run's bytes up to it, rounded up once.
pub fn ends_are_those_of_the_runs()
    ensures ends { (rate : ℕ) (h : List Event) → HasLinkEnds rate h → AreRunEnds rate (sendings h) }
{}

/// The link is busy: each sending starts at the least moment, not before the last end, such that after the offers of all arrivals up
/// to it some waiting class may send at it. It holds of the first events of a play of a steady policy, however many.
pub fn link_is_busy()
    ensures busy { (p : Policy) (rate seed : ℕ) (arrived : List Arrival) (g : List LabelledEvent) → 0 < rate → IsLawful p → IsSteady p → AreRising arrived
        → AreDue p rate seed arrived g → IsBusy p rate (unlabelled g) }
{}

/// Where any class may send at any moment, the link never idles: each sending starts at the greater of the last end and the least
/// arrival of those that are left. It holds of the first events of a play, however many.
pub fn link_never_idles()
    ensures never_idles { (p : Policy) (rate seed : ℕ) (arrived : List Arrival) (g : List LabelledEvent) → 0 < rate → IsLawful p → NeverWaits p
        → AreRising arrived
        → AreHeld p arrived → AreDue p rate seed arrived g → NeverIdles rate arrived g }
{}

/// Where any class may send at any moment, the least moment, not before the last end, such that after the offers of all arrivals up
/// to it some waiting class may send at it, is simply the later of the last end and the earliest arrival of a waiting head. The
/// offers of a play come in order, as this asks.
pub fn busy_is_never_idle()
    ensures same { (p : Policy) (free : ℕ) (h : List Event) (s : ℕ) → NeverWaits p → ComeInOrder free h
        → IsLeastStart p free h s ↔ StartsWithHead p free h s }
    ensures order { (p : Policy) (rate seed : ℕ) (arrived : List Arrival) (g : List LabelledEvent) → 0 < rate → IsLawful p → AreRising arrived
        → AreDue p rate seed arrived g → ComeInOrder (link rate (unlabelled g)).free (unlabelled g) }
{}

/// In a play a steady policy may be asked from one moment for all classes: the greater of the last end and the greatest arrival of
/// what was offered. No class may send before that arrival, and what comes next is no earlier.
pub fn one_moment_serves_all_classes()
    ensures moment { (p : Policy) (rate seed : ℕ) (arrived : List Arrival) (g : List LabelledEvent) → 0 < rate → IsLawful p → IsSteady p → AreRising arrived
        → AreDue p rate seed arrived g
        → first_start p (link rate (unlabelled g)).free (unlabelled g) p.classes
        ≡ first_at p (max (link rate (unlabelled g)).free (latest (unlabelled g))) (unlabelled g) p.classes }
    ensures arrived { (p : Policy) (rate seed : ℕ) (arrived : List Arrival) (g : List LabelledEvent) → 0 < rate → IsLawful p → AreRising arrived
        → AreDue p rate seed arrived g → (s : ℕ) → first_start p (link rate (unlabelled g)).free (unlabelled g) p.classes ≡ Some s → latest (unlabelled g) ≤ s }
    ensures next { (p : Policy) (rate seed : ℕ) (arrived : List Arrival) (g : List LabelledEvent) → 0 < rate → IsLawful p → AreRising arrived
        → AreDue p rate seed arrived g → (a : Arrival) → slice_get arrived (offered (unlabelled g)) ≡ Some a → latest (unlabelled g) ≤ a.at }
{}

/// The play is one: of two histories of due events the shorter is the older part of the longer, so two plays of the same policy,
/// rate, seed and arrivals are the same; for a lawful policy there is one, which `play` computes. Events before the offer of the
/// last known arrival, and that offer, are the same whatever comes later.
pub fn the_play_is_one()
    ensures older_part { (p : Policy) (rate seed : ℕ) (arrived : List Arrival) (g k : List LabelledEvent) → AreDue p rate seed arrived g
        → AreDue p rate seed arrived k → length g ≤ length k → drop (length k - length g) k ≡ g }
    ensures one { (p : Policy) (rate seed : ℕ) (arrived : List Arrival) (g k : List LabelledEvent) → IsPlay p rate seed arrived g
        → IsPlay p rate seed arrived k → g ≡ k }
    ensures exists { (p : Policy) (rate seed : ℕ) (arrived : List Arrival) → 0 < rate → IsLawful p → AreRising arrived
        → IsPlay p rate seed arrived (play p rate seed arrived) }
    ensures later_arrivals { (p : Policy) (rate seed : ℕ) (arrived more : List Arrival) (e : LabelledEvent) (g : List LabelledEvent)
        → offered (unlabelled g) < length arrived
        → AreDue p rate seed arrived (e ∷ g) → AreDue p rate seed (arrived ++ more) (e ∷ g) }
{}

/// The records of a capture have the sizes that a capture may have, and the departures of a history of their play, each sending in
/// time, are within the limits of one: so they read back as a capture of just these records, where frames keep their lengths.
pub fn departures_are_within()
    ensures sized { (bytes : List ℕ) (records : List Record) (last : Step) → Reads bytes records last → AreSized records }
    ensures within { (dress : Dressing) (mark : List ℕ → Placed) (records : List Record) (p : Policy) (rate seed : ℕ) (g : List LabelledEvent)
        → KeepsLength dress → AreSized records → HasLaws p rate seed (bare_arrivals (arrivals_of mark records)) g → IsInTime g
        → AreWithin (departed dress (arrivals_of mark records) g) }
{}

/// Counts add up: those of a longer list of arrivals, or of decisions, are those of its front plus those of the rest. What was
/// decided of packets that arrived counts the same, whatever arrives later.
pub fn counts_add_up()
    ensures arrivals { (meant : Captured → Bool) (amount : Captured → ℕ) (xs ys : List Captured)
        → of_arrivals meant amount (xs ++ ys) ≡ of_arrivals meant amount xs + of_arrivals meant amount ys }
    ensures decisions { (meant : Captured → Bool) (told : Fate → Bool) (amount : Captured → ℕ) (arrived : List Captured) (xs ys : List Decision)
        → of_decisions meant told amount arrived (xs ++ ys) ≡ of_decisions meant told amount arrived xs + of_decisions meant told amount arrived ys }
    ensures stay { (meant : Captured → Bool) (told : Fate → Bool) (amount : Captured → ℕ) (arrived more : List Captured) (g : List LabelledEvent)
        → AreOfArrivals (bare_arrivals arrived) g
        → of_decisions meant told amount (arrived ++ more) (journal g) ≡ of_decisions meant told amount arrived (journal g) }
{}

/// The journal of more events begins with that of the older ones, as do the records of their departures, and so does the text of more
/// records. The departures of packets that arrived are the same, whatever arrives later.
pub fn journals_extend()
    ensures journal { (es g : List LabelledEvent) → journal (es ++ g) ≡ journal g ++ journal es }
    ensures records { (xs ys : List Record) → written (xs ++ ys) ≡ written xs ++ record_texts ys }
    ensures departed { (dress : Dressing) (arrived : List Captured) (es g : List LabelledEvent)
        → (more : List Record) × (departed dress arrived (es ++ g) ≡ departed dress arrived g ++ more) }
    ensures departures { (dress : Dressing) (arrived : List Captured) (es g : List LabelledEvent)
        → (more : List Record) × (departures dress arrived (es ++ g) ≡ departures dress arrived g ++ record_texts more) }
    ensures departed_stay { (dress : Dressing) (arrived more : List Captured) (g : List LabelledEvent) → AreOfArrivals (bare_arrivals arrived) g
        → departed dress (arrived ++ more) g ≡ departed dress arrived g }
{}
