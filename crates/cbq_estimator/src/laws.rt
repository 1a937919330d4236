// Laws of the estimator's histories. The functions do nothing: each states its laws.
ghost use Rattle.std.specs.Prelude.{◌≡◌, ◌≤◌, ◌<◌, ◌∷◌, ℕ, List, IsTrue};
ghost use Rattle.altq_model.specs.History.{Event};
ghost use Rattle.altq_model.specs.Link.{Link, link};
ghost use Rattle.cbq_estimator.specs.Average.{Pace, Ended};
ghost use Rattle.cbq_estimator.specs.Estimate.{Estimate, Represents};
ghost use Rattle.cbq_estimator.specs.Now.{IsLeastStartNow, after_end, allows_now, estimate_of, start_now};
ghost use Rattle.cbq_estimator.specs.Capped.{RisesByIdleTime, KeepsItsRate};
ghost use Rattle.cbq_estimator.specs.Starts.{allows, allows_start, least_start, EndsItsRun, IsLeastStart};

/// There is a least moment at which a packet is allowed to start, from each moment on, and one alone. From it on the packet
/// is allowed at each moment. The link is one after some sendings.
pub fn least_starts_are_told()
    ensures told { (p : Pace) (h : List Ended) (rate : ℕ) (l : Link) (now len : ℕ) → 0 < rate → EndsItsRun rate l
        → IsLeastStart p h rate l now len (least_start p h rate l now len) }
    ensures one { (p : Pace) (h : List Ended) (rate : ℕ) (l : Link) (now len s t : ℕ)
        → IsLeastStart p h rate l now len s → IsLeastStart p h rate l now len t → s ≡ t }
    ensures stays { (p : Pace) (h : List Ended) (rate : ℕ) (l : Link) (len t u : ℕ) → 0 < rate → EndsItsRun rate l → t ≤ u
        → IsTrue (allows_start p h rate l t len) → IsTrue (allows_start p h rate l u len) }
    ensures links { (rate : ℕ) (h : List Event) → 0 < rate → EndsItsRun rate (link rate h) }
{}

/// A class that sends only when it is allowed to keeps to its rate: within each stretch of such sendings it is at most one burst
/// and one packet ahead of 32/31 of its rate.
pub fn allowed_packets_keep_the_rate()
    ensures rise { (p : Pace) (e b : Ended) (h : List Ended) → RisesByIdleTime p e b h }
    ensures rate { (p : Pace) (longest : ℕ) (e : Ended) (es : List Ended) (b : Ended) (h : List Ended) → 0 < p.rate
        → KeepsItsRate p longest e es b h }
{}

/// An estimator answers as its histories do: its pace, the average and the last end are enough, since what one more packet
/// changes, what is allowed and the least start follow from them.
pub fn answers_are_those_of_the_history()
    ensures kept { (e : Estimate) (h : List Ended) → Represents e h → e ≡ estimate_of e.pace h }
    ensures ended { (p : Pace) (h : List Ended) (e : Ended) → after_end (estimate_of p h) e ≡ estimate_of p (e ∷ h) }
    ensures allowed { (p : Pace) (h : List Ended) (end len : ℕ) → allows_now (estimate_of p h) end len ≡ allows p h end len }
    ensures least { (e : Estimate) (rate : ℕ) (l : Link) (now len : ℕ) → l.free ≤ now
        → IsLeastStartNow e rate l now len (start_now e rate l now len) }
{}
