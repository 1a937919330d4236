// The rule by which a queue keeps or drops what is offered to it.
ghost use Rattle.std.specs.Prelude.{◌≡◌, ◌≤◌, ◌<◌, ◌-◌, ◌^◌, ◌∷◌, ◌↔◌, ℕ, List};
ghost use Rattle.leaf_queue.specs.Words.{Drew};

use crate::Words;
use altq_model::{Reason, Verdict};

/// How many packets of a queue wait: those of precedence 0, those of precedence 0 or 1, and all of them. A precedence is 0, 1 or 2.
#[derive(Clone, Copy)]
pub struct Waiting {
    pub best: u32,
    pub middle: u32,
    pub all: u32,
}

/// The rule of one queue. Its laws are clauses of its methods: it drops as `Full` exactly where its waiting packets equal its
/// limit, the limit never changes, and each verdict is the rule's after all offers and departures so far, by the seed's random
/// words. None of the calls takes memory.
pub trait QueueRule {
    ghost use Rattle.altq_model.specs.History.{DrawnWords};
    ghost use Rattle.leaf_queue.specs.declared.rule.Waiting.{Waiting};
    ghost use Rattle.leaf_queue.specs.Queue.{QueueEvent, Enqueued, Dequeued, Saying};

    /// The most packets that may wait.
    ghost most: { Self → ℕ };

    /// The offers and departures that it may have seen, the newest first.
    ghost stands: { Self → List QueueEvent → Type 0 };

    /// Its verdict of a packet after this history.
    ghost says: { Self → Saying };

    /// The most packets that may wait, 1 to 10,000.
    fn limit(&self) -> u32
        ensures { result ≡ most self.now };

    /// Whether a packet of precedence `prec` that comes at `now`, in nanoseconds, is kept, where `waiting` says how many wait
    /// before it. It is dropped as `Full` exactly where the queue is at its limit.
    fn offer(&mut self, now: u64, waiting: Waiting, prec: u8, words: &mut Words) -> Verdict
        requires room { waiting.all ≤ most self.old }
        requires prec { prec ≤ 2 }
        ensures full { (result ≡ Verdict.Drop Reason.Full) ↔ (waiting.all ≡ most self.old) }
        ensures verdict { (q : List QueueEvent) → stands self.old q → words.old.drawn < 2 ^ 64 - 1
            → result ≡ (says self.old q now waiting prec words.old).verdict }
        ensures words { (q : List QueueEvent) → stands self.old q → words.old.drawn < 2 ^ 64 - 1
            → Drew words.old words.new (says self.old q now waiting prec words.old).took }
        ensures history { (q : List QueueEvent) → stands self.old q → words.old.drawn < 2 ^ 64 - 1
            → stands self.new (Enqueued now waiting prec words.old (says self.old q now waiting prec words.old) ∷ q) }
        ensures limit { most self.new ≡ most self.old }
        ensures kind { says self.new ≡ says self.old };

    /// Tells it that a packet of precedence `prec` left at `now`, in nanoseconds, and how many wait after it.
    fn left(&mut self, now: u64, prec: u8, waiting: Waiting)
        requires prec { prec ≤ 2 }
        ensures history { (q : List QueueEvent) → stands self.old q → stands self.new (Dequeued now prec waiting ∷ q) }
        ensures limit { most self.new ≡ most self.old }
        ensures kind { says self.new ≡ says self.old };
}

/// Drops what comes where `limit` packets wait, 1 to 10,000, and keeps everything else.
#[derive(Clone, Copy, Debug, PartialEq, Eq)]
pub struct Tail {
    pub limit: u32,
}

impl QueueRule for Tail {
    ghost use Rattle.leaf_queue.specs.Queue.{tail_says};

    ghost most = { λ t. t.limit };

    ghost stands = { λ t q. Unit {0} };

    ghost says = { λ t. tail_says t.limit };

    fn limit(&self) -> u32 {
        self.limit
    }

    fn offer(&mut self, _now: u64, waiting: Waiting, _prec: u8, _words: &mut Words) -> Verdict {
        if waiting.all == self.limit {
            Verdict::Drop(Reason::Full)
        } else {
            Verdict::Keep
        }
    }

    fn left(&mut self, _now: u64, _prec: u8, _waiting: Waiting) {}
}
