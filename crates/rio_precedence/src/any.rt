// The rule of a queue whose kind is known only when it runs.
ghost use Rattle.std.specs.Prelude.{◌≡◌, ◌↔◌};
ghost use Rattle.rio_precedence.specs.Any.{ecn_verdict};

use crate::Rio;
use leaf_queue::{QueueRule, Reason, Tail, Verdict, Waiting, Words};
use red_average::Red;

/// The rule that a class asks for: to drop at a limit alone, RED, RED that marks, or RIO. Each call does not allocate and does what
/// the rule's own does. `Ecn` does what RED does, but answers `Mark` in place of an early drop to a packet of precedence 1, which
/// says here that its transport is capable of explicit congestion notification (RFC 3168); it draws the same random words as RED,
/// and its count restarts as after a drop.
#[derive(Clone, Copy)]
pub enum AnyQueue {
    Tail(Tail),
    Red(Red),
    Ecn(Red),
    Rio(Rio),
}

// What is said in place of a verdict of RED.
fn marked(verdict: Verdict, prec: u8) -> Verdict
    ensures value { result ≡ ecn_verdict prec verdict }
    ensures full { (result ≡ Verdict.Drop Reason.Full) ↔ (verdict ≡ Verdict.Drop Reason.Full) }
{
    match verdict {
        Verdict::Drop(Reason::Early) if prec == 1 => Verdict::Mark,
        _ => verdict,
    }
}

impl QueueRule for AnyQueue {
    ghost use Rattle.rio_precedence.specs.Any.{most_of, stands_of, says_of};

    ghost most = { most_of };

    ghost stands = { stands_of };

    ghost says = { says_of };

    fn limit(&self) -> u32 {
        match self {
            AnyQueue::Tail(tail) => tail.limit,
            AnyQueue::Red(red) => red.limit,
            AnyQueue::Ecn(red) => red.limit,
            AnyQueue::Rio(rio) => rio.limit,
        }
    }

    #[inline(always)]
    fn offer(&mut self, now: u64, waiting: Waiting, prec: u8, words: &mut Words) -> Verdict {
        match self {
            AnyQueue::Tail(tail) => tail.offer(now, waiting, prec, words),
            AnyQueue::Red(red) => red.offer(now, waiting, prec, words),
            AnyQueue::Ecn(red) => marked(red.offer(now, waiting, prec, words), prec),
            AnyQueue::Rio(rio) => rio.offer(now, waiting, prec, words),
        }
    }

    fn left(&mut self, now: u64, prec: u8, waiting: Waiting) {
        match self {
            AnyQueue::Tail(tail) => tail.left(now, prec, waiting),
            AnyQueue::Red(red) => red.left(now, prec, waiting),
            AnyQueue::Ecn(red) => red.left(now, prec, waiting),
            AnyQueue::Rio(rio) => rio.left(now, prec, waiting),
        }
    }
}
