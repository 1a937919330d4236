// A queue and its list.
ghost use Rattle.std.specs.Prelude.{◌≡◌, ◌≤◌, ◌<◌, ◌-◌, ◌^◌, ◌∷◌, ◌↔◌, ℕ, List, length, drop, slice_set};
ghost use Rattle.altq_model.specs.declared.Reason.{Reason};
ghost use Rattle.leaf_queue.specs.Lists.{list_of, total_of, precs_in};
ghost use Rattle.leaf_queue.specs.Queue.{QueueEvent, Enqueued, waiting_of};
ghost use Rattle.leaf_queue.specs.Words.{Drew};
ghost use Rattle.class_rows.specs.Leaf.{after_verdict, gone, HasPrecs};

use leaf_queue::{Entry, Lists, QueueRule, Verdict, Words};

// Offers a packet to a queue, and puts it at the end of its list if it is kept.
#[inline(always)]
pub fn offer_to<Q: QueueRule>(
    queue: &mut Q,
    lists: &mut Lists,
    place: u32,
    entry: Entry,
    now: u64,
    words: &mut Words,
) -> Verdict
    requires place { place < length lists.old.lists }
    requires bounded { length (list_of lists.old.lists place) ≤ Q.most queue.old }
    requires room { length (list_of lists.old.lists place) < Q.most queue.old → total_of lists.old.lists < lists.old.room }
    requires prec { entry.prec ≤ 2 }
    ensures lists { lists.new.lists ≡ after_verdict result place entry lists.old.lists }
    ensures room { lists.new.room ≡ lists.old.room }
    ensures full { (result ≡ Verdict.Drop Reason.Full) ↔ (length (list_of lists.old.lists place) ≡ Q.most queue.old) }
    ensures verdict { (q : List QueueEvent) → Q.stands queue.old q → words.old.drawn < 2 ^ 64 - 1
        → result ≡ (Q.says queue.old q now (waiting_of (precs_in (list_of lists.old.lists place))) entry.prec words.old).verdict }
    ensures words { (q : List QueueEvent) → Q.stands queue.old q → words.old.drawn < 2 ^ 64 - 1
        → Drew words.old words.new (Q.says queue.old q now (waiting_of (precs_in (list_of lists.old.lists place))) entry.prec words.old).took }
    ensures history { (q : List QueueEvent) → Q.stands queue.old q → words.old.drawn < 2 ^ 64 - 1
        → let waiting = waiting_of (precs_in (list_of lists.old.lists place)) in
        Q.stands queue.new (Enqueued now waiting entry.prec words.old (Q.says queue.old q now waiting entry.prec words.old) ∷ q) }
    ensures limit { Q.most queue.new ≡ Q.most queue.old }
    ensures kind { Q.says queue.new ≡ Q.says queue.old }
{
    let waiting = lists.waiting(place);
    let verdict = queue.offer(now, waiting, entry.prec, words);
    if verdict.is_kept() {
        lists.push(place, entry);
    }
    verdict
}

// Takes the head of a list, and tells its queue.
#[inline(always)]
pub fn take_from<Q: QueueRule>(queue: &mut Q, lists: &mut Lists, place: u32, now: u64)
    requires place { place < length lists.old.lists }
    requires some { 0 < length (list_of lists.old.lists place) }
    requires precs { HasPrecs (list_of lists.old.lists place) }
    ensures lists { lists.new.lists ≡ slice_set lists.old.lists place (drop 1 (list_of lists.old.lists place)) }
    ensures room { lists.new.room ≡ lists.old.room }
    ensures history { (q : List QueueEvent) → Q.stands queue.old q → Q.stands queue.new (gone now (list_of lists.old.lists place) q) }
    ensures limit { Q.most queue.new ≡ Q.most queue.old }
    ensures kind { Q.says queue.new ≡ Q.says queue.old }
{
    if let Some(head) = lists.pop(place) {
        let waiting = lists.waiting(place);
        queue.left(now, head.prec, waiting);
    }
}
