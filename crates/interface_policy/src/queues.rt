// The queues of the classes.
ghost use Rattle.std.specs.Prelude.{◌≡◌, ◌≤◌, [], All, IfOk, length, map};
ghost use Rattle.class_rows.specs.Rows.{IsNewQueue};
ghost use Rattle.conf_tree.specs.declared.class.Class.{Class};
ghost use Rattle.rio_precedence.specs.Any.{most_of, stands_of, says_of};
ghost use Rattle.interface_policy.specs.Policy.{queue_says};

use conf_tree::{Class, DropRule};
use leaf_queue::Tail;
use play_base::NoMemory;
use rio_precedence::{AnyQueue, Red, Rio};
use std::alloc::Global;

// The queue of a class on a link of `rate` bits per second, to which nothing was offered.
fn queue_of(class: &Class, rate: u64) -> AnyQueue
    requires { 1000 ≤ rate }
    ensures says { says_of result ≡ queue_says rate class.now }
    ensures limit { most_of result ≡ class.now.limit }
    ensures new { stands_of result [] }
{
    match class.drop {
        DropRule::Tail => AnyQueue::Tail(Tail { limit: class.limit }),
        DropRule::Red => AnyQueue::Red(Red::new(class.limit, rate)),
        DropRule::Ecn => AnyQueue::Ecn(Red::new(class.limit, rate)),
        DropRule::Rio => AnyQueue::Rio(Rio::new(class.limit, rate)),
    }
}

/// A queue for each class on a link of `rate` bits per second, 1,000 to 10^12. `NoMemory` comes only when memory runs out.
pub fn queues_of(alloc: Global, classes: &[Class], rate: u64) -> Result<Vec<AnyQueue>, NoMemory>
    requires rate { 1000 ≤ rate }
    requires limits { All (λ (c : Class). (1 ≤ c.limit) × (c.limit ≤ 10000)) classes.now }
    ensures says { IfOk result (λ queues. map says_of queues.items ≡ map (queue_says rate) classes.now) }
    ensures count { IfOk result (λ queues. length queues.items ≡ length classes.now) }
    ensures new { IfOk result (λ queues. All (IsNewQueue stands_of most_of) queues.items) }
{
    let mut queues = Vec::with_capacity(alloc, classes.len())?;
    for class in classes {
        queues.push(queue_of(class, rate))?;
    }
    Ok(queues)
}
