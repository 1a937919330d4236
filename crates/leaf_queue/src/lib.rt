//! What a leaf of an interface's queues is made of: the trait of queue rules with its laws, the rule that drops at a limit, the
//! random words of a seed, the pool of the packets that wait, and the lists of the classes. None of them sees a file, and after
//! they are reserved none takes memory.
#![tactic(auto)]

mod linked;
mod lists;
mod node;
mod pool;
mod reserve;
mod rule;
mod words;

pub use altq_model::{Reason, Verdict};
pub use lists::Lists;
pub use node::Entry;
pub use pool::Pool;
pub use rule::{QueueRule, Tail, Waiting};
pub use words::Words;
