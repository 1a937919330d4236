//! The grammar of the tree of a configuration as what a user writes, after altq.conf(5) in this project's own profile: which statement may
//! stand behind those before it. `Conf::build` accepts statements exactly where they are in this grammar. The functions do nothing: each
//! states its law.
#![tactic(auto)]

ghost use Rattle.conf_tree_grammar.specs.Laws.{AcceptedIsTree, TreeIsAccepted};

mod rows;

pub use rows::{worked_options, worked_places, worked_trees};

/// Statements that are accepted say a tree of the grammar, and statements that say one are accepted.
pub fn accepted_is_the_grammar()
    ensures accepted { AcceptedIsTree }
    ensures tree { TreeIsAccepted }
{}
