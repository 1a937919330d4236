// One queue as a row of one class.
ghost use Rattle.std.specs.Prelude.{◌≡◌, ◌∷◌, [], ℕ};
ghost use Rattle.altq_model.specs.declared.Rule.{Rule};
ghost use Rattle.altq_model.specs.Policies.{one_queue, strict};
ghost use Rattle.leaf_queue.specs.Queue.{by_queues, tail_says};
ghost use Rattle.plain_disciplines.specs.Strict.{classes_from};

/// A row of the one class 1, whose queue drops at a limit and whose packets are sent by share, has the policy of one queue: that of
/// an interface without classes. It is a lemma: its body is empty, and a caller that cites it calls nothing at run time.
pub fn one_class_is_one_queue()
    ensures { (limit : ℕ) → strict (classes_from 1 1) Rule.Share (by_queues 1 (tail_says limit ∷ [])) ≡ one_queue limit }
{}
