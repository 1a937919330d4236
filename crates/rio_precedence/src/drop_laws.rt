//! The laws of RED, of RED that marks and of RIO over every sequence of packets: how near their averages are to the exact ones,
//! and how long it can be until a packet is dropped. The functions do nothing: each states its laws. The source of the rules is
//! Floyd and Jacobson, "Random early detection gateways for congestion avoidance", 1993.

ghost use Rattle.std.specs.Prelude.{ℕ, List};
ghost use Rattle.leaf_queue.specs.Queue.{QueueEvent};
ghost use Rattle.red_average.specs.Exact.{IsNear};
ghost use Rattle.red_average.specs.Red.{red_says, thresholds};
ghost use Rattle.red_average.specs.Red as red;
ghost use Rattle.rio_precedence.specs.Any.{marking};
ghost use Rattle.rio_precedence.specs.Precedence.{thresholds_of};
ghost use Rattle.rio_precedence.specs.Rio.{rio_says};
ghost use Rattle.rio_precedence.specs.Rio as rio;
ghost use Rattle.rio_precedence.specs.Exactly.{exact_of, exact_of_precedence};
ghost use Rattle.rio_precedence.specs.Sequence.{OneIsTold, any_precedence, is_dropped, is_told, only};

/// After every sequence of packets that come and go the average is at least the exact one, which nothing rounds, and less than it
/// plus 512, which is 1/4096 of a packet: that of RED, with or without marks, and those of RIO, of whatever precedence.
pub fn averages_are_near_the_exact_ones()
    ensures red { (step : ℕ) (q : List QueueEvent) → IsNear (exact_of step q).steps (exact_of step q).top (red.average_of step q) }
    ensures rio { (step j : ℕ) (q : List QueueEvent)
        → IsNear (exact_of_precedence step j q).steps (exact_of_precedence step j q).top (rio.average_of step j q) }
{}

/// Of enough packets in a row, each of which leaves the average a given amount or more over the lower threshold, one at least is
/// dropped, whatever the random words are and however many of the packets wait. In a queue that marks one is dropped or
/// marked. In RIO only the packets of one precedence count, by its own average and thresholds; others may come between.
pub fn of_enough_packets_one_is_dropped()
    ensures red { (step limit : ℕ) → OneIsTold any_precedence thresholds (red.average_of step) (red_says step limit) is_dropped }
    ensures ecn { (step limit : ℕ) → OneIsTold any_precedence thresholds (red.average_of step) (marking (red_says step limit)) is_told }
    ensures rio { (step limit j : ℕ)
        → OneIsTold (only j) (thresholds_of j) (rio.average_of step j) (rio_says step limit) is_dropped }
{}
