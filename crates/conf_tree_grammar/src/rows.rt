// Worked queries of a small tree, computed by the checker from the definitions.
ghost use Rattle.std.specs.Prelude.{◌≡◌, [], true, false, codes};
ghost use Rattle.conf_lines.specs.declared.options.Key.TheVariants as key;
ghost use Rattle.conf_tree.specs.declared.interface.Kind.TheVariants.{Cbq, Hfsc};
ghost use Rattle.conf_tree_grammar.specs.Grammar.{MayBeClass, MayBeConditioner, MayBeFilter, MayBeInterface, MayBeParent, all_defaults, classes, has_child, has_class, has_conditioner, has_filter, interfaces, is_default, keeps_real_time, level, said_of};
ghost use Rattle.conf_tree_grammar.specs.Options.{AreRates, has_rate, has_share, real_time_stays};
ghost use Rattle.conf_tree_grammar.specs.Rows.{Never, chain, curve, default, name_of, part, small};

/// Of the tree `root`, `a` below it, and below that the default class `b`, which a filter names; a conditioner names `a`.
pub fn worked_trees()
    ensures root_is_on_the_first_level { level small (codes "root") ≡ 1 }
    ensures third_level { level small (codes "b") ≡ 3 }
    ensures counted { classes small ≡ 3 }
    ensures filtered { has_filter small (codes "b") ≡ true }
    ensures not_filtered { has_filter small (codes "a") ≡ false }
    ensures conditioned { has_conditioner small (codes "a") ≡ true }
    ensures parent { has_child small (codes "a") ≡ true }
    ensures leaf { has_child small (codes "b") ≡ false }
    ensures null_is_no_parent { has_child small (codes "NULL") ≡ false }
    ensures default_class { is_default small (codes "b") ≡ true }
    ensures one_default { all_defaults small ≡ 1 }
    ensures real_time { keeps_real_time small (codes "a") ≡ true }
    ensures no_class { has_class small (codes "c") ≡ false }
    ensures of_another { said_of (codes "if1") small ≡ [] }
    ensures one_interface { interfaces small ≡ 1 }
{}

/// `sc` behind `rt` lets a class be a parent, `rt` behind `sc` does not; `rt` alone gives no link-sharing curve.
pub fn worked_options()
    ensures sc_is_last { real_time_stays (curve key.Rt (curve key.Sc [])) ≡ false }
    ensures rt_is_last { real_time_stays (curve key.Sc (curve key.Rt [])) ≡ true }
    ensures shared { has_share (curve key.Sc []) ≡ true }
    ensures not_shared { has_share (curve key.Rt []) ≡ false }
    ensures rated { has_rate (part key.Pbandwidth 1) ≡ true }
{}

/// Behind the small tree: what may stand there, and what may not, each for one reason.
pub fn worked_places()
    ensures class { MayBeClass small Hfsc (codes "c") (codes "root") (curve key.Sc []) }
    ensures other_kind { Never (MayBeClass small Cbq (codes "c") (codes "root") (curve key.Sc [])) }
    ensures name_taken { Never (MayBeClass small Hfsc (codes "a") (codes "root") (curve key.Sc [])) }
    ensures no_parent { Never (MayBeClass small Hfsc (codes "c") (codes "d") (curve key.Sc [])) }
    ensures two_roots { Never (MayBeClass small Hfsc (codes "c") (codes "NULL") (curve key.Sc [])) }
    ensures no_share { Never (MayBeClass small Hfsc (codes "c") (codes "root") (curve key.Rt [])) }
    ensures two_defaults { Never (MayBeClass small Hfsc (codes "c") (codes "root") (curve key.Sc default)) }
    ensures real_time_inside { Never (MayBeParent Hfsc small (codes "a")) }
    ensures inner_queue { Never (MayBeParent Hfsc small (codes "b")) }
    ensures seventh_level { MayBeParent Hfsc (chain 6) (name_of 6) }
    ensures eighth_level { Never (MayBeParent Hfsc (chain 7) (name_of 7)) }
    ensures filter { MayBeFilter small (codes "b") }
    ensures filter_inside { Never (MayBeFilter small (codes "root")) }
    ensures no_class { Never (MayBeFilter small (codes "c")) }
    ensures conditioner_twice { Never (MayBeConditioner small (codes "a")) }
    ensures interface_twice { Never (MayBeInterface small (codes "if0")) }
    ensures least_rate { AreRates 100000 (part key.Pbandwidth 1) }
    ensures below_it { Never (AreRates 99999 (part key.Pbandwidth 1)) }
{}
