// A law of interfaces without conditioners. The function does nothing: it states the law.
ghost use Rattle.std.specs.Prelude.{◌≡◌, ℕ, List, false};
ghost use Rattle.conf_tree.specs.declared.interface.Interface.{Interface};
ghost use Rattle.interface_marks.specs.Conditioners.{is_conditioned, marked_in};

/// Where no class of an interface has a conditioner, the marked capture is the capture.
pub fn nothing_is_marked_without_conditioners()
    ensures { (i : Interface) (capture : List ℕ) → is_conditioned i ≡ false → marked_in i capture ≡ capture }
{}
