// The law of inputs.
ghost use Rattle.std.specs.Prelude.{◌≡◌};
ghost use Rattle.play_base.specs.View.{View};
ghost use Rattle.run_inputs.specs.Says.{Asked, Said, Says};

/// Inputs say one thing: they stop a command in one way, or none, and what they are is one.
#[tactic(auto, using(crate::proofs::OneThing::one_thing))]
pub fn inputs_say_one_thing()
    ensures { (v : View) (a : Asked) (s t : Said) → Says v a s → Says v a t → s ≡ t }
{}
