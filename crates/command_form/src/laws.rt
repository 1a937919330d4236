// Laws of every command.
ghost use Rattle.command_form.specs.Laws.{StoppedInputsLeaveAll};

/// Inputs that stop a command leave every name its bytes, whatever the status.
#[tactic(auto, using(crate::proofs::FirstLaws::stopped_leave_all))]
pub fn stopped_inputs_leave_all()
    ensures { StoppedInputsLeaveAll }
{}
