// What a verification says.
ghost use Rattle.std.specs.Prelude.{◌≡◌, ◌++◌, IfOk, OnOk, string_bytes};
ghost use Rattle.verify_command.specs.Lines.{late_text, name_at, verdict_text};

use conf_tree::Interface;
use fate_timely::Late;
use std::alloc::{AllocError, Global};

// The name of a class of an interface.
fn name_at(interface: &Interface, class: u32) -> &str
    ensures { result.now ≡ name_at interface.now class }
{
    match interface.classes.as_slice().get(class as usize) {
        Some(class) => class.name.as_str(),
        None => "",
    }
}

// The line of a class of this name.
fn late_text(alloc: Global, name: &str, worst: Option<i128>) -> Result<String, AllocError>
    ensures { IfOk result (λ text. string_bytes text ≡ late_text name.now worst) }
{
    match worst {
        Some(worst) => format!(in alloc; "{name} worst {worst}\n"),
        None => format!(in alloc; "{name} worst none\n"),
    }
}

/// A line for each leaf with a real-time curve, `NAME worst N` with the greatest end less due moment of its packets in nanoseconds, or
/// `NAME worst none` where no packet has a due moment; and then `verified`. `Err` comes only where there is no memory.
pub(crate) fn verdict_text(
    alloc: Global,
    interface: &Interface,
    late: &[Late],
) -> Result<String, AllocError>
    ensures { IfOk result (λ text. string_bytes text ≡ verdict_text interface.now late.now) }
{
    let mut text = String::new(alloc);
    for one in late {
        let line = late_text(alloc, name_at(interface, one.class), one.worst)?;
        text.push_str(line.as_str())?;
    }
    text.push_str("verified\n")?;
    Ok(text)
}
