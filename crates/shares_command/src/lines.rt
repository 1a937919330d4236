// The lines that say how fair a play was: one for each pair of sibling classes.
ghost use Rattle.std.specs.Prelude.{◌≡◌, IfOk, string_bytes};
ghost use Rattle.shares_command.specs.Lines.{gap_lines, name_in, pair_line};

use conf_tree::Class;
use play_base::NoMemory;
use share_gaps::Gap;
use std::alloc::{AllocError, Global};

// The name of a class, and no letter past the last class.
fn name_in(classes: &[Class], class: u32) -> &str
    ensures { result.now ≡ name_in classes.now class }
{
    match classes.get(class as usize) {
        Some(class) => class.name.as_str(),
        None => "",
    }
}

// The line of two classes.
fn pair_line(
    alloc: Global,
    first: &str,
    second: &str,
    gap: Option<u128>,
    bound: Option<u128>,
) -> Result<String, AllocError>
    ensures { IfOk result (λ line. string_bytes line ≡ pair_line first.now second.now gap bound) }
{
    match (gap, bound) {
        (None, _) => format!(in alloc; "{first} {second} bound none\n"),
        (Some(gap), None) => format!(in alloc; "{first} {second} gap {gap} bound none\n"),
        (Some(gap), Some(bound)) => {
            format!(in alloc; "{first} {second} gap {gap} bound {bound}\n")
        }
    }
}

/// A line for each gap, in order, by the names that these classes have: `A B gap G bound N`, with `bound none` where there is no bound,
/// and `A B bound none` where there is no gap. Gaps and bounds are nanoseconds. The only error is want of memory. Costs the length of
/// the text.
pub fn gap_lines(alloc: Global, classes: &[Class], gaps: &[Gap]) -> Result<String, NoMemory>
    ensures { IfOk result (λ text. string_bytes text ≡ gap_lines classes.now gaps.now) }
{
    let mut text = String::new(alloc);
    for gap in gaps {
        let first = name_in(classes, gap.first);
        let second = name_in(classes, gap.second);
        let line = pair_line(alloc, first, second, gap.gap, gap.bound)?;
        text.push_str(line.as_str())?;
    }
    Ok(text)
}
