//! Lines about operands of `ignore` that may have been meant as paths. No clause speaks of them.
ghost use Rattle.std.specs.Prelude.{◌≡◌};

use crate::ignoring::RulesFault;
use crate::name::Name;
use crate::usage::HelpWord;
use crate::visible::Visible;
use glob_console::ErrorLines;
use std::alloc::Allocator;
use std::fmt::{self, Display};
use std::io::Write;

/// Parts of the names of ignore files.
static PARTS: &[&str] = &["ignore", "exclude"];

/// Reports why rules could not be read. If that is because of an operand that may have been meant as a path, or as a
/// request for help, says so, too. Returns the status of a fault.
pub fn report_rules<A: Allocator + Copy, E: Write>(
    fault: RulesFault<'_>,
    errors: &mut ErrorLines<'_, A, E>,
) -> u8
    ensures { result ≡ 2 }
{
    let operand = unread(&fault);
    let status = errors.fault(fault);
    match operand {
        Some("help") => errors.write(&HelpWord { name: Name::Ignore }),
        Some(operand) if !is_list(operand) => errors.write(&OperandLine { operand }),
        Some(_) | None => {}
    }
    status
}

/// The operand that could not be read.
fn unread<'a>(fault: &RulesFault<'a>) -> Option<&'a str> {
    match fault {
        RulesFault::NoText(file) | RulesFault::Unread(file, _) => Some(*file),
        RulesFault::Refused(_, _, _) | RulesFault::Rule(_, _) | RulesFault::Memory => None,
    }
}

/// Called if no path came from standard input: if an operand looks like a path, says of the first such one that it was
/// read as a file of rules.
pub fn note_operands<A: Allocator + Copy, E: Write>(
    operands: &[&str],
    errors: &mut ErrorLines<'_, A, E>,
) {
    for operand in operands {
        if is_path(operand) {
            errors.write(&OperandLine { operand });
            return;
        }
    }
}

/// Whether an operand looks like a path, and not like an ignore file.
fn is_path(operand: &str) -> bool {
    let is_dotted = operand.contains(['/', '.'].as_slice());
    is_dotted && !operand.starts_with("/dev/") && !is_list(operand)
}

/// Whether an operand has the name of an ignore file.
fn is_list(operand: &str) -> bool {
    let name = match operand.rsplit_once('/') {
        Some((_, name)) => name,
        None => operand,
    };
    PARTS.iter().any(|part| name.contains(*part))
}

/// The line about an operand that may have been meant as a path.
#[derive(Clone, Copy)]
struct OperandLine<'a> {
    operand: &'a str,
}

impl Display for OperandLine<'_> {
    fn fmt<W: fmt::Write>(&self, f: &mut fmt::Formatter<W>) -> fmt::Result {
        let operand = Visible { text: self.operand };
        write!(
            f,
            "`{operand}` was taken for a file of rules: paths come from standard input, as in git ls-files | globs ignore .gitignore"
        )
    }
}
