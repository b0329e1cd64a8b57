// A command with what is read off it once, before any table: its kind, and the status of the rows before the set is looked up. That the
// kind is the command's is a promise of `ask` and no field: the status functions that take an `Asked` promise the same of any kind.
ghost use Rattle.std.specs.Prelude.{◌≡◌};
ghost use Rattle.replies.specs.Status.{first_of, status_no};
ghost use Rattle.commands.specs.Shapes.{kind_of};
ghost use Rattle.commands.specs.StatusTable.{early_lines};

use crate::shapes::kind_of;
use crate::status_table::early_status;
use crate::{Command, Kind};
use replies::Refusal;

#[derive(Clone, Copy)]
pub struct Asked {
    pub command: Command,
    pub kind: Kind,
    pub early: Result<(), Refusal>,
    pub ghost is_early: { status_no early ≡ first_of (early_lines command) },
}

pub fn ask(command: Command) -> Asked
    ensures command { result.command ≡ command }
    ensures kind { result.kind ≡ kind_of command }
{
    let kind = kind_of(command);
    let early = early_status(kind, command);
    Asked {
        command,
        kind,
        early,
    }
}
