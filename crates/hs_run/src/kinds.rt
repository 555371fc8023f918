//! Kinds of lines.
ghost use Rattle.std.specs.Prelude.{◌≡◌};
ghost use Rattle.hs_events.specs.Commands.{is_served};

use hs_model::Command;

/// Whether a line is served: so far all but those that ask to reclaim a disk.
pub(crate) fn is_served(command: &Command) -> bool
    ensures { result ≡ is_served command.now }
{
    match command {
        Command::Client(_)
        | Command::Settle
        | Command::Turn { .. }
        | Command::Nudge { .. }
        | Command::Deliver { .. }
        | Command::Lose { .. }
        | Command::Repeat { .. }
        | Command::Fail { .. }
        | Command::Start { .. } => true,
        Command::Reclaim { .. } => false,
    }
}
