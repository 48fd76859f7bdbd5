//! The lines of a trace, with the faults of the program, and the table that its header asks for.
ghost use Rattle.std.specs.Prelude.{◌≡◌, ◌≢◌, ◌<◌, ◌↔◌, ◌⊎◌, [], Ok, IfErr, IfOk, IsErr, OnOk};
ghost use Rattle.run_files.specs.CommandLines.{IsUnderstood};
ghost use Rattle.word_layout.specs.Layouts.{capacity_of, limit_of};
ghost use Rattle.word_layout.specs.Limits.{most_nodes};
ghost use Rattle.command_traces.specs.Traces.{IsLinesFault, IsNext, greatest_of};

use command_parts::Fault;
use order_laws::Refusal;
use run_files::{CommandLines, NumberedCommand, Version};
use word_layout::Layout;

/// The layout of the table that a trace of this version runs on: a wide sequence from version 3 on.
pub fn layout_for(version: Version, capacity: u32) -> Result<Layout, Refusal>
    ensures capacity { IfOk result (λ l. capacity_of l ≡ capacity) }
    ensures limit { IfOk result (λ l. limit_of l ≡ greatest_of version) }
    ensures refused { IsErr result ↔ ((capacity ≡ 0) ⊎ (most_nodes < capacity)) }
    ensures refusal { IfErr result (λ e. e ≡ Refusal.BadCapacity) }
{
    if version.is_wide() {
        Layout::wide(capacity)
    } else {
        Layout::new(capacity)
    }
}

/// Looks whether each line is in the grammar, and leaves the lines as they are.
pub fn understand(lines: &CommandLines<'_>) -> Result<(), Fault>
    ensures understood { OnOk result (IsUnderstood lines.now.said) }
    ensures fault { IfErr result (IsLinesFault lines.now.said) }
{
    let understood = lines.understand();
    understood.map_err(|fault| Fault::of_lines(0, fault))
}

/// The next command of lines, with the fault of the program if there is none.
pub fn next_command(lines: &mut CommandLines<'_>) -> Result<Option<NumberedCommand>, Fault>
    ensures next { IfOk result (IsNext lines.old lines.new) }
    ensures some { IsErr result → lines.old.said ≢ Ok [] }
    ensures fault { IfErr result (IsLinesFault lines.old.said) }
{
    let next = lines.next_command();
    next.map_err(|fault| Fault::of_lines(0, fault))
}
