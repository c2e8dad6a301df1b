//! What a replay writes besides the replies to its calls.
ghost use Rattle.std.specs.Prelude.{◌≡◌, ◌++◌, OnOk};
ghost use Rattle.trace_text.specs.Text.{phase_end, told_line};

use crate::appending::{append_number, append_pair, append_part};
use std::alloc::AllocError;

/// What a line of a replay is answered with, where it is no reply.
#[derive(Clone, Copy, Debug, PartialEq, Eq)]
pub enum Told {
    /// The call had no effect, since its key is new and its group is frozen. It can be made again.
    AgainFrozen,
    /// The caller is held.
    Held,
    /// The caller is not held.
    Freed,
    /// So many probes the caller's calls made.
    Probes(u64),
    /// A group of the chain.
    Group {
        /// The least key of its key range.
        pivot: u64,
        /// The records of its array.
        size: u32,
        /// Those of them that are removed.
        removed: u32,
        /// The rows of its buffer, removed ones too.
        rows: u32,
        phase: GroupPhase,
    },
    /// The record rows and the group rows that are free.
    Free {
        rows: u32,
        groups: u32,
    },
}

/// Where the new keys of a group go.
#[derive(Clone, Copy, Debug, PartialEq, Eq)]
pub enum GroupPhase {
    /// Into its buffer.
    Open,
    /// Nowhere.
    Frozen,
    /// Into the buffers of the groups that are to replace it.
    Opened,
}

/// Appends the line of what a replay tells.
pub fn append_told(text: &mut Vec<u8>, told: Told) -> Result<(), AllocError>
    ensures { OnOk result (text.new.items ≡ text.old.items ++ told_line told) }
{
    match told {
        Told::AgainFrozen => text.extend_from_slice(b"again frozen\n"),
        Told::Held => text.extend_from_slice(b"held\n"),
        Told::Freed => text.extend_from_slice(b"freed\n"),
        Told::Probes(count) => append_number(text, b"probes ", count),
        Told::Group {
            pivot,
            size,
            removed,
            rows,
            phase,
        } => {
            append_part(text, b"group ", pivot)?;
            append_part(text, b" ", u64::from(size))?;
            append_part(text, b" ", u64::from(removed))?;
            append_part(text, b" ", u64::from(rows))?;
            text.extend_from_slice(phase_end(phase))
        }
        Told::Free { rows, groups } => {
            append_pair(text, b"free ", u64::from(rows), u64::from(groups))
        }
    }
}

/// What ends the line of a group in this phase.
fn phase_end(phase: GroupPhase) -> &'static [u8]
    ensures { result.now ≡ phase_end phase }
{
    match phase {
        GroupPhase::Open => b" open\n",
        GroupPhase::Frozen => b" frozen\n",
        GroupPhase::Opened => b" opened\n",
    }
}
