//! What a policy notes of each node of its table.
ghost use Rattle.std.specs.Prelude.{◌≡◌, false, length};
ghost use Rattle.sets.specs.Sets.{members, none};
ghost use Rattle.policy.specs.Notes.{NotedUpTo};

use crate::links::parent_of;
use crate::outline::Outline;
use crate::waits::wait_of;
use sets::SmallSet;

/// What a search needs to know of a node: its free variables, its wait, whether it keeps rows, and its parent.
// The wide fields stand first: fields lie in this order, and a note then takes 24 bytes and not 32.
#[derive(Clone, Copy)]
pub(crate) struct Note {
    pub(crate) wait: u64,
    pub(crate) parent: usize,
    pub(crate) free: SmallSet,
    pub(crate) cached: bool,
}

/// The notes of the nodes of a table, which has at most 32, by number; those past the last node mean nothing.
// An array and no vector: a check allocates nothing.
pub(crate) type Notes = [Note; 32];

impl Note {
    /// The note for a number that no node has: no variables, no wait, no rows, and itself for a parent.
    pub(crate) fn blank(n: usize) -> Note
        ensures variables { members result.free ≡ none }
        ensures waits { result.wait ≡ 0 }
        ensures rows { result.cached ≡ false }
        ensures link { result.parent ≡ n }
    {
        Note {
            wait: 0,
            parent: n,
            free: SmallSet::none(),
            cached: false,
        }
    }
}

pub(crate) fn notes_of(outline: Outline) -> Notes
    ensures { NotedUpTo outline.entry.declarations.now outline.entry.nodes.now result (length outline.entry.nodes.now) }
{
    let mut notes = [Note::blank(0); 32];
    // A wait reads the notes of lower nodes, so the notes are made in order.
    for (n, node) in outline.nodes.iter().enumerate() {
        notes[n] = Note {
            wait: wait_of(*node, n, &notes),
            parent: parent_of(outline.nodes, n),
            free: outline.free_of(n),
            cached: outline.is_cached(n),
        };
    }
    notes
}
