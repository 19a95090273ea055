//! The kinds of journals and of keepers.
use crate::keywords::Keyword;

/// How a journal stores its records.
#[derive(Clone, Copy, Debug, PartialEq, Eq)]
pub enum JournalKind {
    Records,
    Packed,
}

impl Keyword for JournalKind {
    ghost use Rattle.script.specs.Kinds.{journal_spelling, journal_kinds, journal_named};

    ghost spelling = { journal_spelling };

    ghost all = { journal_kinds };

    fn all() -> &'static [JournalKind] {
        &[JournalKind::Records, JournalKind::Packed]
    }

    fn spelling(self) -> &'static [u8] {
        match self {
            JournalKind::Records => b"records",
            JournalKind::Packed => b"packed",
        }
    }

    ghost named = { journal_named };
}

/// Where the rows of a monitor's cached nodes are kept.
#[derive(Clone, Copy, Debug, PartialEq, Eq)]
pub enum KeeperKind {
    Rows,
    None,
}

impl Keyword for KeeperKind {
    ghost use Rattle.script.specs.Kinds.{keeper_spelling, keeper_kinds, keeper_named};

    ghost spelling = { keeper_spelling };

    ghost all = { keeper_kinds };

    fn all() -> &'static [KeeperKind] {
        &[KeeperKind::Rows, KeeperKind::None]
    }

    fn spelling(self) -> &'static [u8] {
        match self {
            KeeperKind::Rows => b"rows",
            KeeperKind::None => b"none",
        }
    }

    ghost named = { keeper_named };
}
