//! The words that name a command.
use crate::keywords::Keyword;

/// What a command does, as its first word names it.
#[derive(Clone, Copy)]
pub(crate) enum Verb {
    Table,
    Pred,
    Node,
    Check,
    Journal,
    Keeper,
    Open,
    Close,
    Buffer,
    Draft,
    Add,
    Abandon,
    Commit,
    Late,
    Poll,
    Polls,
    Entry,
    Entries,
    Rows,
    Find,
    Rehearse,
    End,
}

impl Keyword for Verb {
    ghost use Rattle.script.specs.Verbs.{spelling, verbs, named};

    ghost spelling = { spelling };

    ghost all = { verbs };

    fn all() -> &'static [Verb] {
        &[
            Verb::Table,
            Verb::Pred,
            Verb::Node,
            Verb::Check,
            Verb::Journal,
            Verb::Keeper,
            Verb::Open,
            Verb::Close,
            Verb::Buffer,
            Verb::Draft,
            Verb::Add,
            Verb::Abandon,
            Verb::Commit,
            Verb::Late,
            Verb::Poll,
            Verb::Polls,
            Verb::Entry,
            Verb::Entries,
            Verb::Rows,
            Verb::Find,
            Verb::Rehearse,
            Verb::End,
        ]
    }

    fn spelling(self) -> &'static [u8] {
        match self {
            Verb::Table => b"table",
            Verb::Pred => b"pred",
            Verb::Node => b"node",
            Verb::Check => b"check",
            Verb::Journal => b"journal",
            Verb::Keeper => b"keeper",
            Verb::Open => b"open",
            Verb::Close => b"close",
            Verb::Buffer => b"buffer",
            Verb::Draft => b"draft",
            Verb::Add => b"add",
            Verb::Abandon => b"abandon",
            Verb::Commit => b"commit",
            Verb::Late => b"late",
            Verb::Poll => b"poll",
            Verb::Polls => b"polls",
            Verb::Entry => b"entry",
            Verb::Entries => b"entries",
            Verb::Rows => b"rows",
            Verb::Find => b"find",
            Verb::Rehearse => b"rehearse",
            Verb::End => b"end",
        }
    }

    ghost named = { named };
}
