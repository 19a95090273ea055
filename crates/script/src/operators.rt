//! The words that name an operator.
use crate::keywords::Keyword;

/// An operator over one operand at the positions within an interval.
#[derive(Clone, Copy)]
pub(crate) enum Timed {
    Prev,
    Once,
    Hist,
    Next,
    Event,
    Always,
}

/// An operator of a formula, as the word behind `node` names it.
#[derive(Clone, Copy)]
pub(crate) enum Operator {
    True,
    False,
    Atom,
    And,
    Or,
    Exists,
    Forall,
    Timed(Timed),
    Since,
    Until,
}

impl Keyword for Operator {
    ghost use Rattle.script.specs.Operators.{spelling, operators, named};

    ghost spelling = { spelling };

    ghost all = { operators };

    fn all() -> &'static [Operator] {
        &[
            Operator::True,
            Operator::False,
            Operator::Atom,
            Operator::And,
            Operator::Or,
            Operator::Exists,
            Operator::Forall,
            Operator::Timed(Timed::Prev),
            Operator::Timed(Timed::Once),
            Operator::Timed(Timed::Hist),
            Operator::Timed(Timed::Next),
            Operator::Timed(Timed::Event),
            Operator::Timed(Timed::Always),
            Operator::Since,
            Operator::Until,
        ]
    }

    fn spelling(self) -> &'static [u8] {
        match self {
            Operator::True => b"true",
            Operator::False => b"false",
            Operator::Atom => b"atom",
            Operator::And => b"and",
            Operator::Or => b"or",
            Operator::Exists => b"exists",
            Operator::Forall => b"forall",
            Operator::Timed(Timed::Prev) => b"prev",
            Operator::Timed(Timed::Once) => b"once",
            Operator::Timed(Timed::Hist) => b"hist",
            Operator::Timed(Timed::Next) => b"next",
            Operator::Timed(Timed::Event) => b"event",
            Operator::Timed(Timed::Always) => b"always",
            Operator::Since => b"since",
            Operator::Until => b"until",
        }
    }

    ghost named = { named };
}
