//! The closed list of refusals: why a call was refused, by which layer, and where.
#![tactic(auto)]

ghost use Rattle.std.specs.Prelude.{◌≡◌, Some};
ghost use Rattle.refusal.specs.Causes.{number_of, layer_of, words_of, name_of, refusal_at, printed};

use std::error::Error;
use std::fmt;

/// The part of the monitor that refused.
#[derive(Clone, Copy, PartialEq, Eq, Debug)]
pub enum Layer {
    Table,
    Mode,
    Monitor,
    Journal,
    Source,
}

/// Why a call was refused. The list is closed: no call refuses for another reason.
#[derive(Clone, Copy, PartialEq, Eq, Debug)]
pub enum Cause {
    NodeCount = 1,
    OverLimit = 2,
    ChildNotBelow = 3,
    NotDeclared = 4,
    BadInterval = 5,
    NotOneParent = 6,
    BoundBefore = 7,
    FreeAtRoot = 8,
    NotSearchable = 9,
    UnknownBelow = 10,
    TooManyShown = 11,
    BadFact = 12,
    StampTooLow = 13,
    NoRoom = 14,
    MonitorFull = 15,
    NotShown = 16,
    BufferShort = 17,
    NotKnown = 18,
    ValueAbsent = 19,
}

impl Layer {
    pub fn name(self) -> &'static str
        ensures { result.now ≡ name_of self }
    {
        match self {
            Layer::Table => "table",
            Layer::Mode => "mode",
            Layer::Monitor => "monitor",
            Layer::Journal => "journal",
            Layer::Source => "source",
        }
    }
}

impl Cause {
    /// The refusal for this cause at a place.
    pub fn at(self, place: usize) -> Refusal
        ensures { result ≡ refusal_at self place }
    {
        Refusal { cause: self, place }
    }

    pub fn number(self) -> u8
        ensures { result ≡ number_of self }
    {
        self as u8
    }

    pub fn layer(self) -> Layer
        ensures { result ≡ layer_of self }
    {
        match self {
            Cause::NodeCount
            | Cause::OverLimit
            | Cause::ChildNotBelow
            | Cause::NotDeclared
            | Cause::BadInterval
            | Cause::NotOneParent
            | Cause::BoundBefore
            | Cause::FreeAtRoot => Layer::Table,
            Cause::NotSearchable => Layer::Mode,
            Cause::UnknownBelow | Cause::TooManyShown | Cause::MonitorFull | Cause::BufferShort =>
                Layer::Monitor,
            Cause::BadFact | Cause::StampTooLow | Cause::NoRoom | Cause::NotShown => Layer::Journal,
            Cause::NotKnown | Cause::ValueAbsent => Layer::Source,
        }
    }

    /// The cause in plain words, for a person to read.
    pub fn words(self) -> &'static str
        ensures { result.now ≡ words_of self }
    {
        match self {
            Cause::NodeCount => "no nodes, or more than 32",
            Cause::OverLimit => "number over its limit, or given argument beyond the count",
            Cause::ChildNotBelow => "child not numbered below its parent",
            Cause::NotDeclared => "predicate not declared, or with another count",
            Cause::BadInterval => "lo above hi, or no hi on a future operator",
            Cause::NotOneParent => "not the root and not exactly once a child",
            Cause::BoundBefore => "variable bound already by a lower node",
            Cause::FreeAtRoot => "free variable at the root",
            Cause::NotSearchable => "not searchable",
            Cause::UnknownBelow =>
                "declared predicate unknown below, or a needed argument not declared given",
            Cause::TooManyShown => "more than 4096 positions shown",
            Cause::BadFact => "fact with a predicate over 31 or more than 3 arguments",
            Cause::StampTooLow => "stamp below the least next stamp",
            Cause::NoRoom => "cost above the free units",
            Cause::MonitorFull => "4096 positions already",
            Cause::NotShown => "position not shown",
            Cause::BufferShort => "fact buffer full, or shorter than the draft",
            Cause::NotKnown => "predicate not known with this count",
            Cause::ValueAbsent => "needed value absent",
        }
    }
}

/// A refused call: the cause, and the place that it names (a node, a position, a fact's index, ..).
#[derive(Clone, Copy, PartialEq, Eq, Debug)]
pub struct Refusal {
    pub cause: Cause,
    pub place: usize,
}

impl fmt::Display for Layer {
    ghost output = { λ layer. Some (name_of layer) };

    fn fmt<W: fmt::Write>(&self, f: &mut fmt::Formatter<W>) -> fmt::Result {
        f.write_str(self.name())
    }
}

impl fmt::Display for Cause {
    ghost output = { λ cause. Some (words_of cause) };

    fn fmt<W: fmt::Write>(&self, f: &mut fmt::Formatter<W>) -> fmt::Result {
        f.write_str(self.words())
    }
}

impl fmt::Display for Refusal {
    ghost output = { λ r. Some (printed r) };

    fn fmt<W: fmt::Write>(&self, f: &mut fmt::Formatter<W>) -> fmt::Result {
        let Refusal { cause, place } = *self;
        let number = cause.number();
        let layer = cause.layer();
        write!(f, "refused {number} {layer} at {place} ({cause})")
    }
}

impl Error for Refusal {}
