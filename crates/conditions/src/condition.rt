use crate::pattern::Pattern;
use graph_types::{LabelId, List};
use sqlite_items::Boxed;

/// What is counted in a picture. On an empty picture each is 0.
#[derive(Clone, Copy, Debug, PartialEq, Eq)]
pub enum Term {
    /// The vertices, or those with this label.
    Vertices(Option<LabelId>),
    /// The edges, or those with this label.
    Edges(Option<LabelId>),
    /// The edges of which one end has the first label and the other one the second.
    Joins(LabelId, LabelId),
    /// The labels that some vertex has.
    Kinds,
    /// The largest degree of a vertex.
    Degree,
    /// The pairs of different vertices without an edge.
    Missing,
    /// The least degree of a vertex.
    Least,
}

/// A term as often as `times` says.
#[derive(Clone, Copy, Debug, PartialEq, Eq)]
pub struct Factor {
    pub times: u32,
    pub term: Term,
}

/// The factors of a sum, in the order in which they are written.
pub type FactorList = List<Factor>;

/// How a sum is compared with its bound.
#[derive(Clone, Copy, Debug, PartialEq, Eq)]
pub enum Op {
    AtMost,
    Below,
    AtLeast,
    Above,
    Equal,
    Unequal,
}

/// A condition on a picture.
#[derive(Debug, Drop)]
pub enum Cond {
    True,
    False,
    Compare { sum: FactorList, op: Op, bound: u32 },
    Not(Boxed<Cond>),
    And(Boxed<Cond>, Boxed<Cond>),
    Or(Boxed<Cond>, Boxed<Cond>),
    /// The picture is this pattern.
    Shape(Pattern),
}
