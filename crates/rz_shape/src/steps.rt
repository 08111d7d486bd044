//! What a walk over forms has read, and what it is still to read.

use rz_syntax::Raw;

/// What a form is read as.
#[derive(Clone, Copy, Debug, PartialEq, Eq)]
pub(crate) enum Target {
    Cube,
    Point,
    Tope,
}

/// A form without parts.
#[derive(Clone, Copy, Debug, PartialEq, Eq)]
pub(crate) enum Leaf {
    CubeOne,
    CubeTwo,
    Star,
    EndZero,
    EndOne,
    Top,
    Bottom,
}

/// A form of two parts.
#[derive(Clone, Copy, Debug, PartialEq, Eq)]
pub(crate) enum Join {
    Product,
    Pair,
    And,
    Or,
    SamePoint,
    AtMost,
}

/// What a form asks for, where it is read as a cube, a point or a tope.
#[derive(Clone, Copy, Debug, PartialEq, Eq)]
pub(crate) enum Plan {
    Leaf(Leaf),
    /// The variable of a binder so many binders up.
    Variable(u64),
    First(Raw),
    Second(Raw),
    Two { join: Join, left: Raw, right: Raw },
    /// It is of another sort.
    Clash,
}

/// A form that is to be read. Forms in it may stand so deep in one another.
#[derive(Clone, Copy, Debug, PartialEq, Eq)]
pub(crate) struct Part {
    pub target: Target,
    pub raw: Raw,
    pub depth: u64,
}

/// What a form was read as.
#[derive(Clone, Copy, Debug, PartialEq, Eq)]
pub(crate) struct Outcome {
    /// The id of its node.
    pub node: u64,
    /// The id of a point's cube; of a cube and a tope, the node's own.
    pub cube: u64,
}

/// What is to be made of the part that is read now.
#[derive(Clone, Copy, Debug, PartialEq, Eq)]
pub(crate) enum Frame {
    /// It is the left one of two. The right one is read next.
    Left {
        join: Join,
        whole: Raw,
        left: Raw,
        right: Raw,
        depth: u64,
    },
    /// It is the right one of two, and the left one was read.
    Right {
        join: Join,
        whole: Raw,
        right: Raw,
        left: Outcome,
    },
    First {
        arg: Raw,
    },
    Second {
        arg: Raw,
    },
}

/// What comes next: an outcome, or a part and what is to be made of it.
#[derive(Clone, Copy, Debug, PartialEq, Eq)]
pub(crate) enum Step {
    Done(Outcome),
    Under { frame: Frame, part: Part },
}
