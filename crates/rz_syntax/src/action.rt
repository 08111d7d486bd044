//! What the grammar does with what it has read: the actions.

/// A form without parts.
#[derive(Clone, Copy, Debug, PartialEq, Eq)]
pub enum Leaf {
    Universe,
    CubeSort,
    TopeSort,
    CubeOne,
    CubeTwo,
    Star,
    EndZero,
    EndOne,
    Top,
    Bottom,
    UnitType,
    UnitTerm,
    RecBot,
    Refl,
}

/// A form with a left and a right part.
#[derive(Clone, Copy, Debug, PartialEq, Eq)]
pub enum Join {
    And,
    Or,
    SamePoint,
    AtMost,
    Equal,
    Product,
    As,
}

/// An action, where the grammar's rules have it. "Takes" says what it takes from what was read,
/// "makes" what it leaves.
#[derive(Clone, Copy, Debug, PartialEq, Eq)]
pub enum Action {
    /// Notes the place of the next token.
    Here,
    /// Begins a list of arguments.
    OpenArguments,
    /// Begins a list of faces.
    OpenFaces,
    /// Begins the patterns of one binder.
    OpenPatterns,
    /// Begins the binders of a form or of a command.
    OpenBinds,
    /// Takes a form, and adds it to the arguments.
    AddArgument,
    /// Takes a tope and a term, and adds the face to the faces.
    AddFace,
    /// Takes a pattern, and adds it to the patterns.
    AddPattern,
    /// Takes a pattern, and adds it to the binders without a type.
    AddUntyped,
    /// Takes the patterns and a type, and adds a binder for each pattern.
    AddTyped,
    /// Takes the patterns, a type and a tope, and adds a binder for each pattern.
    AddRestricted,
    /// Makes a pattern of the last token.
    NamePattern,
    /// Makes the pattern without a name.
    BlankPattern,
    /// Takes a place and two patterns, and makes their pair.
    PairPattern,
    /// Makes a form of the last token, a name.
    Named,
    /// Makes a form without parts, at the last token.
    Leaf(Leaf),
    /// Takes two forms, and makes one of them.
    Join(Join),
    /// Takes a left side, a type and a right side, and makes the equality at the type.
    EqualAt,
    /// Takes a place and a form, and makes its first part.
    First,
    /// Takes a place and a form, and makes its second part.
    Second,
    /// Takes a form and the arguments, and makes the application; without an argument the form
    /// stays.
    Apply,
    /// Takes a place and a form in brackets, which begins at the place from now on.
    Bracketed,
    /// Takes a place and two forms, and makes their pair.
    Pair,
    /// Takes a place and a term, and makes the reflexivity of the term.
    ReflAt,
    /// Takes a place, a term and a type, and makes the reflexivity of the term at the type.
    ReflTyped,
    /// Takes a place and the arguments, and makes the induction.
    IdJ,
    /// Takes a place and the faces, and makes the term by cases.
    RecOr,
    /// Takes a form and the faces, and makes the restriction.
    Restrict,
    /// Takes two forms, and makes the function type with a nameless binder.
    Arrow,
    /// Takes a place, the binders and a form, and makes a function type for each binder.
    Arrows,
    /// Takes a place, a pattern, a type and a form, and makes the pair type.
    Sigma,
    /// Takes a place, the binders and a form, and makes the function.
    Lambda,
    /// Begins a command at the last token.
    Begin,
    /// Takes the last token for the command's name.
    CommandName,
    /// Adds the last token to the words of a command or of a sequent.
    AddWord,
    /// Takes a cube and the words, and adds the words as names of this cube.
    AddNames,
    /// Makes the command of its kind, of what it has taken.
    Define,
    Postulate,
    Check,
    Compute,
    Section,
    End,
    Assume,
    SetOption,
}

/// What is done in order while tokens are read.
#[derive(Clone, Copy, Debug, PartialEq, Eq)]
pub enum Step {
    /// The next token is taken.
    Take,
    /// An action is done.
    Act(Action),
}
