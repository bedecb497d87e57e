// What can be wrong with a configuration, and where.

/// What is wrong with a configuration.
#[derive(Clone, Copy, Debug, PartialEq, Eq, Drop)]
pub enum ConfigKind {
    /// A string isn't closed. The fault stands at its first byte.
    OpenString,
    /// A byte that begins no token.
    BadByte,
    /// The version line is missing, or names a version that isn't read.
    Version,
    /// A file is included more than 15 deep.
    IncludeDepth,
    /// A variable that is no argument of the block and isn't defined.
    UnknownVariable,
    /// A use of a block leaves out an argument that must be given.
    MissingArgument,
    /// A use of a block gives an argument that the block doesn't have.
    UnknownArgument,
    /// A file, or the configuration as a whole, is longer than 1,048,576 bytes.
    TooLong,
    /// A token at which no continuation is in the grammar.
    Unexpected,
    /// A name or a form that isn't supported.
    Unsupported,
    /// A token in the place of a number or of a yes or no.
    BadNumber,
    /// Statements, branches or parentheses are nested more than 64 deep.
    DepthOver64,
    /// A `${` of a template has no `}`.
    OpenBrace,
    /// A template has a function, `$(`.
    Function,
    /// A reference to a name that no statement defines.
    UnknownName,
    /// Two statements of one type, or the stores of two drivers, have one name.
    DuplicateName,
    /// A required option is missing.
    MissingOption,
    /// A value is out of its range.
    BadValue,
    /// A rewrite of a macro that can't be set.
    HardMacro,
    /// A pattern that isn't valid.
    BadPattern,
    /// A filter refers to itself, directly or through others.
    FilterCycle,
    /// A source in a place other than a top-level log statement.
    SourcePlace,
    /// More inlets, destinations or filters than the limits allow.
    Limit,
    /// More offers for one message than the limit allows.
    TooManyOffers,
    /// A pattern whose compiled form is too large.
    PatternTooLarge,
}

/// What is wrong, and where: the file's number in the order of reading, the main file being 0, and
/// the line, counted from 1.
#[derive(Clone, Copy, PartialEq, Eq, Drop)]
pub struct ConfigFault {
    pub kind: ConfigKind,
    pub file: u32,
    pub line: u32,
}
