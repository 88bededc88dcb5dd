//! The kinds of faults, phase by phase, each with its number and its name.
ghost use Rattle.std.specs.Prelude.{◌≡◌};
ghost use Rattle.campl_cli.specs.Faults.{code_of_text, code_of_name, code_of_function, code_of_process};

/// What is wrong of a text, which so has no tree.
#[derive(Clone, Copy, Debug, PartialEq, Eq)]
pub enum TextKind {
    /// A character that begins no token.
    BadCharacter,
    /// A literal that doesn't end on its line, or a character literal that hasn't exactly one character.
    OpenString,
    /// A backslash that begins no escape.
    BadEscape,
    /// A number above 9,223,372,036,854,775,807.
    NumberTooLarge,
    /// A name of more than 64 characters.
    NameTooLong,
    /// A Tab outside a comment.
    Tab,
    /// A token, or the end, in a column that the blocks round it don't allow.
    BadColumn,
    /// A text of more than 1,024 characters.
    TextTooLong,
    /// A token after which nothing can help: no program begins so.
    Unexpected,
    /// A token that is nested more than 200 deep.
    TooDeep,
}

impl TextKind {
    /// The number and the name of the fault, as its line has them.
    pub fn code(self) -> &'static str
        ensures { result.now ≡ code_of_text self }
    {
        match self {
            TextKind::BadCharacter => "E01 BadCharacter",
            TextKind::OpenString => "E02 OpenString",
            TextKind::BadEscape => "E03 BadEscape",
            TextKind::NumberTooLarge => "E04 NumberTooLarge",
            TextKind::NameTooLong => "E05 NameTooLong",
            TextKind::Tab => "E06 Tab",
            TextKind::BadColumn => "E07 BadColumn",
            TextKind::TextTooLong => "E08 TextTooLong",
            TextKind::Unexpected => "E10 Unexpected",
            TextKind::TooDeep => "E11 TooDeep",
        }
    }
}

/// What is wrong of the names of a tree.
#[derive(Clone, Copy, Debug, PartialEq, Eq)]
pub enum NameKind {
    /// A name that is declared a second time.
    Twice,
    /// A name that isn't known.
    Unknown,
    /// A name of another kind than its place wants.
    WrongKind,
    /// No process is named `run`.
    NoRun,
    /// The heading of `run` has more than services.
    RunNotService,
    /// A named type with another number of arguments than its declaration has parameters.
    TypeArguments,
}

impl NameKind {
    /// The number and the name of the fault, as its line has them.
    pub fn code(self) -> &'static str
        ensures { result.now ≡ code_of_name self }
    {
        match self {
            NameKind::Twice => "E20 Twice",
            NameKind::Unknown => "E21 Unknown",
            NameKind::WrongKind => "E22 WrongKind",
            NameKind::NoRun => "E23 NoRun",
            NameKind::RunNotService => "E24 RunNotService",
            NameKind::TypeArguments => "E25 TypeArguments",
        }
    }
}

/// What is wrong of functions, or of the expressions and patterns of processes.
#[derive(Clone, Copy, Debug, PartialEq, Eq)]
pub enum FunctionKind {
    /// An expression or a pattern of another type than is wanted.
    TypeDiffers,
    /// An expression that doesn't tell its type.
    NeedsType,
    /// Rows that don't cover all values.
    NotExhaustive,
    /// Another number of arguments than is declared, or of patterns in a row.
    ArgumentCount,
    /// A row of patterns, or the row of a process, that binds a name twice.
    NameTwiceInPattern,
}

impl FunctionKind {
    /// The number and the name of the fault, as its line has them.
    pub fn code(self) -> &'static str
        ensures { result.now ≡ code_of_function self }
    {
        match self {
            FunctionKind::TypeDiffers => "E30 TypeDiffers",
            FunctionKind::NeedsType => "E31 NeedsType",
            FunctionKind::NotExhaustive => "E32 NotExhaustive",
            FunctionKind::ArgumentCount => "E33 ArgumentCount",
            FunctionKind::NameTwiceInPattern => "E34 NameTwiceInPattern",
        }
    }
}

/// What is wrong of processes.
#[derive(Clone, Copy, Debug, PartialEq, Eq)]
pub enum ProcessKind {
    /// A channel that isn't held.
    NotHeld,
    /// A channel that is left over, or whose name a new one takes.
    LeftOver,
    /// A channel whose type and side allow another action.
    WrongAction,
    /// A name that stands in a plug where it may not, or too seldom.
    PlugUse,
    /// A link that closes a cycle of a plug's parts.
    PlugCycle,
    /// A part of a plug that no links join to the first.
    PlugApart,
    /// A constructor without a row of `hcase`.
    CaseMissing,
    /// A constructor with a second row of `hcase`.
    CaseTwice,
    /// A race of fewer than 2 or more than 16 branches, or a branch that doesn't begin by receiving on its channel.
    RaceForm,
    /// Two channels of an identity that don't fit together.
    IdentityType,
    /// Another number of channels than is declared, or a channel of another side or type.
    CallChannels,
    /// A plug of fewer than 2 or more than 64 parts.
    PartCount,
}

impl ProcessKind {
    /// The number and the name of the fault, as its line has them.
    pub fn code(self) -> &'static str
        ensures { result.now ≡ code_of_process self }
    {
        match self {
            ProcessKind::NotHeld => "E40 NotHeld",
            ProcessKind::LeftOver => "E41 LeftOver",
            ProcessKind::WrongAction => "E42 WrongAction",
            ProcessKind::PlugUse => "E43 PlugUse",
            ProcessKind::PlugCycle => "E44 PlugCycle",
            ProcessKind::PlugApart => "E45 PlugApart",
            ProcessKind::CaseMissing => "E46 CaseMissing",
            ProcessKind::CaseTwice => "E47 CaseTwice",
            ProcessKind::RaceForm => "E48 RaceForm",
            ProcessKind::IdentityType => "E49 IdentityType",
            ProcessKind::CallChannels => "E50 CallChannels",
            ProcessKind::PartCount => "E51 PartCount",
        }
    }
}
