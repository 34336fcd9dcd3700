//! Why a command is refused.

use thiserror::Error;

/// Why a command is refused. The texts are those of error lines, but without the names that some speak of.
#[derive(Clone, Copy, Debug, PartialEq, Eq, Error)]
pub enum Refusal {
    /// A name that stands for nothing.
    #[error("unknown name")]
    UnknownName,
    /// A name that stands for something already.
    #[error("already declared")]
    AlreadyDeclared,
    /// Too few or too many arguments of a name.
    #[error("wrong number of arguments")]
    WrongArity,
    /// A term or formula of another sort than is wanted.
    #[error("wrong sort")]
    WrongSort,
    /// What is no command of the language.
    #[error("not a well-formed command")]
    BadForm,
    /// What is of the language, and is not supported.
    #[error("not supported here")]
    NotInProfile,
    /// A variable that occurs in no pattern of a trigger.
    #[error("a variable is not in the trigger")]
    PatternWithoutVariable,
    /// A pattern that is a variable.
    #[error("a pattern must not be a variable")]
    PatternIsVariable,
    /// A pattern that is a formula and no application.
    #[error("a pattern must not hold connectives")]
    PatternHasConnective,
    /// More than 32 variables of a forall.
    #[error("too many variables")]
    TooManyVariables,
    /// More than 255 arguments.
    #[error("too many arguments")]
    TooManyArguments,
    /// More than 16 patterns of a trigger.
    #[error("too many patterns")]
    TooManyPatterns,
    /// A pattern of more than 256 symbols and variables.
    #[error("the pattern is too large")]
    PatternTooLarge,
    /// More levels to close than are open.
    #[error("pop below the first level")]
    PopTooFar,
    /// More levels than may be open.
    #[error("too many levels")]
    LevelsFull,
    /// More rows than a formula may have.
    #[error("too many terms")]
    TermsFull,
    /// More nodes than a formula may have.
    #[error("too many formula nodes")]
    NodesFull,
}
