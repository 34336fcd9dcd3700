//! The names of commands.
ghost use Rattle.std.specs.Prelude.{◌≡◌};
ghost use Rattle.smt_commands.specs.Commands.{command_named, is_foreign, is_unsupported, other_command};

/// What the name of a command stands for.
#[derive(Clone, Copy, Debug, PartialEq, Eq)]
pub enum Named {
    SetLogic,
    SetOption,
    SetInfo,
    DeclareSort,
    DeclareFun,
    DeclareConst,
    DefineFun,
    Assert,
    Push,
    Pop,
    CheckSat,
    GetInfo,
    Reset,
    ResetAssertions,
    Exit,
    /// A command that is answered as not supported.
    Unsupported,
    /// A command that is refused.
    Foreign,
    /// No command.
    Unknown,
}

/// Whether a command of this name is answered as not supported.
#[tactic(auto, unfolding(crate::specs::Commands::is_unsupported))]
fn is_unsupported(name: &[u8]) -> bool
    ensures { result ≡ is_unsupported name.now }
{
    name == b"check-sat-assuming".as_slice()
        || name == b"echo".as_slice()
        || name == b"get-assertions".as_slice()
        || name == b"get-assignment".as_slice()
        || name == b"get-model".as_slice()
        || name == b"get-option".as_slice()
        || name == b"get-proof".as_slice()
        || name == b"get-unsat-assumptions".as_slice()
        || name == b"get-unsat-core".as_slice()
        || name == b"get-value".as_slice()
}

/// Whether a command of this name is refused.
#[tactic(auto, unfolding(crate::specs::Commands::is_foreign))]
fn is_foreign(name: &[u8]) -> bool
    ensures { result ≡ is_foreign name.now }
{
    name == b"declare-datatype".as_slice()
        || name == b"declare-datatypes".as_slice()
        || name == b"define-fun-rec".as_slice()
        || name == b"define-funs-rec".as_slice()
        || name == b"define-sort".as_slice()
}

/// The command of a name that is none of those that are read.
#[tactic(auto, unfolding(crate::specs::Commands::other_command))]
fn other_command(name: &[u8]) -> Named
    ensures { result ≡ other_command name.now }
{
    if is_unsupported(name) {
        return Named::Unsupported;
    }
    if is_foreign(name) {
        return Named::Foreign;
    }
    Named::Unknown
}

/// The command of a name.
#[tactic(auto, unfolding(crate::specs::Commands::command_named))]
pub(crate) fn command_named(name: &[u8]) -> Named
    ensures { result ≡ command_named name.now }
{
    if name == b"set-logic".as_slice() {
        return Named::SetLogic;
    }
    if name == b"set-option".as_slice() {
        return Named::SetOption;
    }
    if name == b"set-info".as_slice() {
        return Named::SetInfo;
    }
    if name == b"declare-sort".as_slice() {
        return Named::DeclareSort;
    }
    if name == b"declare-fun".as_slice() {
        return Named::DeclareFun;
    }
    if name == b"declare-const".as_slice() {
        return Named::DeclareConst;
    }
    if name == b"define-fun".as_slice() {
        return Named::DefineFun;
    }
    if name == b"assert".as_slice() {
        return Named::Assert;
    }
    if name == b"push".as_slice() {
        return Named::Push;
    }
    if name == b"pop".as_slice() {
        return Named::Pop;
    }
    if name == b"check-sat".as_slice() {
        return Named::CheckSat;
    }
    if name == b"get-info".as_slice() {
        return Named::GetInfo;
    }
    if name == b"reset".as_slice() {
        return Named::Reset;
    }
    if name == b"reset-assertions".as_slice() {
        return Named::ResetAssertions;
    }
    if name == b"exit".as_slice() {
        return Named::Exit;
    }
    other_command(name)
}
