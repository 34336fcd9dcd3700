//! Scripts with their trees and faults.
ghost use Rattle.std.specs.Prelude.{◌≤◌};
ghost use Rattle.em_outside.specs.Limits.{AreLawful};

use em_outside::{Limits, MemSource, Source, SureSource};
use smt_text::{ByteFault, Kind, Place, TextFault, Tree, TreeReader, is_simple};
use std::alloc::Global;
use std::process::Abort;
use std::test::Fail;

/// How a script ends: with a fault of its bytes, or without.
#[derive(Clone, Copy, Debug, PartialEq, Eq)]
enum Ending {
    End,
    BadByte,
    Unclosed,
    Stray,
    TooDeep,
    TooLong,
    Other,
}

/// How a script ends, and where it has its fault.
fn ends_by(fault: TextFault) -> (Ending, u32, u32) {
    match fault {
        TextFault::BadByte { place } => (Ending::BadByte, place.line, place.column),
        TextFault::Unclosed { place } => (Ending::Unclosed, place.line, place.column),
        TextFault::Stray { place } => (Ending::Stray, place.line, place.column),
        TextFault::TooDeep { place } => (Ending::TooDeep, place.line, place.column),
        TextFault::TooLong { place } => (Ending::TooLong, place.line, place.column),
        TextFault::ReadFault | TextFault::Memory => (Ending::Other, 0, 0),
    }
}

fn letter(kind: Kind) -> u8 {
    match kind {
        Kind::Left => b'(',
        Kind::Right => b')',
        Kind::Symbol => b's',
        Kind::Keyword => b'k',
        Kind::Numeral => b'n',
        Kind::Decimal => b'd',
        Kind::Hex => b'h',
        Kind::Binary => b'b',
        Kind::Text => b't',
    }
}

/// Adds the tokens of a command, each as the letter of its kind, its text and a semicolon.
fn list(text: &mut Vec<u8>, tree: &Tree) -> Result<(), Fail> {
    for i in 0..tree.len() {
        text.push(letter(tree.token(i).kind))?;
        text.extend_from_slice(tree.bytes(i))?;
        text.push(b';')?;
    }
    Ok(())
}

/// The tokens of a script that comes in pieces, and how it ends.
fn listed(
    alloc: Global,
    limits: &Limits,
    script: &[u8],
    piece: usize,
) -> Result<(Vec<u8>, (Ending, u32, u32)), Fail>
    requires limits { AreLawful limits.now }
    requires piece { 1 ≤ piece }
{
    let mut source = SureSource::new(script.to_vec(alloc)?, piece);
    let mut text = Vec::new(alloc);
    let Ok(mut reader) = TreeReader::new(alloc, limits) else {
        return Ok((text, (Ending::Other, 0, 0)));
    };
    for _ in 0..=script.len() {
        match reader.next_tree(&mut source) {
            Ok(Some(tree)) => list(&mut text, &tree)?,
            Ok(None) => return Ok((text, (Ending::End, 0, 0))),
            Err(fault) => return Ok((text, ends_by(fault))),
        }
    }
    Ok((text, (Ending::Other, 0, 0)))
}

/// Each piece from one byte on to the whole script gives these tokens and this end.
fn check_script(
    rt: &impl Abort,
    alloc: Global,
    limits: &Limits,
    script: &[u8],
    text: &[u8],
    end: (Ending, u32, u32),
) -> Result<(), Fail>
    requires { AreLawful limits.now }
{
    for piece in 1..=script.len() + 1 {
        let (tokens, found) = listed(alloc, limits, script, piece)?;
        assert_eq!(rt;
            tokens.as_slice(),
            text,
            "of {script:?} in pieces of {piece}"
        );
        assert_eq!(rt; found, end, "of {script:?} in pieces of {piece}");
    }
    Ok(())
}

/// A script, its tokens as they are listed, and its end.
type Script = (&'static [u8], &'static [u8], (Ending, u32, u32));

/// Each script has these tokens and this end.
fn check_scripts(
    rt: &impl Abort,
    alloc: Global,
    limits: &Limits,
    scripts: &[Script],
) -> Result<(), Fail>
    requires { AreLawful limits.now }
{
    for (script, text, end) in scripts {
        check_script(rt, alloc, limits, script, text, *end)?;
    }
    Ok(())
}

const READ: &[Script] = &[
    (b"", b"", (Ending::End, 0, 0)),
    (b" \t\r\n;\xff(\n(a);b", b"((;sa;));", (Ending::End, 0, 0)),
    (b"(;a)\r b;\n)", b"((;sb;));", (Ending::End, 0, 0)),
    (
        b"(~!@$%^&*_-+=<>.?/a0)",
        b"((;s~!@$%^&*_-+=<>.?/a0;));",
        (Ending::End, 0, 0),
    ),
    (
        b"(a|b; (\n\"\xc3|c)",
        b"((;sa;sb; (\n\"\xc3;sc;));",
        (Ending::End, 0, 0),
    ),
    (
        b"(\"a\"\"b|;\\\"\"\"s)",
        b"((;ta\"b|;\\\";ss;));",
        (Ending::End, 0, 0),
    ),
    (b"(\"\")", b"((;t;));", (Ending::End, 0, 0)),
    (
        b"(0 10 0.0 12.340)",
        b"((;n0;n10;d0.0;d12.340;));",
        (Ending::End, 0, 0),
    ),
    (b"(#x0aF #b01)", b"((;h#x0aF;b#b01;));", (Ending::End, 0, 0)),
    (b"(:a1 :-)", b"((;k:a1;k:-;));", (Ending::End, 0, 0)),
    (
        b"(())(1\"\")",
        b"((;((;));));((;n1;t;));",
        (Ending::End, 0, 0),
    ),
];

#[test]
fn each_lexeme_is_read(rt: HostRuntime) -> Result<(), Fail> {
    check_scripts(&rt, rt.alloc(), &Limits::standard(), READ)
}

const ILL: &[Script] = &[
    (b"(01)", b"", (Ending::BadByte, 1, 3)),
    (b"(1.)", b"", (Ending::BadByte, 1, 4)),
    (b"(1.5.2)", b"", (Ending::BadByte, 1, 5)),
    (b"(1a)", b"", (Ending::BadByte, 1, 3)),
    (b"(#)", b"", (Ending::BadByte, 1, 3)),
    (b"(#x)", b"", (Ending::BadByte, 1, 4)),
    (b"(#xg)", b"", (Ending::BadByte, 1, 4)),
    (b"(#b12)", b"", (Ending::BadByte, 1, 5)),
    (b"(\"a\n\x01\")", b"", (Ending::BadByte, 2, 1)),
    (b"(\"a\x7f\")", b"", (Ending::BadByte, 1, 4)),
    (b"(|a\\b|)", b"", (Ending::BadByte, 1, 4)),
    (b"(:1)", b"", (Ending::BadByte, 1, 3)),
    (b"(a\n{)", b"", (Ending::BadByte, 2, 1)),
    (b"(\xc3\xa9)", b"", (Ending::BadByte, 1, 2)),
];

#[test]
fn each_ill_byte_is_refused_at_its_place(rt: HostRuntime) -> Result<(), Fail> {
    check_scripts(&rt, rt.alloc(), &Limits::standard(), ILL)
}

const STRAY: &[Script] = &[
    (b"a", b"", (Ending::Stray, 1, 1)),
    (b"(a))", b"((;sa;));", (Ending::Stray, 1, 4)),
    (b"(a)\n\"", b"((;sa;));", (Ending::Stray, 2, 1)),
    (b"(a)\xc3", b"((;sa;));", (Ending::Stray, 1, 4)),
    (b"(a)\n (b (c)", b"((;sa;));", (Ending::Unclosed, 2, 2)),
    (b"(|a)", b"", (Ending::Unclosed, 1, 1)),
    (b"(\"a)\"", b"", (Ending::Unclosed, 1, 1)),
];

#[test]
fn stray_bytes_and_open_commands_are_refused_at_their_places(rt: HostRuntime) -> Result<(), Fail> {
    check_scripts(&rt, rt.alloc(), &Limits::standard(), STRAY)
}

const LIMITED: &[Script] = &[
    (b"(a)(b)", b"((;sa;));((;sb;));", (Ending::End, 0, 0)),
    (b"(a)(b) ", b"((;sa;));((;sb;));", (Ending::TooLong, 1, 7)),
    (b"(a)(b){", b"((;sa;));((;sb;));", (Ending::TooLong, 1, 7)),
    (b"(|a\n cc", b"", (Ending::TooLong, 2, 3)),
    (b"(|a\n {\x01", b"", (Ending::TooLong, 2, 3)),
    (b"(())", b"((;((;));));", (Ending::End, 0, 0)),
    (b"((()))", b"", (Ending::TooDeep, 1, 3)),
];

#[test]
fn limits_refuse_the_first_byte_and_parenthesis_past_them(rt: HostRuntime) -> Result<(), Fail> {
    let limits = Limits {
        bytes: 6,
        depth: 2,
        ..Limits::standard()
    };
    check_scripts(&rt, rt.alloc(), &limits, LIMITED)
}

/// So many parentheses open, and then so many close.
fn nested(alloc: Global, depth: usize) -> Result<Vec<u8>, Fail> {
    let mut script = Vec::new(alloc);
    for _ in 0..depth {
        script.push(b'(')?;
    }
    for _ in 0..depth {
        script.push(b')')?;
    }
    Ok(script)
}

/// How long the list of tokens is of so many nested parentheses, and how it ends.
fn nested_so(alloc: Global, depth: usize) -> Result<(usize, (Ending, u32, u32)), Fail> {
    let script = nested(alloc, depth)?;
    let (tokens, end) = listed(alloc, &Limits::standard(), script.as_slice(), 4096)?;
    Ok((tokens.len(), end))
}

#[test]
fn a_command_may_be_as_deep_as_the_limit(rt: HostRuntime) -> Result<(), Fail> {
    let within = (393_216, (Ending::End, 0, 0));
    let past = (0, (Ending::TooDeep, 1, 65_537));
    assert_eq!(rt; nested_so(rt.alloc(), 65_536)?, within);
    assert_eq!(rt; nested_so(rt.alloc(), 65_537)?, past);
    Ok(())
}

/// The first command of a script, which has one.
fn first_tree(rt: &impl Abort, alloc: Global, script: &[u8]) -> Result<Tree, Fail> {
    let mut source = SureSource::new(script.to_vec(alloc)?, 1);
    let mut reader = TreeReader::new(alloc, &Limits::standard())?;
    match reader.next_tree(&mut source)? {
        Some(tree) => Ok(tree),
        None => panic!(rt; "no command"),
    }
}

const TOKENS: &[(Kind, u32, u32, u32)] = &[
    (Kind::Left, 1, 0, 8),
    (Kind::Symbol, 2, 1, 1),
    (Kind::Symbol, 4, 2, 2),
    (Kind::Text, 10, 5, 3),
    (Kind::Left, 15, 6, 7),
    (Kind::Symbol, 16, 7, 5),
    (Kind::Symbol, 18, 8, 6),
    (Kind::Right, 19, 9, 4),
    (Kind::Right, 20, 10, 0),
];

#[test]
fn a_tree_has_its_tokens(rt: HostRuntime) -> Result<(), Fail> {
    let tree = first_tree(&rt, rt.alloc(), b"(f |x y| \"\"\"\" (g x))")?;
    let mut tokens = Vec::new(rt.alloc());
    for i in 0..tree.len() {
        let token = tree.token(i);
        tokens.push((token.kind, token.place.column, token.start, token.partner))?;
    }
    assert_eq!(rt; tokens.as_slice(), TOKENS);
    Ok(())
}

#[test]
fn a_fault_is_answered_again(rt: HostRuntime) -> Result<(), Fail> {
    let alloc = rt.alloc();
    let mut source = MemSource::new(b"(a)(b)".to_vec(alloc)?, 4, vec![in alloc; 1]?);
    let Ok(mut reader) = TreeReader::new(alloc, &Limits::standard()) else {
        panic!(rt; "no memory");
    };
    assert!(rt; matches!(reader.next_tree(&mut source), Ok(Some(_))));
    assert!(rt; matches!(reader.next_tree(&mut source), Err(TextFault::ReadFault)));
    assert!(rt; matches!(reader.next_tree(&mut source), Err(TextFault::ReadFault)));
    assert_eq!(rt; source.faults(), 1);
    let place = Place { line: 2, column: 5 };
    let fault = TextFault::Stray { place };
    assert_eq!(rt; fault.in_bytes(), Some(ByteFault::Stray { place }));
    assert_eq!(rt; ByteFault::Stray { place }.place(), place);
    Ok(())
}

#[test]
fn simple_symbols_need_no_bars(rt: HostRuntime) {
    for (name, simple) in [
        ("a", true),
        ("<=", true),
        ("let", true),
        ("", false),
        ("1a", false),
        ("a b", false),
    ] {
        assert_eq!(rt; is_simple(name.as_bytes()), simple, "{name}");
    }
}
