//! A lexeme under way.
ghost use Rattle.std.specs.Prelude.{◌≡◌, ◌<◌, ◌^◌, [], length};
ghost use Rattle.smt_text.specs.Scanner.{HasRead, Finds, at_start};

use crate::inside::{Inside, Next};
use crate::lexeme::Lexeme;
use crate::lexicon::next;

/// How far the next lexeme was read, so that its bytes are looked at once, however they come in pieces.
#[derive(Clone, Copy, Debug, PartialEq, Eq)]
pub struct Scanner {
    /// What its bytes so far are.
    pub inside: Inside,
    /// How many these are.
    pub seen: usize,
}

impl Scanner {
    /// At the start of a lexeme.
    pub fn new() -> Scanner
        ensures { result ≡ at_start }
    {
        Scanner {
            inside: Inside::Start,
            seen: 0,
        }
    }

    /// Goes on with a lexeme over its bytes at hand, those that were read before included.
    pub fn go_on(&mut self, bytes: &[u8]) -> Lexeme
        requires { HasRead bytes.now self.old }
        ensures { Finds bytes.now self.new result }
    {
        while self.seen < bytes.len() {
            match next(self.inside, self.seen, bytes[self.seen]) {
                Next::Inside(inside) => {
                    self.inside = inside;
                    self.seen += 1;
                }
                Next::Is(lexeme) => return lexeme,
            }
        }
        Lexeme::Cut
    }
}
