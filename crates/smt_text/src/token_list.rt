//! The tokens of a command under way.
ghost use Rattle.std.specs.Prelude.{◌≡◌, ◌++◌, ◌∷◌, [], OnOk};
ghost use Rattle.smt_text.specs.Script.{text_of};
ghost use Rattle.smt_text.specs.Word.{first_place};

use crate::text::push_text;
use crate::{Kind, Place, Token};
use std::alloc::{AllocError, Global};
use std::marker::Model;

/// The most tokens and the most bytes of text that a list takes: a growth past it finds no memory.
const MOST: usize = u32::MAX as usize;

/// Tokens and their texts, one after another. A clause sees them as the list of their words.
/// The partner of each token is still the token itself.
#[derive(Drop)]
pub struct TokenList {
    pub(crate) tokens: Vec<Token>,
    pub(crate) text: Vec<u8>,
}

impl Model for TokenList {
    ghost use Rattle.std.specs.Prelude.{List, length, ◌<◌, ◌^◌};
    ghost use Rattle.smt_text.specs.Word.{Word, words_of, AreInPlace};

    ghost Value = { List Word };

    ghost view = { λ t. words_of t.tokens.items t.text.items };

    ghost invariant = { λ t. (length t.tokens.items < 2 ^ 32) × AreInPlace 0 t.tokens.items t.text.items };
}

impl TokenList {
    /// No tokens.
    pub(crate) fn new(alloc: Global) -> TokenList
        ensures { result ≡ [] }
    {
        TokenList {
            tokens: Vec::new(alloc),
            text: Vec::new(alloc),
        }
    }

    /// The place of the first token.
    pub(crate) fn first_place(&self) -> Option<Place>
        ensures { result ≡ first_place self.now }
    {
        match self.tokens.as_slice() {
            [] => None,
            [token, ..] => Some(token.place),
        }
    }

    /// Adds a token by its bytes in the script.
    pub(crate) fn push(
        &mut self,
        kind: Kind,
        place: Place,
        spelling: &[u8],
    ) -> Result<(), AllocError>
        ensures { OnOk result (self.new ≡ self.old
            ++ record { kind = kind; place = place; text = text_of kind spelling.now } ∷ []) }
    {
        let index = self.tokens.len();
        let start = self.text.len();
        let pushed = push_text(&mut self.text, kind, spelling);
        let end = self.text.len();
        if pushed.is_err() || index >= MOST || end > MOST {
            self.text.truncate(start);
            return Err(AllocError);
        }
        let token = Token {
            kind,
            place,
            start: start as u32,
            length: (end - start) as u32,
            partner: index as u32,
        };
        match self.tokens.push(token) {
            Ok(()) => Ok(()),
            Err(_) => {
                self.text.truncate(start);
                Err(AllocError)
            }
        }
    }
}
