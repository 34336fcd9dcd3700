//! Finds the partner of each parenthesis of a command.
ghost use Rattle.std.specs.Prelude.{◌≡◌, ◌+◌, ◌-◌, ◌<◌, ◌^◌, length, OnOk};
ghost use Rattle.smt_text.specs.Partners.{Closes};
ghost use Rattle.smt_text.specs.Pairing.{token_kinds, bare, Paired, AllPaired};

use crate::{Kind, Token};
use std::alloc::{AllocError, Global};

/// Goes on with the token at `i`. The left parentheses before it that are still open are listed, the innermost last.
fn pair_token(tokens: &mut [Token], lefts: &mut Vec<u32>, i: usize) -> Result<(), AllocError>
    requires few { length tokens.old < 2 ^ 32 }
    requires whole { Closes (token_kinds tokens.old) 0 (length tokens.old - 1) }
    requires within { i < length tokens.old }
    requires paired { Paired (token_kinds tokens.old) tokens.old lefts.old.items i }
    ensures paired { OnOk result (Paired (token_kinds tokens.old) tokens.new lefts.new.items (i + 1)) }
    ensures same { OnOk result (bare tokens.new ≡ bare tokens.old) }
{
    match tokens[i].kind {
        Kind::Left => {
            lefts.push(i as u32)?;
            Ok(())
        }
        Kind::Right => {
            let Some(left) = lefts.pop() else {
                unreachable!();
            };
            tokens[left as usize].partner = i as u32;
            tokens[i].partner = left;
            Ok(())
        }
        _ => {
            tokens[i].partner = i as u32;
            Ok(())
        }
    }
}

/// Writes into each token of a whole command where its partner is.
pub(crate) fn pair(alloc: Global, tokens: &mut [Token]) -> Result<(), AllocError>
    requires few { length tokens.old < 2 ^ 32 }
    requires whole { Closes (token_kinds tokens.old) 0 (length tokens.old - 1) }
    ensures paired { OnOk result (AllPaired tokens.new) }
    ensures same { OnOk result (bare tokens.new ≡ bare tokens.old) }
{
    let mut lefts = Vec::new(alloc);
    for i in 0..tokens.len() {
        pair_token(tokens, &mut lefts, i)?;
    }
    Ok(())
}
