//! An operation on a graph.
ghost use Rattle.std.specs.Prelude.{◌≡◌, IfOk};

use graph_terms::{Memory, Numbers};
use graph_trigger::Trigger;
use std::alloc::Global;

/// One operation on a graph. Terms and symbols are named by their numbers.
#[derive(Debug, Drop)]
pub enum Op {
    /// A new row, of a symbol over terms that stand.
    Add { symbol: u32, args: Numbers },
    /// An equation between two terms that stand.
    Merge { left: u32, right: u32 },
    /// A disequation between two terms that stand.
    Differ { left: u32, right: u32 },
    /// A trigger that is matched from now on.
    Live { trigger: Trigger },
    /// A level opens.
    Push,
    /// The last level that is open ends, with all that came in it.
    Pop,
}

impl Op {
    /// The same operation. `Memory` comes where memory is refused.
    pub fn copy(&self, alloc: Global) -> Result<Op, Memory>
        ensures { IfOk result (λ op. op ≡ self.now) }
    {
        match self {
            Op::Add { symbol, args } => {
                let args = args.copy(alloc)?;
                Ok(Op::Add {
                    symbol: *symbol,
                    args,
                })
            }
            Op::Merge { left, right } => Ok(Op::Merge {
                left: *left,
                right: *right,
            }),
            Op::Differ { left, right } => Ok(Op::Differ {
                left: *left,
                right: *right,
            }),
            Op::Live { trigger } => {
                let trigger = trigger.copy(alloc)?;
                Ok(Op::Live { trigger })
            }
            Op::Push => Ok(Op::Push),
            Op::Pop => Ok(Op::Pop),
        }
    }
}
