//! Writes a term to a sink.
ghost use Rattle.std.specs.Prelude.{◌≡◌, ◌<◌, length, List, ℕ, OnOk, IfErr};
ghost use Rattle.graph_meaning.specs.Standing.{terms_of};
ghost use Rattle.em_printing.specs.Names.{names_of};
ghost use Rattle.em_printing.specs.Printed.{IsPrinted};
ghost use Rattle.em_printing.specs.WritesTerm.{WritesText, StopsText};

use crate::printed::push_printed;
use em_outside::{Sink, write_all};
use graph_meaning::ClassGraph;
use smt_commands::Session;
use std::alloc::Global;
use thiserror::Error;

/// Why a term was not written whole.
#[derive(Clone, Copy, Debug, PartialEq, Eq, Error)]
pub enum TermStop {
    /// The sink failed, after so many bytes.
    #[error("a write failed after {gone} bytes")]
    Stopped { gone: usize },
    /// Memory was refused. Nothing was written.
    #[error("no memory")]
    Memory,
}

/// Writes a term as the matches list it: as its symbol, or as `(symbol argument .. argument)`, where a symbol that is no simple one
/// stands between bars; and a term of more than 256 symbols, counted as a tree, as `#` and its number. Such a term is not
/// written out, nor counted to its end.
///
/// `Stopped` comes only where the sink's count of faults rose, and exactly the first `gone` bytes were written.
pub fn write_term<G: ClassGraph, K: Sink>(
    alloc: Global,
    session: &Session,
    graph: &G,
    term: u32,
    sink: &mut K,
) -> Result<(), TermStop>
    requires { term < length (terms_of (G.standing graph.now)) }
    ensures ok { OnOk result (WritesText (IsPrinted (names_of session.now) (terms_of (G.standing graph.now)) term) (K.written sink.old) (K.written sink.new)) }
    ensures stopped { IfErr result (StopsText (IsPrinted (names_of session.now) (terms_of (G.standing graph.now)) term) (K.written sink.old) (K.written sink.new) (K.fault_count sink.old) (K.fault_count sink.new)) }
{
    let mut text = Vec::new(alloc);
    match push_printed(&mut text, session, graph, term) {
        Ok(()) => {}
        Err(_) => return Err(TermStop::Memory),
    }
    match write_all(sink, text.as_slice()) {
        Ok(()) => Ok(()),
        Err(stop) => Err(TermStop::Stopped { gone: stop.gone }),
    }
}
