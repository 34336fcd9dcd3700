//! The entries of a trigger.
ghost use Rattle.std.specs.Prelude.{◌<◌, length, OnOk};
ghost use Rattle.graph_trigger.specs.Trigger.{IsValid};
ghost use Rattle.match_trees.specs.Growth.{Extends};
ghost use Rattle.match_trees.specs.EntryList.{ExtendsList};
ghost use Rattle.match_forest.specs.ForestInside.{Enters, EntersOne};

use graph_terms::Memory;
use graph_trigger::Trigger;
use match_code::{Instr, compile};
use match_trees::laws::{entry_law, growth_law};
use match_trees::{Entry, EntryTable, NodeTable};
use std::alloc::Global;

/// Puts the entry of one start last, and its code into the trees.
fn add_entry(
    alloc: Global,
    nodes: &mut NodeTable<Instr>,
    entries: &mut EntryTable,
    trigger: &Trigger,
    number: u32,
    start: u32,
) -> Result<(), Memory>
    requires valid { IsValid trigger.now }
    requires start { start < length trigger.now.roots }
    ensures ok { OnOk result (EntersOne nodes.old nodes.new entries.old entries.new trigger.now number start) }
    ensures nodes { Extends nodes.old nodes.new }
    ensures entries { ExtendsList entries.old entries.new }
{
    let _nodes = nodes.len();
    let _entries = entries.len();
    let code = compile(alloc, trigger, start)?;
    let end = nodes.put_way(alloc, code.as_slice())?;
    let entry = Entry {
        trigger: number,
        start,
    };
    entries.push(entry, end)?;
    Ok(())
}

/// Puts an entry for each start of the trigger last, and their codes into the trees.
pub fn add_entries(
    alloc: Global,
    nodes: &mut NodeTable<Instr>,
    entries: &mut EntryTable,
    trigger: &Trigger,
    number: u32,
) -> Result<(), Memory>
    requires { IsValid trigger.now }
    ensures ok { OnOk result (Enters nodes.old nodes.new entries.old entries.new trigger.now number (length trigger.now.roots)) }
    ensures nodes { Extends nodes.old nodes.new }
    ensures entries { ExtendsList entries.old entries.new }
{
    growth_law::<Instr>();
    entry_law();
    let _nodes = nodes.len();
    let _entries = entries.len();
    for start in 0..trigger.roots.len() {
        add_entry(alloc, nodes, entries, trigger, number, start)?;
    }
    Ok(())
}
