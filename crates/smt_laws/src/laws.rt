//! Laws of the definitions of terms, each on a function that does nothing.
ghost use Rattle.smt_laws.specs.Laws.{MakesFormulas, MakesDefinitions, KeepsDefinitions};
ghost use Rattle.smt_laws.specs.Triggers.{MakesTriggers};

/// What a formula makes outside foralls and definitions is a formula: rows and nodes over earlier ones, none twice, with
/// no variable outside foralls, valid triggers, and every part of the sort that its place asks for.
pub fn formula_law()
    ensures { MakesFormulas }
{}

/// What a term makes inside a definition is right for its parameters, and stays so when functions are declared.
pub fn definition_law()
    ensures makes { MakesDefinitions }
    ensures keeps { KeepsDefinitions }
{}

/// A trigger is made of the rows that its roots reach: each once, in their order and with its arguments in their order.
pub fn trigger_law()
    ensures { MakesTriggers }
{}
