//! The generated script of a size.
ghost use Rattle.std.specs.Prelude.{◌≤◌, ◌+◌, ◌-◌, ◌*◌, ◌++◌, length, take, IfOk, OnOk, IfErr};
ghost use Rattle.std.specs.List.{flat_map};
ghost use Rattle.em_outside.specs.Bytes.{Appended};
ghost use Rattle.em_outside.specs.Causes.{HasCause};
ghost use Rattle.em_generated.specs.GeneratedScript.{line, opening, declaration, foralls, square, link, union, deeper, closing, script_text};
ghost use Rattle.em_generated.specs.Putting.{Puts, each_line};

use crate::putting::{put, put_number};
use em_outside::{Sink, WriteStop};

/// Writes that g of a constant and itself is f of it.
fn write_square<K: Sink>(sink: &mut K, gone: usize, index: u32) -> Result<usize, WriteStop>
    requires { gone ≤ 4000000 }
    ensures puts { Puts gone (K.written sink.old) (K.written sink.new) (K.fault_count sink.old) (K.fault_count sink.new) result (line (square index)) }
    ensures within { IfOk result (λ end. end ≤ gone + 200) }
{
    let first = put_number(sink, gone, b"(assert (= (g c", index, b" c")?;
    let second = put_number(sink, first, b"", index, b") (f c")?;
    put_number(sink, second, b"", index, b")))\n")
}

/// Writes that a constant is f of the next one.
fn write_link<K: Sink>(sink: &mut K, gone: usize, index: u32) -> Result<usize, WriteStop>
    requires small { gone ≤ 4000000 }
    requires index { index ≤ 4000 }
    ensures puts { Puts gone (K.written sink.old) (K.written sink.new) (K.fault_count sink.old) (K.fault_count sink.new) result (line (link index)) }
    ensures within { IfOk result (λ end. end ≤ gone + 200) }
{
    let first = put_number(sink, gone, b"(assert (= c", index, b" (f c")?;
    put_number(sink, first, b"", index + 1, b")))\n")
}

/// Writes that two constants are equal.
fn write_union<K: Sink>(
    sink: &mut K,
    gone: usize,
    left: u32,
    right: u32,
) -> Result<usize, WriteStop>
    requires { gone ≤ 4000000 }
    ensures puts { Puts gone (K.written sink.old) (K.written sink.new) (K.fault_count sink.old) (K.fault_count sink.new) result (line (union left right)) }
    ensures within { IfOk result (λ end. end ≤ gone + 200) }
{
    let first = put_number(sink, gone, b"(assert (= c", left, b" c")?;
    put_number(sink, first, b"", right, b"))\n")
}

/// Declares so many constants.
fn write_declarations<K: Sink>(sink: &mut K, gone: usize, count: u32) -> Result<usize, WriteStop>
    requires small { gone ≤ 1000 }
    requires few { count ≤ 4000 }
    ensures puts { Puts gone (K.written sink.old) (K.written sink.new) (K.fault_count sink.old) (K.fault_count sink.new) result (each_line declaration count) }
    ensures within { IfOk result (λ end. end ≤ gone + 200 * count) }
{
    let mut end = gone;
    for index in 0..count {
        end = put_number(sink, end, b"(declare-const c", index, b" U)\n")?;
    }
    Ok(end)
}

/// Writes the squares of so many constants.
fn write_squares<K: Sink>(sink: &mut K, gone: usize, count: u32) -> Result<usize, WriteStop>
    requires small { gone ≤ 1000000 }
    requires few { count ≤ 4000 }
    ensures puts { Puts gone (K.written sink.old) (K.written sink.new) (K.fault_count sink.old) (K.fault_count sink.new) result (each_line square count) }
    ensures within { IfOk result (λ end. end ≤ gone + 200 * count) }
{
    let mut end = gone;
    for index in 0..count {
        end = write_square(sink, end, index)?;
    }
    Ok(end)
}

/// Writes so many links.
fn write_links<K: Sink>(sink: &mut K, gone: usize, count: u32) -> Result<usize, WriteStop>
    requires small { gone ≤ 2000000 }
    requires few { count ≤ 4000 }
    ensures puts { Puts gone (K.written sink.old) (K.written sink.new) (K.fault_count sink.old) (K.fault_count sink.new) result (each_line link count) }
    ensures within { IfOk result (λ end. end ≤ gone + 200 * count) }
{
    let mut end = gone;
    for index in 0..count {
        end = write_link(sink, end, index)?;
    }
    Ok(end)
}

/// Writes what stands before the first check.
fn write_base<K: Sink>(sink: &mut K, count: u32) -> Result<usize, WriteStop>
    requires { count ≤ 4000 }
    ensures puts { Puts 0 (K.written sink.old) (K.written sink.new) (K.fault_count sink.old) (K.fault_count sink.new) result (flat_map line opening ++ (each_line declaration count ++ (flat_map line foralls ++ each_line square count))) }
    ensures within { IfOk result (λ end. end ≤ 1800000) }
{
    let opened = put(
        sink,
        0,
        b"(set-logic UF)\n(declare-sort U 0)\n(declare-fun f (U) U)\n(declare-fun g (U U) U)\n",
    )?;
    let declared = write_declarations(sink, opened, count)?;
    let given = put(
        sink,
        declared,
        b"(assert (forall ((x U) (y U)) (! (= (g x (f y)) x) :pattern ((g x (f y))))))\n(assert (forall ((x U)) (! (= (f x) x) :pattern ((f x) (g x x)))))\n",
    )?;
    write_squares(sink, given, count)
}

/// Writes the checks and what stands in the two levels.
fn write_levels<K: Sink>(sink: &mut K, gone: usize, count: u32) -> Result<usize, WriteStop>
    requires small { gone ≤ 1900000 }
    requires some { 2 ≤ count }
    requires few { count ≤ 4000 }
    ensures { Puts gone (K.written sink.old) (K.written sink.new) (K.fault_count sink.old) (K.fault_count sink.new) result (flat_map line deeper ++ (each_line link (count - 1) ++ (flat_map line deeper ++ (line (union (count - 1) (count - 2)) ++ flat_map line closing)))) }
{
    let first = put(sink, gone, b"(check-sat)\n(push 1)\n")?;
    let linked = write_links(sink, first, count - 1)?;
    let second = put(sink, linked, b"(check-sat)\n(push 1)\n")?;
    let joined = write_union(sink, second, count - 1, count - 2)?;
    put(
        sink,
        joined,
        b"(check-sat)\n(pop 1)\n(check-sat)\n(pop 1)\n(check-sat)\n",
    )
}

/// Writes the generated script of the size: in a chain of so many constants each is f of the next one, under two
/// foralls, with a check at each level. Takes no memory.
///
/// It stops at the first write that fails: then exactly the first `gone` bytes of the script were written.
pub fn write_script<K: Sink>(count: u32, sink: &mut K) -> Result<(), WriteStop>
    requires some { 2 ≤ count }
    requires few { count ≤ 4000 }
    ensures ok { OnOk result (Appended (K.written sink.old) (K.written sink.new) (script_text count)) }
    ensures within { IfErr result (λ stop. stop.gone ≤ length (script_text count)) }
    ensures front { IfErr result (λ stop.
        Appended (K.written sink.old) (K.written sink.new) (take stop.gone (script_text count))) }
    ensures cause { HasCause (K.fault_count sink.old) (K.fault_count sink.new) result }
{
    let gone = write_base(sink, count)?;
    match write_levels(sink, gone, count) {
        Ok(_) => Ok(()),
        Err(stop) => Err(stop),
    }
}
