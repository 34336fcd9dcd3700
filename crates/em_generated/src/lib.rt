//! The generated script of a size, by which the engine is seen at scale.
#![tactic(auto)]

mod putting;
mod script;

pub use script::write_script;

#[cfg(test)]
mod tests {
    use super::*;
    use em_outside::{MemSink, Sink, WriteStop};
    use std::test::Fail;

    #[test]
    fn the_smallest_script_has_each_kind_of_line(rt: HostRuntime) -> Result<(), Fail> {
        let alloc = rt.alloc();
        let mut sink = MemSink::new(alloc, Vec::new(alloc));
        assert!(rt; write_script(2, &mut sink).is_ok());
        let script =
            b"(set-logic UF)\n(declare-sort U 0)\n(declare-fun f (U) U)\n(declare-fun g (U U) U)\n(declare-const c0 U)\n(declare-const c1 U)\n(assert (forall ((x U) (y U)) (! (= (g x (f y)) x) :pattern ((g x (f y))))))\n(assert (forall ((x U)) (! (= (f x) x) :pattern ((f x) (g x x)))))\n(assert (= (g c0 c0) (f c0)))\n(assert (= (g c1 c1) (f c1)))\n(check-sat)\n(push 1)\n(assert (= c0 (f c1)))\n(check-sat)\n(push 1)\n(assert (= c1 c0))\n(check-sat)\n(pop 1)\n(check-sat)\n(pop 1)\n(check-sat)\n";
        assert_eq!(rt; sink.bytes(), script.as_slice());
        assert_eq!(rt; sink.faults(), 0);
        Ok(())
    }

    #[test]
    fn a_write_that_fails_leaves_a_front(rt: HostRuntime) -> Result<(), Fail> {
        let alloc = rt.alloc();
        let mut sink = MemSink::new(alloc, vec![in alloc; 3]?);
        assert_eq!(rt; write_script(2, &mut sink), Err(WriteStop { gone: 97 }));
        let front =
            b"(set-logic UF)\n(declare-sort U 0)\n(declare-fun f (U) U)\n(declare-fun g (U U) U)\n(declare-const c0";
        assert_eq!(rt; sink.bytes(), front.as_slice());
        assert_eq!(rt; sink.faults(), 1);
        Ok(())
    }
}
