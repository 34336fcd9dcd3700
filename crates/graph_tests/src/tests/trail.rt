//! Changes that are taken back.
use graph_trail::{Trail, Undoable};
use std::test::Fail;

/// A number that is written over.
#[derive(Drop)]
struct Written {
    value: u32,
}

impl Undoable for Written {
    ghost use Rattle.std.specs.Prelude.{ℕ, ◌≡◌};

    type Note = u32;

    ghost State = { ℕ };

    ghost state = { λ written. written.value };

    ghost before = { λ _ old. old };

    ghost can_undo = { λ _ _. Unit {0} };

    ghost undo_leaves = { λ _ old undone. undone.value ≡ old };

    ghost undo_gives_before = { λ _ _ _ leaves. leaves };

    fn undo(&mut self, note: u32) {
        self.value = note;
    }
}

#[test]
fn goes_back_to_each_mark(rt: HostRuntime) -> Result<(), Fail> {
    let mut written = Written { value: 7 };
    let mut trail: Trail<Written> = Trail::new(rt.alloc());
    let mut marks = Vec::new(rt.alloc());
    for value in [8, 9, 10] {
        marks.push(trail.mark())?;
        let noted = trail.note(written.value);
        assert!(rt; noted.is_ok());
        written.value = value;
    }
    for (mark, value) in [(2, 9), (2, 9), (1, 8), (0, 7)] {
        assert!(rt; mark <= trail.mark());
        trail.back_to_mark(&mut written, mark);
        assert_eq!(rt; written.value, value);
        assert_eq!(rt; trail.mark(), mark);
    }
    assert_eq!(rt; marks.as_slice(), [0, 1, 2].as_slice());
    Ok(())
}
