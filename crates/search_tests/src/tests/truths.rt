//! Truth values.
use formula_truth::{Truth, is_no, is_set, is_yes};
use std::test::Fail;

#[test]
fn a_truth_is_set_where_it_is_yes_or_no(rt: HostRuntime) -> Result<(), Fail> {
    for (truth, wanted) in [
        (Truth::Yes, (true, false, true)),
        (Truth::No, (false, true, true)),
        (Truth::Unset, (false, false, false)),
    ] {
        assert_eq!(rt; (is_yes(truth), is_no(truth), is_set(truth)), wanted);
    }
    Ok(())
}
