//! What is said of faults by their numbers.

use crate::checks::{contains, holds, same};
use cmb_explain::{Place, explained, explanation_of, fault_list};
use std::test::Fail;

#[test]
fn explanations_of_numbers(rt: HostRuntime) -> Result<(), Fail> {
    let alloc = rt.alloc();
    let text = explained(alloc, 35)?.ok_or("no fault 35")?;
    let begun = "Fault 35 at P: the net has no such pin\nP is the record";
    same(&rt, text.as_str().get(..begun.len()), Some(begun));
    for number in [0, 9, 19, 41, 52, 55, 59, 63, 69, 71] {
        same(
            &rt,
            (number, explained(alloc, number)?.is_none()),
            (number, true),
        );
    }
    let place = explanation_of(62).map(|entry| entry.place);
    holds(&rt, place == Some(Place::Bytes));
    Ok(())
}

#[test]
fn list_of_faults(rt: HostRuntime) -> Result<(), Fail> {
    let list = fault_list(rt.alloc())?;
    for row in [
        "\n 1  line    a byte that no netlist has\n 2  line    not a statement\n",
        "\n22  0       a flip-flop has no clock row, and there is no common clock\n23  record  not",
        "\n62  bytes   the output failed\n70  0       out of memory\n",
    ] {
        contains(&rt, list.as_str(), row);
    }
    Ok(())
}
