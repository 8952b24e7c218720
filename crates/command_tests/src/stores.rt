//! The command on a store, which reads nothing.

use crate::running::{Left, writes};
use command_line::status::REPORTED;
use std::test::Fail;

#[test]
fn stores_tell_their_list_and_record(rt: HostRuntime) -> Result<(), Fail> {
    let ends = (REPORTED, Left::Shared);
    let ten = "store 10\n3 10\n2 9\n1 8\n0 7\n6 6\n5 5\n4 4\nrecord 7 sum 49\nlive 8 words 36\n";
    writes(&rt, "store 10", "", ends, ten)?;
    let none = "store 0\nrecord 0 sum 0\nlive 1 words 1\n";
    writes(&rt, "store 0", "", ends, none)
}
