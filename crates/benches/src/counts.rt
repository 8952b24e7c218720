//! Lines of counts.

use std::io;
use std::io::Print;

/// Prints a line of these names, each with its count.
pub fn print_line<R: Print>(rt: &R, counts: &[(&str, u64)]) -> io::Result<()> {
    let mut gap = "";
    for row in counts {
        let (name, count) = *row;
        print!(rt; "{gap}{name} {count}")?;
        gap = " ";
    }
    println!(rt)
}
