// Lines for the programs that compare what comes with what should come. A name is any bytes.
#![tactic(auto)]

use std::fmt::Display;
use std::io;

// One line: what it is, what came, and what should have come where that is something else.
pub fn figure<T: Display + PartialEq + Drop>(
    rt: &impl Print,
    name: &[u8],
    came: T,
    expected: T,
) -> io::Result<()> {
    rt.write_all(name)?;
    if came == expected {
        println!(rt; ": {came}")
    } else {
        println!(rt; ": {came}, and it should be {expected}")
    }
}

// One line: whether the part that came is the one expected.
pub fn part(rt: &impl Print, name: &[u8], came: &[u8], expected: &[u8]) -> io::Result<()> {
    let verdict = if came == expected {
        "as it stands"
    } else {
        "another part"
    };
    rt.write_all(name)?;
    println!(rt; ": {verdict}")
}
