// The program that lists the boxes of the file on its standard input, with whose a vendor's box is.
#![tactic(auto)]

use boxlisting::call::boxes;
use std::io;

fn main(rt: HostRuntime) -> io::Result<()> {
    program::run(&rt, |file, most, text| boxes(file, most, text))
}
