// The other map program: reads a partial file from standard input, and writes the map that does not name what is
// missing, or the line of its refusal.
#![tactic(auto)]

use mapping::call::missmap;
use std::io;

fn main(rt: HostRuntime) -> io::Result<()> {
    program::run(&rt, |file, most, text| missmap(file, most, text))
}
