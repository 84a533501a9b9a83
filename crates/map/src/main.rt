// The map program: reads a partial file from standard input, and writes its map, which names what is missing, or the
// line of its refusal.
#![tactic(auto)]

use mapping::call::map;
use std::io;

fn main(rt: HostRuntime) -> io::Result<()> {
    program::run(&rt, |file, most, text| map(file, most, text))
}
