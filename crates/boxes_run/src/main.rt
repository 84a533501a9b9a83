// Runs the box layer where its answers change. A line is what was asked, a tab, and the answer; `stdout` was worked out
// from the paper.
#![tactic(auto)]

mod reading;
mod report;
mod walking;
mod writing;

use std::io;

fn main(rt: HostRuntime) -> io::Result<()> {
    reading::by_bytes_left(&rt)?;
    reading::by_size(&rt)?;
    reading::by_large_size(&rt)?;
    reading::by_place(&rt)?;
    reading::by_user_type(&rt)?;
    walking::by_number_of_boxes(&rt)?;
    walking::by_kind(&rt)?;
    walking::by_rule(&rt)?;
    walking::by_table(&rt)?;
    writing::by_room(&rt)?;
    writing::by_size(&rt)?;
    writing::by_number(&rt)?;
    writing::by_offset(&rt)
}
