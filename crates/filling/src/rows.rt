// Rows of numbers, put into a lent table.
ghost use Rattle.std.specs.Prelude.{◌≡◌};
ghost use Rattle.numerals.specs.Stored.{stored};

// Writes a row from that number of the table on, if there is room for it. How far there is room does not depend on the
// place, so that a loop over rows works it out once.
pub fn put_row(table: &mut [u64], at: usize, row: &[u64])
    ensures { table.new ≡ stored table.old at row.now }
{
    if table.len() < row.len() || table.len() - row.len() < at {
        return;
    }
    // Number by number: a copy looks first whether the two lie apart, for which a row of one or two numbers is too short.
    for i in 0..row.len() {
        table[at + i] = row[i];
    }
}
