//! Laws of rows that are written.
ghost use Rattle.cb_pool.specs.Pool.{OneRowIsWritten};

/// Words that are written into a slot's row, as many as a row has or fewer, change no other row, and leave the width, the taken slots and
/// `spare` as they are.
pub fn one_row_is_written()
    ensures { OneRowIsWritten }
{}
