//! What `--version` prints after the program's name.

/// The number; the kit that the program is proved with; and whether this build is one that proved it. While `release/proved.py`
/// builds the program with its proofs, it has the kit of the day and `proved` with the commit in the last two lines.
pub(crate) const VERSION: &str = "1.0.0
rattle-kit-13f logic dac8208d650f15bf
not proved";
