//! This file has the text of `--version`.

/// The text of `--version` after the program's name: the version, as in the file `VERSION` of the repository; the product; the logic of the
/// toolchain that proves and builds it; and the proved statement. The text says that everything was proved: both the gate and `make build`
/// prove everything before they build the program. `tools/unproved`, which proves nothing, changes the paragraph about the proved statement
/// in the copy of the sources that it builds.
pub(crate) const VERSION: &str =
    "1.0.0 (Hengvuol), of sources for Rattle with logic dac8208d650f15bf

Built with its proofs: each function was proved before the program was built.
An image that it makes prints what its program means, and nothing else, and ends
alike; no program that it accepts reaches what is freed. Trusted: the toolchain
and the C library. docs/GUARANTEES.md in the repository says all of it.";
