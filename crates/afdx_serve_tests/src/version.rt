//! What the program prints of its version.

use afdx_fixtures::{answers, folder_of};
use std::test::*;

#[test]
fn prints_the_version_that_it_is_given(rt: HostRuntime) -> Result<(), Fail> {
    let alloc = rt.alloc();
    let mut folder = folder_of(alloc, "", &[])?;
    let text = "afdx 1.2.3\nkit 4\nnot proved\n";
    let is_printed = answers(alloc, "afdx --version", &mut folder, (0, text, ""))?;
    let is_short = answers(alloc, "afdx -V", &mut folder, (0, text, ""))?;
    assert!(rt; is_printed && is_short);
    Ok(())
}
