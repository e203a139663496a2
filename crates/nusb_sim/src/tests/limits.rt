//! How many transfers an endpoint holds, and how many bytes of a packet of udev are looked at.

use super::crowded::{push_fates, push_times};
use super::{OPENED, expect_run};
use std::alloc::{AllocError, Global};
use std::test::Fail;

#[test]
fn bars_the_65th_transfer_of_an_endpoint(rt: HostRuntime) -> Result<(), Fail> {
    let mut script = String::from_str(rt.alloc(), OPENED.0)?;
    push_times(&mut script, "submitin e0 64\n", 65)?;
    script.push_str("pending e0\n")?;
    let mut output = String::from_str(rt.alloc(), OPENED.1)?;
    push_times(&mut output, "ok\n", 64)?;
    output.push_str(
        "condition\n\
                     count 64\n",
    )?;
    push_fates(&mut output, 0, 64, "k0 81 cancelled 0 reclaimed")?;
    let wanted = (0, output.as_str(), "");
    expect_run(
        &rt,
        rt.alloc(),
        "65 transfers",
        &[],
        script.as_bytes(),
        wanted,
    )
}

/// Appends a packet of udev that says that a device went, with a property of so many letters behind that. The length of its
/// properties stands in it as these digits.
fn push_removal(script: &mut String, length: &str, letters: u32) -> Result<(), AllocError> {
    script.push_str("uevent 2 6c69627564657600feedcafe1800000018000000")?;
    script.push_str(length)?;
    script.push_str(
        "414354494f4e3d72656d6f7665004255534e554d3d303031004445564e554d3d30303600444556504154483d2f6400583d",
    )?;
    push_times(script, "61", letters)?;
    script.push_str("00\n")
}

/// Packets of 24 bytes, 49 of properties, so many letters and a 00: of 8,192 bytes, and twice of 8,193. Of these the properties of
/// the first run over the cut at 8,192 bytes, and those of the second end there.
fn removals(alloc: Global) -> Result<String, AllocError> {
    let mut script = String::new(alloc);
    push_removal(&mut script, "e81f0000", 8118)?;
    push_removal(&mut script, "e91f0000", 8119)?;
    push_removal(&mut script, "e81f0000", 8119)?;
    script.push_str(
        "hotplug\n\
                     hotplug\n\
                     hotplug\n",
    )?;
    Ok(script)
}

#[test]
fn looks_at_8192_bytes_of_a_packet(rt: HostRuntime) -> Result<(), Fail> {
    let script = removals(rt.alloc())?;
    let wanted = (
        0,
        "disconnected 1 6\n\
         pending\n\
         disconnected 1 6\n",
        "",
    );
    expect_run(
        &rt,
        rt.alloc(),
        "long packets",
        &[],
        script.as_bytes(),
        wanted,
    )
}
