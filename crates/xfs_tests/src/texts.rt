use std::test::Fail;
use xfs_super::{CheckFault, Reason};

// A reason is printed by its name and its fields.
#[test]
fn prints_reasons(rt: HostRuntime) -> Result<(), Fail> {
    let table = [
        (Reason::Geometry, "Geometry"),
        (Reason::NeedsRepair, "NeedsRepair"),
        (Reason::Checksum { sector: 8 }, "Checksum sector=8"),
        (
            Reason::Tree {
                group: 3,
                block: 70,
            },
            "Tree group=3 block=70",
        ),
        (
            Reason::FreeCount {
                group: 1,
                stored: 9,
                found: 4294967296,
            },
            "FreeCount group=1 stored=9 found=4294967296",
        ),
        (
            Reason::Directory { ino: 128, block: 0 },
            "Directory ino=128 block=0",
        ),
        (Reason::LogShape, "LogShape"),
    ];
    for (reason, text) in table {
        let printed = format!(in rt.alloc(); "{reason}")?;
        assert_eq!(rt; printed.as_str(), text);
        let printed = format!(in rt.alloc(); "{}", CheckFault::Bad(reason))?;
        assert_eq!(rt; printed.as_str(), text);
    }
    let printed = format!(in rt.alloc(); "{}", CheckFault::Device)?;
    assert_eq!(rt; printed.as_str(), "Device");
    Ok(())
}
