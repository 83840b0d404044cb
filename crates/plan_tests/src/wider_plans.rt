//! Plans of tables with logical partitions, and of GPT disks.
ghost use Rattle.std.specs.Prelude.{◌≡◌, ℕ, ◌+◌, ◌*◌, ◌≤◌, length, IfOk};
ghost use Rattle.layout_plan.specs.declared.part.Kind.TheVariants.{Mbr, Gpt};
ghost use Rattle.layout_plan.specs.Source.{IsSource};

use layout_plan::{
    Fate, Kind, Layout, NoPlan, Part, Placed, Planned, Role, Size, What, Wish, plan,
};
use std::alloc::{AllocError, Global};
use std::process::Abort;
use std::test::Fail;

/// A layout by 64 KiB that makes a partition of what is left over.
const LAYOUT: Layout = Layout {
    align: 128,
    always: false,
    extra: true,
};

/// The extended slot from sector 2048 on, and three logical partitions whose boot records stand at sectors 2048,
/// 12288 and 22528; the content of the first needs ten sectors.
fn chain() -> [Part; 4]
    ensures { IsSource Mbr result }
{
    [
        Part {
            number: 1,
            role: Role::Extended,
            start: 2048,
            count: 40960,
            content: 40960,
        },
        Part {
            number: 5,
            role: Role::Logical,
            start: 2176,
            count: 10000,
            content: 10,
        },
        Part {
            number: 6,
            role: Role::Logical,
            start: 12416,
            count: 10000,
            content: 10000,
        },
        Part {
            number: 7,
            role: Role::Logical,
            start: 22656,
            count: 10000,
            content: 10000,
        },
    ]
}

/// Two slots round an extended one in which no logical partition is.
fn hollow() -> [Part; 3]
    ensures { IsSource Mbr result }
{
    [
        Part {
            number: 1,
            role: Role::Slot,
            start: 2048,
            count: 100,
            content: 100,
        },
        Part {
            number: 2,
            role: Role::Extended,
            start: 4096,
            count: 1000,
            content: 1000,
        },
        Part {
            number: 3,
            role: Role::Slot,
            start: 8192,
            count: 100,
            content: 100,
        },
    ]
}

/// A GPT disk of one entry.
fn entry() -> [Part; 1]
    ensures { IsSource Gpt result }
{
    [Part {
        number: 1,
        role: Role::Slot,
        start: 2048,
        count: 20480,
        content: 20480,
    }]
}

/// What is wished of a part by the word at index 2.
fn wish(part: u32, what: What) -> Wish {
    Wish {
        place: 2,
        part,
        what,
    }
}

/// The extended slot on the target.
fn outer(count: u64) -> Placed {
    Placed {
        from: 1,
        number: 1,
        ebr: 0,
        start: 2048,
        count,
        fate: Fate::Extended,
    }
}

/// A logical partition of its old length, with its boot record an alignment before it.
fn logical(from: u32, number: u32, ebr: u64) -> Placed
    requires { ebr ≤ 65536 }
{
    Placed {
        from,
        number,
        ebr,
        start: ebr + 128,
        count: 10000,
        fate: Fate::Kept,
    }
}

/// A slot or an entry of its old length, or one made of what is left over.
fn kept(from: u32, number: u32, start: u64, count: u64) -> Placed {
    Placed {
        from,
        number,
        ebr: 0,
        start,
        count,
        fate: Fate::Kept,
    }
}

/// What is made of the chain with a wish, or why nothing is.
fn of_chain(alloc: Global, wishes: &[Wish], sectors: u64) -> Result<Planned, NoPlan> {
    plan(alloc, Kind::Mbr, &chain(), wishes, &LAYOUT, sectors)
}

/// What is made of the entry with a wish, or why nothing is.
fn of_entry(alloc: Global, wishes: &[Wish], sectors: u64) -> Result<Planned, NoPlan> {
    plan(alloc, Kind::Gpt, &entry(), wishes, &LAYOUT, sectors)
}

#[test]
fn keeps_a_chain(rt: HostRuntime) -> Result<(), Fail> {
    for (sectors, extra) in [
        (65536, Some(kept(0, 2, 32768, 32768))),
        (53248, Some(kept(0, 2, 32768, 20480))),
        (53247, None),
        (32656, None),
    ] {
        let planned = of_chain(rt.alloc(), &[], sectors)?;
        assert_eq!(rt;
            planned.parts(),
            [
                outer(30608),
                logical(5, 5, 2048),
                logical(6, 6, 12288),
                logical(7, 7, 22528),
            ]
            .as_slice()
        );
        assert_eq!(rt; planned.extra(), extra, "{sectors} sectors");
    }
    Ok(())
}

#[test]
fn refuses_what_a_chain_can_not_have(rt: HostRuntime) {
    let sized = What::Force(Size::Less(10000 * 512));
    let cut = What::Resize(Size::Bytes(9999 * 512));
    for (sectors, wish, fault) in [
        (
            32655,
            wish(6, What::Ignore),
            NoPlan::DoesNotFit {
                end: 32656,
                limit: 32655,
            },
        ),
        (65536, wish(1, What::Delete), NoPlan::Extended { place: 2 }),
        (
            65536,
            wish(2, What::Delete),
            NoPlan::NoSuchPart { place: 2 },
        ),
        (65536, wish(6, sized), NoPlan::Empty { part: 6 }),
        (
            65536,
            wish(6, cut),
            NoPlan::WouldCut {
                part: 6,
                content: 10000,
                wanted: 9999,
            },
        ),
        (
            32656,
            wish(7, What::Expand),
            NoPlan::NoSurplus { limit: 32656 },
        ),
        (
            32656,
            wish(5, What::Shrink),
            NoPlan::NoDeficit { end: 32656 },
        ),
    ] {
        let planned = of_chain(rt.alloc(), &[wish], sectors);
        assert_eq!(rt; planned.err(), Some(fault));
    }
}

#[test]
fn closes_a_chain_up(rt: HostRuntime) -> Result<(), Fail> {
    let planned = of_chain(rt.alloc(), &[wish(6, What::Delete)], 65536)?;
    assert_eq!(rt;
        planned.parts(),
        [outer(20368), logical(5, 5, 2048), logical(7, 6, 12288)].as_slice()
    );
    assert_eq!(rt; planned.extra(), Some(kept(0, 2, 22528, 43008)));
    Ok(())
}

#[test]
fn makes_no_extended_part_without_logical_ones(rt: HostRuntime) -> Result<(), Fail> {
    let wishes = [
        wish(5, What::Delete),
        wish(6, What::Delete),
        wish(7, What::Delete),
    ];
    let planned = of_chain(rt.alloc(), &wishes, 65536)?;
    assert!(rt; planned.parts().is_empty());
    assert_eq!(rt; planned.extra(), Some(kept(0, 1, 128, 65408)));
    let planned = plan(rt.alloc(), Kind::Mbr, &hollow(), &[], &LAYOUT, 65536)?;
    assert_eq!(rt;
        planned.parts(),
        [kept(1, 1, 2048, 100), kept(3, 2, 2176, 100)].as_slice()
    );
    assert_eq!(rt; planned.extra(), Some(kept(0, 3, 2304, 63232)));
    Ok(())
}

#[test]
fn expands_a_logical_part(rt: HostRuntime) -> Result<(), Fail> {
    let planned = of_chain(rt.alloc(), &[wish(6, What::Expand)], 65536)?;
    let longer = Placed {
        count: 42880,
        fate: Fate::Resized,
        ..logical(6, 6, 12288)
    };
    assert_eq!(rt;
        planned.parts(),
        [
            outer(63376),
            logical(5, 5, 2048),
            longer,
            logical(7, 7, 55296),
        ]
        .as_slice()
    );
    assert_eq!(rt; planned.extra(), None);
    Ok(())
}

#[test]
fn shrinks_a_logical_part(rt: HostRuntime) -> Result<(), Fail> {
    let planned = of_chain(rt.alloc(), &[wish(5, What::Shrink)], 32000)?;
    let shorter = Placed {
        count: 9344,
        fate: Fate::Resized,
        ..logical(5, 5, 2048)
    };
    assert_eq!(rt;
        planned.parts(),
        [
            outer(29840),
            shorter,
            logical(6, 6, 11520),
            logical(7, 7, 21760),
        ]
        .as_slice()
    );
    Ok(())
}

#[test]
fn keeps_an_entry(rt: HostRuntime) -> Result<(), Fail> {
    for (sectors, extra) in [
        (131072, Some(kept(0, 2, 22528, 108511))),
        (43041, Some(kept(0, 2, 22528, 20480))),
        (43040, None),
        (22561, None),
    ] {
        let planned = of_entry(rt.alloc(), &[], sectors)?;
        assert_eq!(rt; planned.parts(), [kept(1, 1, 2048, 20480)].as_slice());
        assert_eq!(rt; planned.extra(), extra, "{sectors} sectors");
        assert_eq!(rt; planned.limit(), sectors - 33);
    }
    Ok(())
}

#[test]
fn refuses_what_an_entry_can_not_have(rt: HostRuntime) {
    for (sectors, what, fault) in [
        (67, What::Ignore, NoPlan::TooSmall { sectors: 67 }),
        (
            68,
            What::Ignore,
            NoPlan::DoesNotFit {
                end: 22528,
                limit: 35,
            },
        ),
        (22561, What::Expand, NoPlan::NoSurplus { limit: 22528 }),
        (22561, What::Shrink, NoPlan::NoDeficit { end: 22528 }),
        (
            22560,
            What::Shrink,
            NoPlan::WouldCut {
                part: 1,
                content: 20480,
                wanted: 20479,
            },
        ),
    ] {
        let planned = of_entry(rt.alloc(), &[wish(1, what)], sectors);
        assert_eq!(rt; planned.err(), Some(fault));
    }
}

#[test]
fn expands_an_entry(rt: HostRuntime) -> Result<(), Fail> {
    let planned = of_entry(rt.alloc(), &[wish(1, What::Expand)], 65537)?;
    let longer = Placed {
        fate: Fate::Resized,
        ..kept(1, 1, 2048, 63456)
    };
    assert_eq!(rt; planned.parts(), [longer].as_slice());
    Ok(())
}

#[test]
fn aligns_behind_both_kinds_of_table(rt: HostRuntime) -> Result<(), Fail> {
    let layout = Layout {
        align: 32,
        always: true,
        extra: false,
    };
    let planned = plan(rt.alloc(), Kind::Gpt, &entry(), &[], &layout, 65536)?;
    assert_eq!(rt; planned.parts(), [kept(1, 1, 64, 20480)].as_slice());
    let planned = plan(rt.alloc(), Kind::Gpt, &[], &[], &LAYOUT, 65536)?;
    assert_eq!(rt; planned.extra(), Some(kept(0, 1, 128, 65375)));
    Ok(())
}

/// A GPT disk with an entry of each number, each behind the last at a multiple of 2048.
fn full(alloc: Global) -> Result<Vec<Part>, AllocError>
    ensures { IfOk result (λ parts. IsSource Gpt parts.items) }
{
    let mut parts = Vec::new(alloc);
    for place in 0..128u32 {
        parts.push(Part {
            number: place + 1,
            role: Role::Slot,
            start: 2048 * (u64::from(place) + 1),
            count: 1000,
            content: 1000,
        })?;
    }
    Ok(parts)
}

/// A wish for each entry: the 64th takes what the others leave over, and the others keep their lengths.
fn wish_for_each(alloc: Global) -> Result<Vec<Wish>, AllocError> {
    let mut wishes = Vec::new(alloc);
    for part in 1..129u32 {
        let what = if part == 64 {
            What::Expand
        } else {
            What::Resize(Size::Percent(100))
        };
        wishes.push(wish(part, what))?;
    }
    Ok(wishes)
}

// Each of the 64 entries behind the 64th takes 1024 sectors, the last one 1000: the first of them has to start at
// sector 983031 or before it, so at 982912.
#[test]
fn serves_a_full_table(rt: HostRuntime) -> Result<(), Fail> {
    let parts = full(rt.alloc())?;
    let wishes = wish_for_each(rt.alloc())?;
    let planned = plan(rt.alloc(), Kind::Gpt, &parts, &wishes, &LAYOUT, 1048576)?;
    assert_eq!(rt; planned.parts().len(), 128);
    let longer = Placed {
        fate: Fate::Resized,
        ..kept(64, 64, 66560, 916352)
    };
    assert_eq!(rt; planned.parts().get(63).copied(), Some(longer));
    assert_eq!(rt; planned.extra(), None);
    Ok(())
}
