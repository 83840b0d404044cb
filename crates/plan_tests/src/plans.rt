//! Plans of small tables.
ghost use Rattle.std.specs.Prelude.{◌≡◌};
ghost use Rattle.layout_plan.specs.declared.part.Role.TheVariants.{Slot};

use layout_plan::{
    Fate, Kind, Layout, NoPlan, Part, Placed, Planned, Role, Size, What, Wish, one_layout,
    one_plan, plan,
};
use std::alloc::{AllocError, Global};
use std::test::Fail;

/// A layout by 64 KiB that makes a partition of what is left over.
const LAYOUT: Layout = Layout {
    align: 128,
    always: false,
    extra: true,
};

/// A slot in use.
fn slot(number: u32, start: u64, count: u64) -> Part
    ensures { result ≡ record { number = number; role = Slot; start = start; count = count; content = count } }
{
    Part {
        number,
        role: Role::Slot,
        start,
        count,
        content: count,
    }
}

/// What is made of a slot, or beside the slots.
fn kept(from: u32, number: u32, start: u64, count: u64) -> Placed {
    Placed {
        from,
        number,
        ebr: 0,
        start,
        count,
        fate: Fate::Kept,
    }
}

#[test]
fn keeps_a_lone_slot(rt: HostRuntime) -> Result<(), Fail> {
    one_layout();
    one_plan();
    let parts = [slot(1, 2048, 20480)];
    for (sectors, extra) in [
        (65536, Some(kept(0, 2, 22528, 43008))),
        (43008, Some(kept(0, 2, 22528, 20480))),
        (43007, None),
        (22528, None),
    ] {
        let planned = plan(rt.alloc(), Kind::Mbr, &parts, &[], &LAYOUT, sectors)?;
        assert_eq!(rt;
            planned.parts(),
            [kept(1, 1, 2048, 20480)].as_slice(),
            "{sectors} sectors"
        );
        assert_eq!(rt; planned.extra(), extra, "{sectors} sectors");
        assert_eq!(rt; planned.limit(), sectors);
    }
    Ok(())
}

#[test]
fn refuses_a_small_or_large_target(rt: HostRuntime) {
    let parts = [slot(1, 2048, 20480)];
    for (sectors, fault) in [
        (
            22527,
            NoPlan::DoesNotFit {
                end: 22528,
                limit: 22527,
            },
        ),
        (1, NoPlan::TooSmall { sectors: 1 }),
        (
            2147483649,
            NoPlan::TooLarge {
                sectors: 2147483649,
            },
        ),
    ] {
        let planned = plan(rt.alloc(), Kind::Mbr, &parts, &[], &LAYOUT, sectors);
        assert_eq!(rt; planned.err(), Some(fault));
    }
}

#[test]
fn lays_out_by_start(rt: HostRuntime) -> Result<(), Fail> {
    let parts = [slot(1, 8192, 100), slot(2, 2048, 100)];
    let planned = plan(rt.alloc(), Kind::Mbr, &parts, &[], &LAYOUT, 65536)?;
    assert_eq!(rt;
        planned.parts(),
        [kept(1, 1, 2176, 100), kept(2, 2, 2048, 100)].as_slice()
    );
    assert_eq!(rt; planned.extra(), Some(kept(0, 3, 2304, 63232)));
    Ok(())
}

#[test]
fn aligns_the_first_too(rt: HostRuntime) -> Result<(), Fail> {
    let parts = [slot(1, 8192, 100), slot(2, 2048, 100)];
    let always = Layout {
        always: true,
        ..LAYOUT
    };
    let planned = plan(rt.alloc(), Kind::Mbr, &parts, &[], &always, 65536)?;
    assert_eq!(rt;
        planned.parts(),
        [kept(1, 1, 256, 100), kept(2, 2, 128, 100)].as_slice()
    );
    Ok(())
}

#[test]
fn fills_an_empty_table(rt: HostRuntime) -> Result<(), Fail> {
    let planned = plan(rt.alloc(), Kind::Mbr, &[], &[], &LAYOUT, 65536)?;
    assert!(rt; planned.parts().is_empty());
    assert_eq!(rt; planned.extra(), Some(kept(0, 1, 128, 65408)));
    Ok(())
}

#[test]
fn makes_no_fifth_slot(rt: HostRuntime) -> Result<(), Fail> {
    let parts = [
        slot(1, 128, 128),
        slot(2, 256, 128),
        slot(3, 384, 128),
        slot(4, 512, 128),
    ];
    let planned = plan(rt.alloc(), Kind::Mbr, &parts, &[], &LAYOUT, 65536)?;
    assert_eq!(rt; planned.parts().len(), 4);
    assert_eq!(rt; planned.extra(), None);
    Ok(())
}

/// What is made of a lone slot that something is wished of, or why nothing is.
fn wished(
    alloc: Global,
    what: What,
    sectors: u64,
) -> Result<(Option<Placed>, Option<NoPlan>), AllocError> {
    let parts = [slot(1, 2048, 20480)];
    let wish = Wish {
        place: 2,
        part: 1,
        what,
    };
    match plan(alloc, Kind::Mbr, &parts, &[wish], &LAYOUT, sectors) {
        Ok(planned) => Ok((planned.parts().first().copied(), None)),
        Err(fault) => Ok((None, Some(fault))),
    }
}

/// A lone slot of another length.
fn resized(count: u64) -> (Option<Placed>, Option<NoPlan>) {
    let placed = Placed {
        fate: Fate::Resized,
        ..kept(1, 1, 2048, count)
    };
    (Some(placed), None)
}

#[test]
fn gives_the_length_that_is_asked_for(rt: HostRuntime) -> Result<(), Fail> {
    let alloc = rt.alloc();
    let more = wished(alloc, What::Resize(Size::MorePercent(20)), 65536)?;
    assert_eq!(rt; more, resized(24576));
    let share = wished(alloc, What::Resize(Size::Percent(150)), 65536)?;
    assert_eq!(rt; share, resized(30720));
    let bytes = wished(alloc, What::Resize(Size::Bytes(10485761)), 65536)?;
    assert_eq!(rt; bytes, resized(20481));
    let one = wished(alloc, What::Resize(Size::More(1)), 65536)?;
    assert_eq!(rt; one, resized(20481));
    let cut = wished(alloc, What::Force(Size::Bytes(10485248)), 22527)?;
    assert_eq!(rt; cut, resized(20479));
    let less = wished(alloc, What::Force(Size::Less(513)), 65536)?;
    assert_eq!(rt; less, resized(20479));
    let least = wished(alloc, What::Force(Size::LessPercent(99)), 65536)?;
    assert_eq!(rt; least, resized(205));
    Ok(())
}

#[test]
fn refuses_lengths_that_can_not_be(rt: HostRuntime) -> Result<(), Fail> {
    let alloc = rt.alloc();
    let cut = wished(alloc, What::Resize(Size::Bytes(10485248)), 65536)?;
    let would_cut = NoPlan::WouldCut {
        part: 1,
        content: 20480,
        wanted: 20479,
    };
    assert_eq!(rt; cut, (None, Some(would_cut)));
    let none = wished(alloc, What::Force(Size::LessPercent(100)), 65536)?;
    assert_eq!(rt; none, (None, Some(NoPlan::Empty { part: 1 })));
    let long = wished(alloc, What::Resize(Size::MorePercent(20)), 26623)?;
    let too_long = NoPlan::DoesNotFit {
        end: 26624,
        limit: 26623,
    };
    assert_eq!(rt; long, (None, Some(too_long)));
    Ok(())
}

#[test]
fn takes_what_is_left_over(rt: HostRuntime) -> Result<(), Fail> {
    let alloc = rt.alloc();
    let taken = wished(alloc, What::Expand, 65537)?;
    assert_eq!(rt; taken, resized(63489));
    let none = wished(alloc, What::Expand, 22528)?;
    assert_eq!(rt; none, (None, Some(NoPlan::NoSurplus { limit: 22528 })));
    let too_long = NoPlan::DoesNotFit {
        end: 22528,
        limit: 22527,
    };
    let long = wished(alloc, What::Expand, 22527)?;
    assert_eq!(rt; long, (None, Some(too_long)));
    Ok(())
}

#[test]
fn gives_up_what_is_lacking(rt: HostRuntime) -> Result<(), Fail> {
    let alloc = rt.alloc();
    let none = wished(alloc, What::Shrink, 22528)?;
    assert_eq!(rt; none, (None, Some(NoPlan::NoDeficit { end: 22528 })));
    let would_cut = NoPlan::WouldCut {
        part: 1,
        content: 20480,
        wanted: 20479,
    };
    let cut = wished(alloc, What::Shrink, 22527)?;
    assert_eq!(rt; cut, (None, Some(would_cut)));
    let too_long = NoPlan::DoesNotFit {
        end: 2049,
        limit: 2048,
    };
    let long = wished(alloc, What::Shrink, 2048)?;
    assert_eq!(rt; long, (None, Some(too_long)));
    Ok(())
}

/// The plan of two slots where something is wished of the first, whose content needs ten sectors.
fn two_slots(alloc: Global, what: What, sectors: u64) -> Result<Planned, NoPlan> {
    let first = Part {
        number: 1,
        role: Role::Slot,
        start: 2048,
        count: 1000,
        content: 10,
    };
    let wish = Wish {
        place: 2,
        part: 1,
        what,
    };
    let parts = [first, slot(2, 4096, 100)];
    plan(alloc, Kind::Mbr, &parts, &[wish], &LAYOUT, sectors)
}

// The parts behind the one that takes or gives up stand at multiples of the alignment.
#[test]
fn moves_the_parts_behind(rt: HostRuntime) -> Result<(), Fail> {
    let planned = two_slots(rt.alloc(), What::Expand, 5000)?;
    let longer = Placed {
        fate: Fate::Resized,
        ..kept(1, 1, 2048, 2816)
    };
    assert_eq!(rt; planned.parts(), [longer, kept(2, 2, 4864, 100)].as_slice());
    let planned = two_slots(rt.alloc(), What::Shrink, 2500)?;
    let shorter = Placed {
        fate: Fate::Resized,
        ..kept(1, 1, 2048, 256)
    };
    assert_eq!(rt;
        planned.parts(),
        [shorter, kept(2, 2, 2304, 100)].as_slice()
    );
    Ok(())
}

#[test]
fn leaves_out_what_is_deleted(rt: HostRuntime) -> Result<(), Fail> {
    let parts = [slot(1, 2048, 100), slot(2, 4096, 100), slot(4, 8192, 100)];
    let wishes = [
        Wish {
            place: 2,
            part: 1,
            what: What::Delete,
        },
        Wish {
            place: 4,
            part: 4,
            what: What::Ignore,
        },
    ];
    let planned = plan(rt.alloc(), Kind::Mbr, &parts, &wishes, &LAYOUT, 65536)?;
    let ignored = Placed {
        fate: Fate::Ignored,
        ..kept(4, 3, 2176, 100)
    };
    assert_eq!(rt;
        planned.parts(),
        [kept(2, 1, 2048, 100), ignored].as_slice()
    );
    assert_eq!(rt; planned.extra(), Some(kept(0, 2, 2304, 63232)));
    Ok(())
}

#[test]
fn refuses_the_first_wish_that_can_not_be(rt: HostRuntime) -> Result<(), Fail> {
    let parts = [slot(1, 2048, 20480)];
    let first = Wish {
        place: 2,
        part: 1,
        what: What::Resize(Size::MorePercent(20)),
    };
    let second = Wish {
        place: 4,
        part: 1,
        what: What::Resize(Size::Bytes(1073741824)),
    };
    let missing = Wish {
        place: 6,
        part: 9,
        what: What::Delete,
    };
    let twice = plan(
        rt.alloc(),
        Kind::Mbr,
        &parts,
        &[first, second, missing],
        &LAYOUT,
        65536,
    );
    assert_eq!(rt; twice.err(), Some(NoPlan::NamedTwice { place: 4 }));
    let unknown = plan(
        rt.alloc(),
        Kind::Mbr,
        &parts,
        &[missing, first, second],
        &LAYOUT,
        65536,
    );
    assert_eq!(rt; unknown.err(), Some(NoPlan::NoSuchPart { place: 6 }));
    Ok(())
}
