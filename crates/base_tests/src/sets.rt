use run_set::{Bits, RunFault, Runs, all_zero};
use std::alloc::Global;
use std::process::Abort;

const END: u64 = 1 << 63;

// The set of the runs, each a first number and a count.
fn set_of(rt: &impl Abort, alloc: Global, runs: &[(u64, u64)]) -> Runs {
    let mut set = Runs::new(alloc);
    for (start, n) in runs.iter().copied() {
        add(rt, &mut set, start, n, Ok(()));
    }
    set
}

fn add(rt: &impl Abort, set: &mut Runs, start: u64, n: u64, want: Result<(), RunFault>) {
    assert!(rt; n >= 1 && n <= END && start <= END - n);
    assert_eq!(rt; set.add(start, n), want, "at {start}+{n}");
}

fn has_runs(rt: &impl Abort, set: &Runs, want: &[(u64, u64)]) {
    let count = set.count();
    assert_eq!(rt; count, want.len());
    for (i, run) in want.iter().enumerate() {
        assert!(rt; i < count);
        assert_eq!(rt; set.get(i), *run, "at {i}");
    }
}

// What is added, what is taken away, what is left, and how many numbers that is.
#[test]
fn joins_and_cuts_runs(rt: HostRuntime) {
    let table: [(&[(u64, u64)], &[(u64, u64)], &[(u64, u64)], u64); 11] = [
        (&[], &[(0, END)], &[], 0),
        (&[(10, 5), (15, 5)], &[], &[(10, 10)], 10),
        (&[(10, 5), (15, 5)], &[(12, 2)], &[(10, 2), (14, 6)], 8),
        (&[(0, 3), (5, 2), (3, 1)], &[], &[(0, 4), (5, 2)], 6),
        (&[(0, 3), (5, 2), (4, 1)], &[], &[(0, 3), (4, 3)], 6),
        (&[(5, 2), (0, 3), (3, 2)], &[], &[(0, 7)], 7),
        (
            &[(8, 2), (0, 2), (4, 2)],
            &[(2, 2), (6, 2), (10, 5)],
            &[(0, 2), (4, 2), (8, 2)],
            6,
        ),
        (
            &[(END - 1, 1), (END - 3, 2)],
            &[(END - 2, 1)],
            &[(END - 3, 1), (END - 1, 1)],
            2,
        ),
        (
            &[(0, 10), (20, 10)],
            &[(0, 2), (4, 1), (8, 14), (29, 1)],
            &[(2, 2), (5, 3), (22, 7)],
            12,
        ),
        (
            &[(0, END)],
            &[(0, 1), (END - 1, 1)],
            &[(1, END - 2)],
            END - 2,
        ),
        (&[(3, 4), (9, 1)], &[(0, 20)], &[], 0),
    ];
    for (added, removed, left, total) in table {
        let set = set_of(&rt, rt.alloc(), added);
        let rest = set
            .minus(rt.alloc(), &set_of(&rt, rt.alloc(), removed))
            .expect(&rt, "memory");
        has_runs(&rt, &rest, left);
        assert_eq!(rt; rest.total(), total);
    }
}

#[test]
fn refuses_what_is_held(rt: HostRuntime) {
    let mut set = set_of(&rt, rt.alloc(), &[(10, 5), (15, 5), (30, 5)]);
    for (start, n, least) in [
        (19, 1, 19),
        (5, 6, 10),
        (0, END, 10),
        (12, 3, 12),
        (20, 11, 30),
        (34, 9, 34),
    ] {
        add(
            &rt,
            &mut set,
            start,
            n,
            Err(RunFault::Overlap { start: least }),
        );
        has_runs(&rt, &set, &[(10, 10), (30, 5)]);
    }
    for (number, held) in [
        (9, false),
        (10, true),
        (19, true),
        (20, false),
        (34, true),
        (35, false),
        (u64::MAX, false),
    ] {
        assert_eq!(rt; set.holds(number), held, "at {number}");
    }
}

#[test]
fn tells_faults_and_zeros(rt: HostRuntime) {
    let texts = [
        (RunFault::Overlap { start: 19 }, "Overlap start=19"),
        (RunFault::Memory, "Memory"),
    ];
    for (fault, text) in texts {
        assert_eq!(rt;
            format!(in rt.alloc(); "{fault}")
                .expect(&rt, "memory")
                .as_str(),
            text
        );
    }
    for (bytes, zero) in [
        (&[][..], true),
        (&[0, 0][..], true),
        (&[0, 1][..], false),
        (&[1, 0][..], false),
    ] {
        assert_eq!(rt; all_zero(bytes), zero);
    }
}

// A number is there from the first time on that it is taken.
#[test]
fn takes_a_number_once(rt: HostRuntime) {
    let mut set = Bits::new(rt.alloc(), 10).expect(&rt, "memory");
    let answers = [set.take(9), set.take(9), set.take(3), set.take(9)];
    assert_eq!(rt; answers, [true, false, true, false]);
    let held = [set.has(0), set.has(2), set.has(3), set.has(8), set.has(9)];
    assert_eq!(rt; held, [false, false, true, false, true]);
}

// One byte that isn't zero is seen at each place, whatever the length.
#[test]
fn sees_a_byte_at_each_place(rt: HostRuntime) {
    let mut bytes = [0; 200];
    for len in 0..200 {
        assert!(rt; all_zero(&bytes[..len]), "of {len}");
        bytes[len] = 128;
        assert!(rt; !all_zero(&bytes[..len + 1]), "of {len} and one");
        assert!(rt; all_zero(&bytes[..len]), "before {len}");
        bytes[len] = 0;
    }
}
