//! Lists of words, each with the job or the fault that the rules of docs/COMMANDS.md give it.
use disk_base::Name;
use std::alloc::{AllocError, Global};
use std::fmt::Write;
use std::test::Fail;
use words::{Job, ResizeJob, SparsifyJob, Unknown, VolumeName, VolumeWish, read_words};

/// The words, divided by single blanks, and what they give. A job's text has its operands, its wishes as
/// `place:part what`, and each setting that differs from the default.
const RESIZE: [(&str, &str); 88] = [
    ("a b", "a b"),
    ("-- a b", "a b"),
    ("a -- b", "a b"),
    ("-- -n --expand", "-n --expand"),
    ("-- -- a", "-- a"),
    ("- b", "- b"),
    (" b", " b"),
    ("é ü", "é ü"),
    ("a  b", "Extra place=3"),
    ("a", "Missing"),
    ("--", "Missing"),
    ("a a", "Same"),
    ("a b c", "Extra place=3"),
    ("a a c", "Extra place=3"),
    ("a a --frob", "Unknown place=3"),
    ("a a -- --frob", "Extra place=4"),
    ("--frob a b", "Unknown place=1"),
    ("--frob=x a b", "Unknown place=1"),
    ("--=x a b", "Unknown place=1"),
    ("-nq a b", "Unknown place=1"),
    ("-é a b", "Unknown place=1"),
    ("--in-place a", "Unknown place=1"),
    ("--expand sda1 a b", "a b 2:1 Expand"),
    ("--expand=/dev/vda12 a b", "a b 1:12 Expand"),
    ("--expand hda9999 a b", "a b 2:9999 Expand"),
    ("--expand sda01 a b", "Value place=2"),
    ("--expand sda12345 a b", "Value place=2"),
    ("--expand sdb1 a b", "Value place=2"),
    ("--expand sda a b", "Value place=2"),
    ("--expand= a b", "Value place=1"),
    ("a b --expand", "Value place=3"),
    ("a b --expand --quiet", "Value place=4"),
    ("a b --expand -- c", "Value place=4"),
    ("--expand sda1 --expand sda1 a b", "Twice place=3"),
    ("--expand sda1 a b --expand", "Twice place=5"),
    ("--expand sda1 --shrink sda2 a b", "Excluded place=3"),
    ("--expand sda1 --shrink=x a b", "Excluded place=3"),
    ("--shrink sda1 a b", "a b 2:1 Shrink"),
    ("--shrink sda1 --expand x a b", "Excluded place=3"),
    ("--shrink sda1 --shrink sda1 a b", "Twice place=3"),
    ("--shrink x a b", "Value place=2"),
    (
        "--resize sda1=+20% --resize sda1=1G a b",
        "a b 2:1 Resize(MorePercent(20)) 4:1 Resize(Bytes(1073741824))",
    ),
    ("--resize sda1=-20% a b", "a b 2:1 Resize(LessPercent(20))"),
    ("--resize sda1=150% a b", "a b 2:1 Resize(Percent(150))"),
    (
        "--resize sda1=38006784b a b",
        "a b 2:1 Resize(Bytes(38006784))",
    ),
    ("--resize=sda1=+5K a b", "a b 1:1 Resize(More(5120))"),
    ("--resize sda1=-5M a b", "a b 2:1 Resize(Less(5242880))"),
    (
        "--resize sda1=999999% a b",
        "a b 2:1 Resize(Percent(999999))",
    ),
    ("--resize sda1=1000000% a b", "Size place=2"),
    (
        "--resize sda1=8388607T a b",
        "a b 2:1 Resize(Bytes(9223370937343148032))",
    ),
    ("--resize sda1=8388608T a b", "Size place=2"),
    (
        "--resize sda1=000000000000001b a b",
        "a b 2:1 Resize(Bytes(1))",
    ),
    ("--resize sda1=0000000000000001b a b", "Size place=2"),
    ("--resize sda1=5x a b", "Size place=2"),
    ("--resize=sda1=5x a b", "Size place=1"),
    ("--resize sda1=5 a b", "Size place=2"),
    ("--resize sda1=% a b", "Size place=2"),
    ("--resize sda1=++5K a b", "Size place=2"),
    ("--resize sda1= a b", "Size place=2"),
    ("--resize sda1 a b", "Value place=2"),
    ("--resize x=5x a b", "Value place=2"),
    ("--resize-force sda1=0b a b", "a b 2:1 Force(Bytes(0))"),
    ("--resize-force sda1=5k a b", "Size place=2"),
    ("a b --resize-force", "Value place=3"),
    (
        "--delete sda9 --delete sda9 a b",
        "a b 2:9 Delete 4:9 Delete",
    ),
    ("--delete x a b", "Value place=2"),
    ("--ignore sda2 a b", "a b 2:2 Ignore"),
    ("--ignore vg/root a b", "Value place=2"),
    (
        "--lv-expand /dev/vg/root --LV-expand=a.+-_/B9 a b",
        "a b 2:vg/root 3:a.+-_/B9",
    ),
    ("--lv-expand vg a b", "Value place=2"),
    ("--LV-expand vg/a/b a b", "Value place=2"),
    ("--lv-expand /root a b", "Value place=2"),
    ("--alignment 1048576 a b", "a b align=1048576"),
    ("--alignment 1048577 a b", "Value place=2"),
    ("--alignment 0 a b", "Value place=2"),
    ("--alignment=0 a b", "Value place=1"),
    ("--alignment 1 --alignment 1 a b", "Twice place=3"),
    ("--align-first always a b", "a b always"),
    ("--align-first auto a b", "a b"),
    (
        "--align-first never --align-first never a b",
        "Twice place=3",
    ),
    ("--align-first x a b", "Value place=2"),
    ("--unknown-filesystems ignore a b", "a b unknown=Ignore"),
    ("--unknown-filesystems error a b", "a b unknown=Error"),
    (
        "--unknown-filesystems warn --unknown-filesystems warn a b",
        "Twice place=3",
    ),
    ("--unknown-filesystems x a b", "Value place=2"),
    ("--format raw --output-format=raw a b", "a b"),
    ("--format raw --format raw a b", "Twice place=3"),
    (
        "--no-extra-partition --no-copy-boot-loader --no-expand-content --no-sparse -n -q a b",
        "a b no-extra no-boot no-grow no-sparse dry quiet",
    ),
];

/// Further lists for both tools, the tool's word included.
const OTHERS: [(&str, &str); 44] = [
    ("", "Tool"),
    ("virt-resize2 a b", "Tool"),
    ("--expand virt-resize a b", "Tool"),
    ("virt-resize", "Missing"),
    ("virt-resize --format qcow2 a b", "Value place=2"),
    ("virt-resize --output-format RAW a b", "Value place=2"),
    (
        "virt-resize --output-format raw --output-format raw a b",
        "Twice place=3",
    ),
    (
        "virt-resize --dryrun --dry-run -n --quiet -q a b",
        "a b dry quiet",
    ),
    ("virt-resize --no-sparse=yes a b", "Value place=1"),
    ("virt-resize -n= a b", "Value place=1"),
    ("virt-resize --no-extra-partition= a b", "Value place=1"),
    ("virt-sparsify a b", "a b"),
    ("virt-sparsify a", "Missing"),
    ("virt-sparsify a a", "Same"),
    ("virt-sparsify a b c", "Extra place=3"),
    ("virt-sparsify --expand sda1 a b", "Unknown place=1"),
    (
        "virt-sparsify --ignore vg --zero vg/root --zero /dev/sda1 a b",
        "a b ignore 2:vg zero 4:vg/root zero 6:1",
    ),
    (
        "virt-sparsify --ignore sda0 --ignore=sda12345 a b",
        "a b ignore 2:sda0 ignore 3:sda12345",
    ),
    ("virt-sparsify --ignore vg --zero vg a b", "Twice place=4"),
    (
        "virt-sparsify --zero=sda1 --ignore=/dev/vda1 a b",
        "Twice place=2",
    ),
    (
        "virt-sparsify --ignore /dev/vg/a --ignore vg/a a b",
        "Twice place=4",
    ),
    (
        "virt-sparsify --ignore vg --ignore vg/vg a b",
        "a b ignore 2:vg ignore 4:vg/vg",
    ),
    ("virt-sparsify --ignore a//b a b", "Value place=2"),
    ("virt-sparsify --zero /dev/vg a b", "Value place=2"),
    ("virt-sparsify --zero= a b", "Value place=1"),
    ("virt-sparsify a b --zero", "Value place=3"),
    ("virt-sparsify --in-place a", "a in place"),
    (
        "virt-sparsify --in-place --in-place --ignore vg -q a",
        "a in place ignore 4:vg quiet",
    ),
    ("virt-sparsify --in-place", "Missing"),
    ("virt-sparsify --in-place a b", "Extra place=3"),
    ("virt-sparsify a --in-place b", "Extra place=3"),
    ("virt-sparsify a b --in-place", "Excluded place=3"),
    ("virt-sparsify --zero vg --in-place a", "Excluded place=3"),
    (
        "virt-sparsify --convert raw --in-place=x a",
        "Excluded place=3",
    ),
    ("virt-sparsify --in-place=x a", "Value place=1"),
    (
        "virt-sparsify --in-place --zero x/y/z a",
        "Excluded place=2",
    ),
    (
        "virt-sparsify --in-place --convert raw a",
        "Excluded place=2",
    ),
    (
        "virt-sparsify --convert raw --convert raw a b",
        "Twice place=3",
    ),
    ("virt-sparsify --convert qcow2 a b", "Value place=2"),
    ("virt-sparsify --convert=raw --format raw a b", "a b"),
    ("virt-sparsify --format raw --format=x a b", "Twice place=3"),
    ("virt-sparsify --format x a b", "Value place=2"),
    ("virt-sparsify --quiet=1 a b", "Value place=1"),
    ("virt-sparsify --quiet -q a b", "a b quiet"),
];

fn text(name: &Name) -> &str {
    std::str::from_utf8(name.bytes()).unwrap_or("?")
}

fn add_flag(line: &mut String, is_set: bool, flag: &str) -> Result<(), AllocError> {
    if is_set {
        line.push_str(" ")?;
        line.push_str(flag)?;
    }
    Ok(())
}

fn add_wishes(line: &mut String, job: &ResizeJob) -> Result<(), Fail> {
    for wish in job.wishes.items() {
        let place = wish.place;
        let part = wish.part;
        let what = wish.what;
        write!(line, " {place}:{part} {what:?}")?;
    }
    for wish in job.lvs.items() {
        let place = wish.place;
        let group = text(&wish.group);
        let lv = text(&wish.lv);
        write!(line, " {place}:{group}/{lv}")?;
    }
    Ok(())
}

fn add_settings(line: &mut String, job: &ResizeJob) -> Result<(), Fail> {
    let align = job.layout.align;
    if align != 128 {
        write!(line, " align={align}")?;
    }
    add_flag(line, job.layout.always, "always")?;
    add_flag(line, !job.layout.extra, "no-extra")?;
    add_flag(line, !job.boot, "no-boot")?;
    add_flag(line, !job.grow, "no-grow")?;
    let unknown = job.unknown;
    if unknown != Unknown::Warn {
        write!(line, " unknown={unknown:?}")?;
    }
    add_flag(line, !job.sparse, "no-sparse")?;
    add_flag(line, job.dry, "dry")?;
    add_flag(line, job.quiet, "quiet")?;
    Ok(())
}

fn resize_line(alloc: Global, job: &ResizeJob) -> Result<String, Fail> {
    let mut line = String::from_str(alloc, text(&job.source))?;
    add_flag(&mut line, true, text(&job.target))?;
    add_wishes(&mut line, job)?;
    add_settings(&mut line, job)?;
    Ok(line)
}

fn add_volumes(line: &mut String, option: &str, wishes: &[VolumeWish]) -> Result<(), Fail> {
    for wish in wishes {
        let place = wish.place;
        match &wish.volume {
            VolumeName::Part(part) => write!(line, " {option} {place}:{part}")?,
            VolumeName::Lv(group, lv) => {
                let group = text(group);
                let lv = text(lv);
                write!(line, " {option} {place}:{group}/{lv}")?;
            }
            VolumeName::Group(group) => {
                let group = text(group);
                write!(line, " {option} {place}:{group}")?;
            }
        }
    }
    Ok(())
}

fn sparsify_line(alloc: Global, job: &SparsifyJob) -> Result<String, Fail> {
    let mut line = String::from_str(alloc, text(&job.source))?;
    match &job.target {
        Some(target) => add_flag(&mut line, true, text(target))?,
        None => add_flag(&mut line, true, "in place")?,
    }
    add_volumes(&mut line, "ignore", job.ignore.items())?;
    add_volumes(&mut line, "zero", job.zero.items())?;
    add_flag(&mut line, job.quiet, "quiet")?;
    Ok(line)
}

fn answer(alloc: Global, words: &[String]) -> Result<String, Fail> {
    match read_words(alloc, words) {
        Err(fault) => Ok(format!(in alloc; "{fault}")?),
        Ok(Job::Resize(job)) => resize_line(alloc, &job),
        Ok(Job::Sparsify(job)) => sparsify_line(alloc, &job),
    }
}

fn add_words(alloc: Global, words: &mut Vec<String>, line: &str) -> Result<(), Fail> {
    for word in line.split(' ') {
        words.push(String::from_str(alloc, word)?)?;
    }
    Ok(())
}

#[test]
fn answers_each_list_of_words(rt: HostRuntime) -> Result<(), Fail> {
    let alloc = rt.alloc();
    let none = Vec::new(alloc);
    assert_eq!(rt; answer(alloc, none.as_slice())?.as_str(), "Tool");
    for (line, expected) in &RESIZE {
        let mut words = Vec::new(alloc);
        words.push(String::from_str(alloc, "virt-resize")?)?;
        add_words(alloc, &mut words, line)?;
        let given = answer(alloc, words.as_slice())?;
        assert_eq!(rt; given.as_str(), *expected, "virt-resize {line}");
    }
    for (line, expected) in &OTHERS {
        let mut words = Vec::new(alloc);
        add_words(alloc, &mut words, line)?;
        let given = answer(alloc, words.as_slice())?;
        assert_eq!(rt; given.as_str(), *expected, "{line}");
    }
    Ok(())
}
