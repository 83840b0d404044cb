use crate::files::FileDisk;
use disk_base::{Blocks, Disk, Failed, Mode};
use std::alloc::Global;
use std::fs::OpenOptions;
use std::os::unix::fs::{MetadataExt, symlink};
use std::test::Fail;
use std::{env, fs, io};

// A folder of its own for a test, empty.
fn folder(rt: &HostRuntime, name: &str) -> io::Result<String> {
    let base = env::temp_dir(rt)?;
    let base = base.as_path();
    let path = format!(in rt.alloc(); "{}/virt_top_{name}", base.display())?;
    let _ = fs::remove_dir_all(rt, path.as_str());
    fs::create_dir_all(rt, path.as_str())?;
    Ok(path)
}

fn within(alloc: Global, folder: &str, name: &str) -> io::Result<String> {
    Ok(format!(in alloc; "{folder}/{name}")?)
}

// Writes sector 1 of four, reads it back, gives up sectors 1 and 2 twice, once over bytes and once over
// zeros, and flushes: what was read, where all went well.
fn change(disk: &mut FileDisk<'_, HostRuntime>, path: &str) -> Option<[u8; 512]> {
    let Ok(()) = disk.attach(path.as_bytes(), Mode::Change) else {
        return None;
    };
    if disk.sectors() != 4 {
        return None;
    }
    let mut out = [0; 512];
    disk.write(1, &[7; 512]).ok()?;
    disk.read(1, &mut out).ok()?;
    disk.discard(1, 2).ok()?;
    disk.discard(1, 2).ok()?;
    disk.flush().ok()?;
    Some(out)
}

fn are_all(bytes: Option<&[u8]>, byte: u8) -> bool {
    bytes.is_some_and(|bytes| bytes.iter().all(|one| *one == byte))
}

#[test]
fn a_file_is_a_disk(rt: HostRuntime) -> Result<(), Fail> {
    let alloc = rt.alloc();
    let folder = folder(&rt, "disk")?;
    let path = within(alloc, folder.as_str(), "a.img")?;
    fs::write(&rt, path.as_str(), [9u8; 2048].as_slice())?;
    {
        let mut disk = FileDisk::new(&rt);
        assert_eq!(rt; change(&mut disk, path.as_str()), Some([7; 512]));
    }
    let left = fs::read(&rt, path.as_str())?;
    assert_eq!(rt; left.len(), 2048);
    assert!(rt; are_all(left.get(0..512), 9));
    assert!(rt; are_all(left.get(512..1536), 0));
    assert!(rt; are_all(left.get(1536..2048), 9));
    fs::write(&rt, path.as_str(), [1u8; 1000].as_slice())?;
    {
        let mut disk = FileDisk::new(&rt);
        assert_eq!(rt; disk.attach(path.as_bytes(), Mode::Read), Ok(()));
        assert_eq!(rt; disk.sectors(), 1);
    }
    {
        let mut disk = FileDisk::new(&rt);
        assert_eq!(rt; disk.attach(path.as_bytes(), Mode::Create(1)), Ok(()));
        assert_eq!(rt; disk.sectors(), 1);
    }
    let blank = fs::read(&rt, path.as_str())?;
    assert_eq!(rt; blank.as_slice(), [0u8; 512].as_slice());
    let missing = within(alloc, folder.as_str(), "missing")?;
    let mut disk = FileDisk::new(&rt);
    assert_eq!(rt; disk.attach(missing.as_bytes(), Mode::Read), Err(Failed));
    assert_eq!(rt; disk.attach(folder.as_bytes(), Mode::Read), Err(Failed));
    fs::remove_dir_all(&rt, folder.as_str())?;
    Ok(())
}

// A file of nothing but a hole takes no more room when it is given up.
#[test]
fn a_hole_stays_a_hole(rt: HostRuntime) -> Result<(), Fail> {
    let alloc = rt.alloc();
    let folder = folder(&rt, "hole")?;
    let path = within(alloc, folder.as_str(), "a.img")?;
    let mut disk = FileDisk::new(&rt);
    assert_eq!(rt; disk.attach(path.as_bytes(), Mode::Create(2048)), Ok(()));
    if disk.can_discard() && disk.sectors() == 2048 {
        assert_eq!(rt; disk.discard(1, 2000), Ok(()));
    }
    assert_eq!(rt; disk.flush(), Ok(()));
    let found = fs::metadata(&rt, path.as_str())?;
    assert_eq!(rt; (found.len(), found.blocks()), (1048576, 0));
    fs::remove_dir_all(&rt, folder.as_str())?;
    Ok(())
}

#[test]
fn two_names_of_one_file_are_refused(rt: HostRuntime) -> Result<(), Fail> {
    let alloc = rt.alloc();
    let folder = folder(&rt, "names")?;
    let path = within(alloc, folder.as_str(), "a.img")?;
    let dotted = within(alloc, folder.as_str(), "./a.img")?;
    let hard = within(alloc, folder.as_str(), "hard.img")?;
    let soft = within(alloc, folder.as_str(), "soft.img")?;
    fs::write(&rt, path.as_str(), [9u8; 2048].as_slice())?;
    fs::hard_link(&rt, path.as_str(), hard.as_str())?;
    symlink(&rt, path.as_str(), soft.as_str())?;
    {
        let mut source = FileDisk::new(&rt);
        assert_eq!(rt; source.attach(path.as_bytes(), Mode::Read), Ok(()));
        for name in [dotted.as_str(), hard.as_str(), soft.as_str()] {
            let mut target = FileDisk::new(&rt);
            assert_eq!(rt;
                target.attach(name.as_bytes(), Mode::Create(1)),
                Err(Failed)
            );
            assert_eq!(rt; target.attach(name.as_bytes(), Mode::Change), Err(Failed));
        }
    }
    let left = fs::read(&rt, path.as_str())?;
    assert_eq!(rt; left.as_slice(), [9u8; 2048].as_slice());
    fs::remove_dir_all(&rt, folder.as_str())?;
    Ok(())
}

// A file that may not be written isn't attached to be changed; root may write it all the same.
#[test]
fn a_file_that_may_not_be_written_is_not_changed(rt: HostRuntime) -> Result<(), Fail> {
    let alloc = rt.alloc();
    let folder = folder(&rt, "readonly")?;
    let path = within(alloc, folder.as_str(), "a.img")?;
    fs::write(&rt, path.as_str(), [9u8; 512].as_slice())?;
    let mut permissions = fs::metadata(&rt, path.as_str())?.permissions();
    permissions.set_readonly(true);
    fs::set_permissions(&rt, path.as_str(), permissions)?;
    let mut plain = OpenOptions::new();
    plain.write(true);
    let may_write = plain.open(&rt, path.as_str()).is_ok();
    let mut disk = FileDisk::new(&rt);
    assert_eq!(rt;
        disk.attach(path.as_bytes(), Mode::Change).is_ok(),
        may_write
    );
    let left = fs::read(&rt, path.as_str())?;
    assert_eq!(rt; left.as_slice(), [9u8; 512].as_slice());
    fs::remove_dir_all(&rt, folder.as_str())?;
    Ok(())
}
