// Files that are made in memory and for real, through their trait.
ghost use Rattle.std.specs.Prelude.{OnOk, IsErr};
ghost use Rattle.psr_base.specs.InMemory.{IsMaking};

use crate::fakes::Disk;
use crate::lines::{call_of, words_of};
use psr_base::{CalmFiles, Failed, Files, MemFiles, RealFiles, append_all, append_to_memory};
use std::alloc::Global;
use std::fs;
use std::test::Fail;

// Makes a file of two pieces.
fn make<F: Files>(files: &mut F, name: &str, first: &str, second: &str) -> Result<(), Failed>
    requires { ¬ F.is_open files.old }
    ensures { OnOk result (¬ F.is_open files.new) }
{
    files.create(name)?;
    append_all(files, first.as_bytes())?;
    append_all(files, second.as_bytes())?;
    files.finish()
}

// Fails if the call succeeded, and succeeds if the call failed.
fn refused(answer: Result<(), Failed>) -> Result<(), Failed>
    ensures { OnOk result (IsErr answer) }
{
    match answer {
        Ok(()) => Err(Failed),
        Err(Failed) => Ok(()),
    }
}

// Whether these files and no others were made, in this order: `b abc a de`.
fn are_files(files: &MemFiles, wanted: &str) -> bool {
    if wanted.is_empty() {
        return files.count() == 0;
    }
    let mut rest = wanted.split(',');
    for i in 0..files.count() {
        let Some(file) = rest.next() else {
            return false;
        };
        let file = file.trim();
        let (name, body) = file.split_once(' ').unwrap_or((file, ""));
        if files.name(i) != name || files.body(i) != body.as_bytes() {
            return false;
        }
    }
    rest.next().is_none()
}

// Makes three files, of eight bytes in all, and tries calls between them that must fail.
fn make_three(files: &mut MemFiles) -> Result<(), Failed>
    requires { ¬ IsMaking files.old }
{
    make(files, "b", "ab", "c")?;
    make(files, "a", "", "de")?;
    refused(files.create("b"))?;
    files.create("c")?;
    // Three bytes are left.
    refused(append_to_memory(files, b"fghi"))?;
    append_to_memory(files, b"fgh")?;
    files.finish()?;
    // No file is left.
    refused(files.create("d"))
}

// Whether the three files are made, in their order.
fn stand_in_order(alloc: Global) -> bool {
    match MemFiles::open(alloc, 3, 8, &[]) {
        Ok(mut files) => {
            make_three(&mut files).is_ok() && are_files(&files, "b abc, a de, c fgh")
        }
        Err(_) => false,
    }
}

#[test]
fn files_in_memory_stand_in_order(rt: HostRuntime) {
    assert!(rt; stand_in_order(rt.alloc()));
}

// Each line: the number of the call that fails (0 creates the file, 1 and 2 append, 3 finishes it), whether the file is
// made, and the files that there are then.
const FAILING: &str = "
0 failed
1 failed f
2 failed f ab
3 failed f abc
4 ok f abc
";

// Whether the call of a line fails and leaves the files that the line tells.
fn is_left(alloc: Global, line: &'static str) -> bool {
    let (call, left) = line.split_once(' ').unwrap_or((line, ""));
    let (answer, wanted) = left.split_once(' ').unwrap_or((left, ""));
    let Ok(mut files) = MemFiles::open(alloc, 1, 3, &[call_of(call)]) else {
        return false;
    };
    let is_made = make(&mut files, "f", "ab", "c").is_ok();
    is_made == (answer == "ok") && are_files(&files, wanted)
}

#[test]
fn each_call_of_files_in_memory_fails_where_it_is_told_to(rt: HostRuntime) {
    for line in FAILING.lines() {
        assert!(rt; line.is_empty() || is_left(rt.alloc(), line), "{line}");
    }
}

const LONG: &str = "0123456789abcdef0123456789abcdef0123456789abcdef0123456789abcdef";

const LONGER: &str = "0123456789abcdef0123456789abcdef0123456789abcdef0123456789abcdefx";

// Makes files of the longest and of the shortest name, and tries a call between them that must fail.
fn make_long(files: &mut MemFiles) -> Result<(), Failed>
    requires { ¬ IsMaking files.old }
{
    make(files, LONG, "", "")?;
    refused(files.create(LONGER))?;
    files.create("")
}

// Whether files of these names are made.
fn take_long(alloc: Global) -> bool {
    match MemFiles::open(alloc, 2, 0, &[]) {
        Ok(mut files) => make_long(&mut files).is_ok(),
        Err(_) => false,
    }
}

#[test]
fn a_name_in_memory_has_at_most_64_bytes(rt: HostRuntime) {
    assert!(rt; take_long(rt.alloc()));
}

// Makes calm files, two of them with one name.
fn make_calm() -> Result<(), Failed> {
    let mut files = CalmFiles::new();
    make(&mut files, "a", "ab", "c")?;
    make(&mut files, "a", "ab", "c")?;
    make(&mut files, "", "", "")
}

#[test]
fn calm_files_take_all(rt: HostRuntime) {
    assert!(rt; make_calm().is_ok());
}

// Each line: the name of a file of the system, and `ok` if it is made. The first name is empty. One file existed
// before.
const REAL: &str = "
outside_test_new ok
outside_test_new
outside_test_old
outside_test_folder/new ok
outside_test_no_folder/new
.
";

// Whether the file of a line is made exactly if the line says `ok`.
fn is_made(rt: &HostRuntime, line: &'static str) -> bool {
    let [name, answer, ..] = words_of(line);
    let is_made = make(&mut RealFiles::new(rt), name, "ab\n", "c").is_ok();
    is_made == (answer == "ok")
}

// Whether a file has these bytes.
fn is_held(rt: &HostRuntime, name: &str, bytes: &str) -> bool {
    match fs::read(rt, name) {
        Ok(held) => held.as_slice() == bytes.as_bytes(),
        Err(_) => false,
    }
}

#[test]
fn real_files_are_made_new(rt: HostRuntime) -> Result<(), Fail> {
    fs::write(&rt, "outside_test_old", b"kept".as_slice())?;
    fs::create_dir(&rt, "outside_test_folder")?;
    for line in REAL.lines() {
        assert!(rt; is_made(&rt, line), "{line}");
    }
    assert!(rt; is_held(&rt, "outside_test_new", "ab\nc"));
    assert!(rt; is_held(&rt, "outside_test_old", "kept"));
    assert!(rt; is_held(&rt, "outside_test_folder/new", "ab\nc"));
    fs::remove_file(&rt, "outside_test_new")?;
    fs::remove_file(&rt, "outside_test_old")?;
    fs::remove_file(&rt, "outside_test_folder/new")?;
    fs::remove_dir(&rt, "outside_test_folder")?;
    Ok(())
}

// Each line: the file and the folder of a disk, whether each append succeeds, and whether `finish` does. `/dev/null`
// can't be synced, and `/dev/full` takes nothing.
const DISKS: &str = "
outside_test_disk . ok ok
outside_test_disk /dev/null ok failed
/dev/null . ok failed
/dev/full . failed failed
";

// Whether two appends and `finish`, which is tried again if it fails, succeed or fail as they should.
fn go_so<F: Files>(files: &mut F, appended: bool, finished: bool) -> Result<bool, Failed>
    requires { ¬ F.is_open files.old }
{
    files.create("f")?;
    let first = append_all(files, b"ab").is_ok();
    let second = append_all(files, b"ab").is_ok();
    let is_finished = match files.finish() {
        Ok(()) => true,
        Err(Failed) => files.finish().is_ok(),
    };
    Ok(first == appended && second == appended && is_finished == finished)
}

// Whether a file on the disk of a line behaves as the line says.
fn goes_so(rt: &HostRuntime, line: &'static str) -> bool {
    let [file, folder, appended, finished, ..] = words_of(line);
    let disk = Disk { rt, file, folder };
    let mut files = RealFiles::new(&disk);
    go_so(&mut files, appended == "ok", finished == "ok").unwrap_or(false)
}

#[test]
fn a_real_file_that_failed_stays_so(rt: HostRuntime) -> Result<(), Fail> {
    fs::write(&rt, "outside_test_disk", b"".as_slice())?;
    for line in DISKS.lines() {
        assert!(rt; line.is_empty() || goes_so(&rt, line), "{line}");
    }
    assert!(rt; is_held(&rt, "outside_test_disk", "abab"));
    fs::remove_file(&rt, "outside_test_disk")?;
    Ok(())
}
