// The index's file: opened and judged, or made.
use line_zero::Top;
use std::fs::File;
use std::io::ErrorKind;
use std::os::unix::fs::FileExt;
use std::{fs, io};

const SIZE: usize = 133;

// Line 0 of an index over the setup alone.
fn empty() -> Top {
    Top {
        covered: 1,
        since: 0,
        end: 13,
        from: 0,
        size: 133,
    }
}

// Says what is wrong with a line 0. 23: the index covers more records than the recording has.
fn judge(recording: &File, beside: &File, top: Top) -> Result<(), &'static str> {
    if top.size < 133 || !files::reaches(beside, top.size) {
        return Err("not an index");
    }
    if !files::reaches(recording, top.end) {
        return Err("refused 23");
    }
    Ok(())
}

// A file of fewer bytes than line 0 has is as good as none.
fn read_top(recording: &File, beside: File) -> Result<Option<(File, Top)>, &'static str> {
    let mut text = [0u8; SIZE];
    let n = files::read_at(&beside, 0, &mut text).ok_or("cannot read the index")?;
    if n < SIZE {
        return Ok(None);
    }
    let top = line_zero::read_top(&text).ok_or("not an index")?;
    judge(recording, &beside, top)?;
    Ok(Some((beside, top)))
}

// For reading and writing, where it is there.
fn open_update(rt: &HostRuntime, name: &str) -> io::Result<File> {
    File::options().read(true).write(true).open(rt, name)
}

// Looks at what is at this path: an index, with its line 0; nothing, or less than line 0; or something that is not touched, and why.
pub fn open(
    rt: &HostRuntime,
    recording: &File,
    path: &[u8],
) -> Result<Option<(File, Top)>, &'static str> {
    let Ok(name) = str::from_utf8(path) else {
        return Err("cannot open the index");
    };
    match open_update(rt, name) {
        Ok(beside) => read_top(recording, beside),
        Err(e) if e.kind() == ErrorKind::NotFound => Ok(None),
        Err(_) => Err("cannot open the index"),
    }
}

// Writes line 0 by one write, which is safe then: no second one goes on where the first fell short, since line 0 alone commits.
pub fn write_top(beside: &File, top: Top) -> bool {
    let mut text = [0u8; SIZE];
    line_zero::put_top(top, &mut text, 0);
    matches!(beside.write_at(&text, 0), Ok(SIZE)) && beside.sync_data().is_ok()
}

// The empty index, in a file that is made or emptied.
fn is_begun(rt: &HostRuntime, name: &str) -> bool {
    let Ok(beside) = File::create(rt, name) else {
        return false;
    };
    let is_written = write_top(&beside, empty());
    if !is_written {
        let _ = fs::remove_file(rt, name);
    }
    is_written
}

// Makes the empty index under another name, which it then changes: no other bytes ever stand at this path.
fn make_as(rt: &HostRuntime, path: &[u8], name: &[u8]) -> Option<File> {
    let path = str::from_utf8(path).ok()?;
    let name = str::from_utf8(name).ok()?;
    if !is_begun(rt, name) {
        return None;
    }
    if fs::rename(rt, name, path).is_err() {
        let _ = fs::remove_file(rt, name);
        return None;
    }
    open_update(rt, path).ok()
}

// Makes the empty index, if it can.
pub fn make(rt: &HostRuntime, path: &[u8]) -> Option<(File, Top)> {
    let mut name = [0u8; 4096];
    let mut n = block::put(&mut name, 0, path);
    n = block::put(&mut name, n, b".new");
    let beside = make_as(rt, path, name.get(..n)?)?;
    Some((beside, empty()))
}
