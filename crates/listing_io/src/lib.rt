// What the programs share: which arguments there are, a table read from a file or from standard input, and lines collected in a page and written.
// No contract can say what a call of the operating system reads or writes: what is read has a bound, and what a page holds is said.
#![tactic(auto)]

ghost use Rattle.std.specs.Prelude.{◌≤◌, length, ◌≡◌, [], ◌++◌, IfSome, IfOk};
ghost use Rattle.listing_io.specs.Pages.{page_room, waiting};

use lines::{Buffer, LINE_ROOM, Line};
use std::env::FillError;
use std::io::{ErrorKind, Read};
use std::ops::Range;
use std::rt::Env;
use std::{fs, io, str};

// Linux's number of "Invalid argument".
const EINVAL: i32 = 22;

// Linux's number of "File name too long".
const ENAMETOOLONG: i32 = 36;

// Why no table was read.
#[derive(Clone, Copy, Debug, PartialEq, Eq)]
pub enum NoTable {
    // There is more than the room has.
    TooLong,
    // It could not be opened or read; a message on standard error says why.
    Unread,
}

// The numbers of the arguments behind the program's name.
// Of where they end no clause can say more: std's contract of `arg` bounds what it writes, and says nothing of which arguments there are.
pub fn arguments(rt: &impl Env) -> Range<usize>
    ensures { (result.start ≡ 1) × (1 ≤ result.end) }
{
    for i in 1..usize::MAX {
        if let Err(FillError::NotPresent) = rt.arg(i, &mut []) {
            return 1..i;
        }
    }
    1..usize::MAX
}

// Reads the file that argument i names, or standard input where there are fewer arguments, and answers how many bytes it has.
pub fn read_table(rt: &HostRuntime, i: usize, room: &mut [u8]) -> Result<usize, NoTable>
    ensures { IfOk result (λ n. n ≤ length room.new) }
{
    let mut path = [0u8; 4096];
    match rt.arg(i, &mut path) {
        Ok(n) => read_file(rt, &path[..n], room),
        Err(FillError::NotPresent) => read_from(rt, &mut rt.stdin(), b"standard input", room),
        Err(why) => Err(unread(rt, b"path", unfilled(why))),
    }
}

// Puts argument i at the room's start and answers its length, or says why it cannot.
pub fn argument(rt: &HostRuntime, i: usize, what: &[u8], room: &mut [u8]) -> Option<usize>
    ensures { IfSome result (λ n. n ≤ length room.new) }
{
    match rt.arg(i, room) {
        Ok(n) => Some(n),
        Err(why) => {
            fail(rt, what, unfilled(why));
            None
        }
    }
}

// The system's error for an argument that is missing or too long.
fn unfilled(why: FillError) -> io::Error {
    match why {
        FillError::NotPresent => io::Error::from_raw_os_error(EINVAL),
        FillError::TooLong => io::Error::from_raw_os_error(ENAMETOOLONG),
    }
}

// Reads the file of a path. std opens only paths that are UTF-8.
fn read_file(rt: &HostRuntime, path: &[u8], room: &mut [u8]) -> Result<usize, NoTable>
    ensures { IfOk result (λ n. n ≤ length room.new) }
{
    let Ok(name) = str::from_utf8(path) else {
        let why = io::Error::new(ErrorKind::InvalidFilename, "not UTF-8");
        return Err(unread(rt, path, why));
    };
    match fs::open(rt, name) {
        Ok(mut file) => read_from(rt, &mut file, path, room),
        Err(why) => Err(unread(rt, path, why)),
    }
}

// Fills the room, in as many pieces as come, and then reads once more. That read gives nothing where the input has ended, a byte where it is too
// long, and fails where it cannot be read.
fn read_from<F: Read>(
    rt: &HostRuntime,
    file: &mut F,
    path: &[u8],
    room: &mut [u8],
) -> Result<usize, NoTable>
    ensures { IfOk result (λ n. n ≤ length room.new) }
{
    let n = read_full(file, room);
    let mut more = [0u8; 1];
    match file.read(&mut more) {
        Err(why) => Err(unread(rt, path, why)),
        Ok(0) => Ok(n),
        Ok(_) => {
            if n < room.len() {
                say(rt, path);
                say(rt, b": reading was interrupted\n");
                return Err(NoTable::Unread);
            }
            Err(NoTable::TooLong)
        }
    }
}

// Reads until the room is full, the input ends or a read fails, and answers how many bytes it put at the room's start. How many a read gives, it says itself.
pub fn read_full<F: Read>(file: &mut F, room: &mut [u8]) -> usize
    ensures { result ≤ length room.new }
{
    let mut done = 0;
    while done < room.len() {
        match file.read(&mut room[done..]) {
            Ok(0) => break,
            Ok(n) => done += n,
            Err(_) => break,
        }
    }
    done
}

// The bytes that a page has room for.
const PAGE_ROOM: usize = 4096;

// Lines that wait to be written.
#[derive(Drop)]
pub struct Page {
    lines: Buffer<PAGE_ROOM>,
}

impl Page {
    // One with no lines yet.
    pub fn new() -> Page
        ensures { result.lines ≡ [] }
    {
        Page {
            lines: Buffer::new(),
        }
    }

    // Puts a line behind those that wait, once they are written out for want of room.
    #[tactic(auto, unfolding(crate::specs::Pages::waiting))]
    pub fn put(&mut self, rt: &HostRuntime, line: Line)
        ensures { self.new.lines ≡ waiting self.old.lines ++ line }
    {
        if PAGE_ROOM - self.lines.as_bytes().len() < LINE_ROOM {
            self.write(rt);
            self.lines.clear();
        }
        self.lines.put(line.as_bytes());
    }

    // Writes the lines that wait, which are as many bytes as a page has room for at most. Of what the system writes no contract says anything.
    pub fn write(&self, rt: &HostRuntime)
        ensures { length self.now.lines ≤ page_room }
    {
        write(rt, self.lines.as_bytes());
    }
}

// Writes one line.
pub fn write_line(rt: &HostRuntime, line: Line) {
    write(rt, line.as_bytes());
}

// Writes, or says why it cannot.
pub fn write(rt: &HostRuntime, bytes: &[u8]) {
    if let Err(why) = rt.write_all(bytes) {
        fail(rt, b"standard output", why);
    }
}

// Says on standard error what could not be read, and why.
fn unread(rt: &HostRuntime, what: &[u8], why: io::Error) -> NoTable {
    fail(rt, what, why);
    NoTable::Unread
}

// Says on standard error what failed, and why.
fn fail(rt: &HostRuntime, what: &[u8], why: io::Error) {
    say(rt, what);
    let _ = eprintln!(rt; ": {why}");
}

// Writes to standard error. Where that fails, nothing is left to say it on.
pub fn say(rt: &HostRuntime, bytes: &[u8]) {
    let _ = rt.stderr().write_all(bytes);
}
