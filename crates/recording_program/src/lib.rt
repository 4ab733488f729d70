// A program that plays a site's recording back: standard input, or the file that the only argument names. What is told
// of its calls, bad lines and the listing go to standard output. docs/RECORDING.md has the format.
#![tactic(auto)]

ghost use Rattle.std.specs.Prelude.{◌+◌, ◌≤◌, ◌≡◌, ◌++◌, length, take, drop};
ghost use Rattle.recording_course.specs.Course.{course_step};
ghost use Rattle.recording_program.specs.Rooms.{Rooms};

use arrayvec::ArrayString;
use recording_course::{Course, Went};
use std::env::FillError;
use std::fmt::Write;
use std::fs::File;
use std::io::{Error, ErrorKind, Read};
use std::process::ExitCode;
use std::rt::{Env, Files};

// The system's numbers for a name that is too long, and for one that is no text.
const TOO_LONG: i32 = 36;

const NO_TEXT: i32 = 84;

// The exit status where nobody reads the output any more: what a shell says of a program that SIGPIPE ended. Any other
// end has 0.
const UNREAD: u8 = 141;

// What the system says of an error, without its number.
fn words_of(text: &str) -> &str {
    match text.split_once(" (os error ") {
        Some((words, _)) => words,
        None => text,
    }
}

// Tells on standard error what failed, and why.
fn fail(rt: &impl Eprint, what: &str, error: Error) {
    let mut text = ArrayString::<256>::new();
    let _ = write!(text, "{error}");
    let reason = words_of(text.as_str());
    let _ = eprintln!(rt; "{what}: {reason}");
}

// Writes the octets at the front. That nobody reads them is said by the exit status alone.
fn show(rt: &(impl Print + Eprint), status: &mut u8, out: &[u8], size: usize) -> bool
    requires { size ≤ length out.now }
{
    match rt.write_all(&out[..size]) {
        Ok(()) => true,
        Err(error) => {
            if error.kind() == ErrorKind::BrokenPipe {
                *status = UNREAD;
            } else {
                fail(rt, "standard output", error);
            }
            false
        }
    }
}

// Reads the next piece, where a read comes next.
fn read_on(
    rt: &impl Eprint,
    c: Course,
    input: &mut impl Read,
    name: &str,
    piece: &mut [u8],
) -> Course {
    if !recording_course::is_read(c) {
        return c;
    }
    match input.read(piece) {
        Ok(got) => recording_course::given(c, Some(got)),
        Err(error) => {
            fail(rt, name, error);
            recording_course::given(c, None)
        }
    }
}

// One step. What it wrote is gathered: it lies behind what is held already.
fn go_on(
    c: Course,
    held: usize,
    line: &mut [u8],
    table: &mut [u32],
    piece: &[u8],
    out: &mut [u8],
) -> Went
    requires { held ≤ length out.old }
    ensures out_after { take (held + result.written) out.new ≡ take held out.old ++ (course_step (drop held out.old) c line.old table.old piece.now).text }
    ensures written_in_bounds { held + result.written ≤ length out.new }
{
    recording_course::advance(c, line, table, piece, &mut out[held..])
}

// Writes what is held, where that is due, and says how much is held then.
fn show_held(
    rt: &(impl Print + Eprint),
    status: &mut u8,
    c: Course,
    held: usize,
    out: &[u8],
) -> (Course, usize)
    requires held_in_bounds { held ≤ length out.now }
    requires in_bounds { 65536 ≤ length out.now }
    ensures { result.1 + 65536 ≤ length out.now }
{
    if !recording_course::is_due(c, out.len() - held) {
        return (c, held);
    }
    (recording_course::wrote(c, show(rt, status, out, held)), 0)
}

// Step after step. Nothing says that an input ends, so they are counted, up to a number that no recording reaches.
fn play_all(
    rt: &(impl Print + Eprint),
    status: &mut u8,
    traced: bool,
    input: &mut impl Read,
    name: &str,
    line: &mut [u8],
    table: &mut [u32],
    piece: &mut [u8],
    out: &mut [u8],
)
    requires { Rooms line.old table.old out.old }
{
    let mut c = recording_course::set_out(traced);
    let mut held = 0;
    for _ in 0..u64::MAX {
        if recording_course::is_over(c) {
            return;
        }
        c = read_on(rt, c, input, name, piece);
        let w = go_on(c, held, line, table, piece, out);
        (c, held) = show_held(rt, status, w.course, held + w.written, out);
    }
}

// Plays all that is read, and says the exit status.
fn play(rt: &(impl Print + Eprint), traced: bool, input: &mut impl Read, name: &str) -> u8 {
    let mut line = [0u8; 4118];
    let mut table = [0u32; 3072];
    let mut piece = [0u8; 65536];
    let mut out = [0u8; 131072];
    let mut status = 0;
    play_all(
        rt,
        &mut status,
        traced,
        input,
        name,
        &mut line,
        &mut table,
        &mut piece,
        &mut out,
    );
    status
}

// Whether the program was given an argument of this number.
fn is_given(rt: &impl Env, number: usize) -> bool {
    !matches!(rt.arg(number, &mut [0; 1]), Err(FillError::NotPresent))
}

// Plays the file that the argument names.
fn play_named(rt: &(impl Print + Eprint + Files + Env), traced: bool) -> u8 {
    let mut path = [0u8; 4096];
    let Ok(size) = rt.arg(1, &mut path) else {
        fail(rt, "file name", Error::from_raw_os_error(TOO_LONG));
        return 0;
    };
    let Ok(name) = str::from_utf8(&path[..size]) else {
        fail(rt, "file name", Error::from_raw_os_error(NO_TEXT));
        return 0;
    };
    match File::open(rt, name) {
        Ok(mut file) => play(rt, traced, &mut file, name),
        Err(error) => {
            fail(rt, name, error);
            0
        }
    }
}

// The whole program.
pub fn run(rt: &(impl Input + Print + Eprint + Files + Env), traced: bool) -> ExitCode {
    if !is_given(rt, 1) {
        return ExitCode::from(play(rt, traced, &mut rt.reader(), "standard input"));
    }
    if is_given(rt, 2) {
        let _ = eprintln!(rt; "usage: one FILE, or none");
        return ExitCode::SUCCESS;
    }
    ExitCode::from(play_named(rt, traced))
}
