// A recording's course: what is done around the player's turns. The host reads where a read is wanted, hands over what
// came of it, gathers what each step wrote and writes it where that is due; everything else is decided here.
#![tactic(auto)]

ghost use Rattle.std.specs.Prelude.{◌≡◌, List, ℕ, is_some, unwrap_or};
ghost use Rattle.octets.specs.Buffer.{over};
ghost use Rattle.recording_player.specs.Player.{Step, told_of};
ghost use Rattle.recording_course.specs.Course.{is_read, is_over, staged, set_out, given_of, is_due, wrote_of, rest_of, next_stage, went_of, play_step, ended_by, course_step};

use recording_player::{Player, ROOM, Told};

// What comes next.
#[derive(Clone, Copy, Debug, PartialEq, Eq)]
pub enum Stage {
    // A read.
    Read,
    // A turn, on what is left of the piece.
    Play,
    // The recording ended: what it lacks.
    Close,
    // The listing.
    List,
    // Nothing more: all was said, or a read or a write failed.
    Over,
}

// What is known between two steps. The host lends the line buffer, the table, the piece and the output buffer.
#[derive(Clone, Copy)]
pub struct Course {
    pub player: Player,
    pub stage: Stage,
    // The octets of the piece that are left. The host reads into the piece between two steps, so no slice can be kept.
    pub from: usize,
    pub to: usize,
}

// What a step leaves, and how many octets it wrote.
#[derive(Clone, Copy)]
pub struct Went {
    pub course: Course,
    pub written: usize,
}

// Before the first read.
pub fn set_out(traced: bool) -> Course
    ensures { result ≡ set_out traced }
{
    Course {
        player: recording_player::begin(traced),
        stage: Stage::Read,
        from: 0,
        to: 0,
    }
}

// Whether a read comes next.
#[tactic(auto, unfolding(crate::specs::Course::is_read))]
pub fn is_read(c: Course) -> bool
    ensures { result ≡ is_read c.stage }
{
    matches!(c.stage, Stage::Read)
}

// Whether nothing more comes.
#[tactic(auto, unfolding(crate::specs::Course::is_over))]
pub fn is_over(c: Course) -> bool
    ensures { result ≡ is_over c.stage }
{
    matches!(c.stage, Stage::Over)
}

#[tactic(auto, unfolding(crate::specs::Course::staged))]
fn at_stage(c: Course, stage: Stage) -> Course
    ensures { result ≡ staged c stage }
{
    Course { stage, ..c }
}

// A read gave so many octets, or failed.
#[tactic(auto, unfolding(crate::specs::Course::given_of))]
pub fn given(c: Course, size: Option<usize>) -> Course
    ensures { result ≡ given_of c (is_some size) (unwrap_or size 0) }
{
    match size {
        None => at_stage(c, Stage::Over),
        Some(0) => at_stage(c, Stage::Close),
        Some(to) => Course {
            stage: Stage::Play,
            from: 0,
            to,
            ..c
        },
    }
}

// Whether the host writes what was gathered, where so much room is left behind it: nothing is held back at a read or at
// the end, and the next step must find room.
#[tactic(auto, unfolding(crate::specs::Course::is_due))]
pub fn is_due(c: Course, room: usize) -> bool
    ensures { result ≡ is_due c.stage room }
{
    is_read(c) || is_over(c) || room < ROOM
}

// What was gathered was written by the host, or could not be: a write says no more than whether it was made.
#[tactic(auto, unfolding(crate::specs::Course::wrote_of))]
pub fn wrote(c: Course, good: bool) -> Course
    ensures { result ≡ wrote_of c good }
{
    if good { c } else { at_stage(c, Stage::Over) }
}

// What is left of the piece.
fn rest_of(piece: &[u8], from: usize, to: usize) -> &[u8]
    ensures { result.now ≡ rest_of from to piece.now }
{
    let end = to.min(piece.len());
    if end < from {
        return &[];
    }
    &piece[from..end]
}

// After a turn that left so many octets: another, until the piece is used up and no tick is due.
#[tactic(auto, unfolding(crate::specs::Course::next_stage, crate::specs::Course::used_up))]
fn next_stage(p: Player, left: usize) -> Stage
    ensures { result ≡ next_stage p left }
{
    if left == 0 && (p.broken || p.ticks == 0) {
        Stage::Read
    } else {
        Stage::Play
    }
}

// A turn, on what is left of the piece.
fn play_on(c: Course, line: &mut [u8], table: &mut [u32], piece: &[u8], out: &mut [u8]) -> Went
    ensures value { result ≡ went_of (play_step out.old c line.old table.old piece.now) }
    ensures line_after { line.new ≡ (play_step out.old c line.old table.old piece.now).line }
    ensures table_after { table.new ≡ (play_step out.old c line.old table.old piece.now).table }
    ensures out_after { out.new ≡ over (play_step out.old c line.old table.old piece.now).text out.old }
{
    let rest = rest_of(piece, c.from, c.to);
    let t = recording_player::turn(c.player, line, table, rest, out);
    Went {
        course: Course {
            player: t.player,
            stage: next_stage(t.player, rest.len() - t.used),
            from: c.from + t.used,
            ..c
        },
        written: t.written,
    }
}

// The player's close or its listing, and the stage after it.
fn ended_by(c: Course, told: Told, stage: Stage) -> Went
    ensures { (s : Step) (line table : List ℕ) → told ≡ told_of s → result ≡ went_of (ended_by c s stage line table) }
{
    Went {
        course: Course {
            player: told.player,
            stage,
            ..c
        },
        written: told.written,
    }
}

// One step: a turn of the player, its close or its listing. Where a read comes next or nothing, none.
pub fn advance(c: Course, line: &mut [u8], table: &mut [u32], piece: &[u8], out: &mut [u8]) -> Went
    ensures value { result ≡ went_of (course_step out.old c line.old table.old piece.now) }
    ensures line_after { line.new ≡ (course_step out.old c line.old table.old piece.now).line }
    ensures table_after { table.new ≡ (course_step out.old c line.old table.old piece.now).table }
    ensures out_after { out.new ≡ over (course_step out.old c line.old table.old piece.now).text out.old }
{
    match c.stage {
        Stage::Play => play_on(c, line, table, piece, out),
        Stage::Close => ended_by(c, recording_player::close(c.player, out), Stage::List),
        Stage::List => ended_by(
            c,
            recording_player::finish(c.player, table, out),
            Stage::Over,
        ),
        Stage::Read | Stage::Over => Went {
            course: c,
            written: 0,
        },
    }
}
