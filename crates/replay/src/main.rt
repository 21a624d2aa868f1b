// Reads messages with the original's answers from the file `list`, and prints one line: how many messages there are, if
// the port answers the same about all of them; otherwise the first message and answer on which the two differ.
//
// Then it does the same with the small lists of the file `changed`, in each of which one answer is wrong, and prints a line
// for each: if it compared nothing, they would say that all agree. README.md says how the lists were made.
#![tactic(auto)]

mod answers;

ghost use Rattle.std.specs.Prelude.{length, ◌≡◌, ◌≤◌};

use answers::{Subject, answers_agree};
use console::{buffer, fail, open_read, read_full, write_all};
use recorded::Recorded;
use std::io::Write;
use std::rt::Files;

// Replays the answers about the next message; where they differ, what the first that does is about.
fn replay(list: &mut Recorded, out: &mut [u8]) -> Result<(), Subject> {
    let message = list.bytes().ok_or(Subject::TitleAndBody)?;
    answers_agree(list, message, out)
}

// Replays all messages, and prints how it went.
fn replay_all<W: Write>(out: &mut W, list: &[u8], space: &mut [u8]) {
    let mut list = Recorded::new(list);
    let messages = list.two_bytes().unwrap_or(0);
    for number in 0..messages {
        if let Err(subject) = replay(&mut list, space) {
            let _ = writeln!(out, "message {number} differs: {subject}");
            return;
        }
    }
    if list.is_at_end() {
        let _ = writeln!(out, "{messages} messages agree");
    } else {
        write_all(out, b"the list does not end behind its last message\n");
    }
}

// Replays each of the small lists, after its name.
fn replay_each<W: Write>(out: &mut W, lists: &[u8], space: &mut [u8]) {
    let mut lists = Recorded::new(lists);
    for _ in 0..lists.two_bytes().unwrap_or(0) {
        let name = lists.bytes().unwrap_or(&[]);
        let list = lists.bytes().unwrap_or(&[]);
        write_all(out, name);
        write_all(out, b": ");
        replay_all(out, list, space);
    }
}

// Reads a file to the front of `space`; nothing where it cannot be opened, and then says why.
fn read_file<'a, R: Files, E: Write>(
    rt: &R,
    errors: &mut E,
    name: &[u8],
    space: &'a mut [u8],
) -> &'a [u8]
    ensures in_bounds { length result.now ≤ length space.old }
{
    match open_read(rt, name) {
        Ok(mut file) => {
            let len = read_full(&mut file, space);
            &space[..len]
        }
        Err(error) => {
            fail(errors, name, error);
            &[]
        }
    }
}

// Room for the list.
fn list_buffer() -> [u8; 393216]
    ensures { 393216 ≡ length result }
{
    [0; 393216]
}

fn main(rt: HostRuntime) {
    let mut list = list_buffer();
    let mut space = buffer();
    let mut out = rt.stdout();
    let mut errors = rt.stderr();
    let messages = read_file(&rt, &mut errors, b"list", &mut list);
    replay_all(&mut out, messages, &mut space);
    let lists = read_file(&rt, &mut errors, b"changed", &mut list);
    replay_each(&mut out, lists, &mut space);
}
