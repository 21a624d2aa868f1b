// What a line does in a commit object's header: its name, its identifier, and what may come after it.
#![tactic(auto)]

ghost use Rattle.std.specs.Prelude.{◌≡◌, ◌+◌, ◌≤◌, length, drop};
ghost use Rattle.std.specs.List.{position};
ghost use Rattle.rules.specs.Lists.{equal, run};
ghost use Rattle.commit.specs.Grammar.{name_byte, four, hex_digit};
ghost use Rattle.commit.specs.Reader.{empty_line, spaced_line, named_line, identifier};
ghost use Rattle.commit.specs.declared.Phase.{Phase};
ghost use Rattle.header.specs.Front.{ends_name, id_front, parent_comes};

use commit::{Phase, Turn};
use text::fixed::{equals, starts_with};

// ---- names and identifiers

fn is_hex_digit(byte: u8) -> bool
    ensures { result ≡ hex_digit byte }
{
    ((b'0' <= byte) & (byte <= b'9')) | ((b'a' <= byte) & (byte <= b'f'))
}

// Whether a line's content is an identifier of a size. One of that size is read to its end, so that the compiler reads many
// bytes at once.
fn is_identifier(content: &[u8], size: usize) -> bool
    ensures { result ≡ identifier size content.now }
{
    if content.len() != size {
        return false;
    }
    let mut good = true;
    for byte in content {
        good &= is_hex_digit(*byte);
    }
    good
}

// Whether an identifier of a size stands at the front, and an LF after it.
fn is_id_front(input: &[u8], size: usize) -> bool
    ensures { result ≡ id_front size input.now }
{
    input.len() > size && input[size] == b'\n' && is_identifier(&input[..size], size)
}

// Whether a parent's line stands at the front, where one may come: the size of the identifiers says where its LF is, so that no search is
// needed.
pub fn is_parent_front(input: &[u8], phase: Phase) -> bool
    ensures { result ≡ parent_comes phase input.now }
{
    match phase {
        Phase::Parents(size) => starts_with(input, b"parent ") && is_id_front(&input[7..], size),
        _ => false,
    }
}

// Whether a name is the word. Names of its length are read to their end, so that the compiler compares them in place, with no call: each line of
// a header asks four times.
fn is_name(name: &[u8], word: &[u8]) -> bool
    ensures { result ≡ equal name.now word.now }
{
    if name.len() != word.len() {
        return false;
    }
    let mut alike = true;
    for (x, y) in name.iter().zip(word) {
        alike &= *x == *y;
    }
    alike
}

// Whether a name is one of the four that have their own places. None of them is shorter than four bytes.
fn is_one_of_four(name: &[u8]) -> bool
    ensures { result ≡ four name.now }
{
    if name.len() < 4 {
        return false;
    }
    is_name(name, b"tree")
        | is_name(name, b"parent")
        | is_name(name, b"author")
        | is_name(name, b"committer")
}

// The place of the first byte that ends a name: a space or an LF.
fn name_stop(line: &[u8]) -> Option<usize>
    ensures { result ≡ position ends_name line.now }
{
    line.iter().position(|byte| *byte == b'\n' || *byte == b' ')
}

// Where the name that starts at `at` ends: at the first space or LF, or at the end.
pub fn name_end(content: &[u8], at: usize) -> usize
    requires { at ≤ length content.now }
    ensures { (result ≤ length content.now) × (result ≡ at + length (run name_byte (drop at content.now))) }
{
    match name_stop(&content[at..]) {
        Some(length) => at + length,
        None => content.len(),
    }
}

// ---- what a line does, by what may come: the empty line, a line that starts with a space, a line with a name

// The empty line ends a header that has its committer.
pub fn empty_turn(phase: Phase) -> Option<Turn>
    ensures { result ≡ empty_line phase }
{
    match phase {
        Phase::Others | Phase::Under => Some(Turn::End),
        _ => None,
    }
}

// A line that starts with a space continues another line, and none of the four.
pub fn spaced_turn(phase: Phase) -> Option<Turn>
    ensures { result ≡ spaced_line phase }
{
    match phase {
        Phase::Under => Some(Turn::To(Phase::Under)),
        _ => None,
    }
}

fn tree_turn(name: &[u8], content: &[u8]) -> Option<Turn>
    ensures { result ≡ named_line Phase.Tree name.now content.now }
{
    if !equals(name, b"tree") {
        return None;
    }
    if is_identifier(content, 40) {
        return Some(Turn::To(Phase::Parents(40)));
    }
    if is_identifier(content, 64) {
        return Some(Turn::To(Phase::Parents(64)));
    }
    None
}

fn parent_turn(size: usize, name: &[u8], content: &[u8]) -> Option<Turn>
    ensures { result ≡ named_line (Phase.Parents size) name.now content.now }
{
    if equals(name, b"parent") {
        return is_identifier(content, size).then_some(Turn::To(Phase::Parents(size)));
    }
    equals(name, b"author").then_some(Turn::To(Phase::Committer))
}

// None where no good header goes on after the line.
pub fn named_turn(phase: Phase, name: &[u8], content: &[u8]) -> Option<Turn>
    ensures { result ≡ named_line phase name.now content.now }
{
    match phase {
        Phase::Tree => tree_turn(name, content),
        Phase::Parents(size) => parent_turn(size, name, content),
        Phase::Committer => equals(name, b"committer").then_some(Turn::To(Phase::Others)),
        Phase::Others | Phase::Under => (!is_one_of_four(name)).then_some(Turn::To(Phase::Under)),
    }
}
