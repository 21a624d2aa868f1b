// White space: Unicode's table, the forms at the front and at the end of an input, and what trimming keeps.
#![tactic(auto)]

ghost use Rattle.std.specs.Prelude.{◌≡◌, ◌+◌, ◌-◌, ◌≤◌, ◌<◌, eqb, length, take, drop, get_or};
ghost use Rattle.rules.specs.Lists.{any};
ghost use Rattle.rules.specs.White.{white_space, form_at, trim_start, trim_end, trim, trim_at};
ghost use Rattle.white.specs.White.{carries, Decoded, last_form, form_end, graphic, plain, solid};

use rules::Part;

// White_Space of Unicode's PropList.txt, in its order. This table alone says what white space is.
const WHITE_SPACE: [u32; 25] = [
    // 0009..000D <control-0009>..<control-000D>
    0x0009, 0x000a, 0x000b, 0x000c, 0x000d,
    // 0020 SPACE
    0x0020,
    // 0085 <control-0085>
    0x0085,
    // 00A0 NO-BREAK SPACE
    0x00a0,
    // 1680 OGHAM SPACE MARK
    0x1680,
    // 2000..200A EN QUAD..HAIR SPACE
    0x2000, 0x2001, 0x2002, 0x2003, 0x2004, 0x2005, 0x2006, 0x2007, 0x2008, 0x2009, 0x200a,
    // 2028 LINE SEPARATOR
    0x2028,
    // 2029 PARAGRAPH SEPARATOR
    0x2029,
    // 202F NARROW NO-BREAK SPACE
    0x202f,
    // 205F MEDIUM MATHEMATICAL SPACE
    0x205f,
    // 3000 IDEOGRAPHIC SPACE
    0x3000,
];

// How many entries are below 0x80: their forms have one byte.
const BYTES: usize = 6;

// The table is the list of the rules.
fn white_space() -> [u32; 25]
    ensures { result ≡ white_space }
{
    WHITE_SPACE
}

// Whether a code point is among the entries of the table from `from` to `end`.
fn is_among(code: u32, from: usize, end: usize) -> bool
    requires { (from ≤ end) × (end ≤ 25) }
    ensures { result ≡ any (eqb code) (take (end - from) (drop from white_space)) }
{
    white_space()[from..end].iter().any(|entry| code == *entry)
}

// The six bits that a continuation byte carries; none where the byte is no such byte.
fn carried(byte: u8) -> Option<u32>
    ensures { result ≡ carries byte }
{
    match byte {
        0x80..=0xbf => Some(byte as u32 - 0x80),
        _ => None,
    }
}

// A code point and the length of its form.
#[derive(Clone, Copy)]
struct CodePoint {
    code: u32,
    len: usize,
}

// The code point below U+10000 whose form is at the front. The first byte is not below 0x80.
fn decode(s: &[u8]) -> Option<CodePoint>
    requires { 0x80 ≤ get_or s.now 0 0 }
    ensures { Decoded s.now result }
{
    if s[0] < 0xe0 {
        return decode_two(s);
    }
    decode_three(s)
}

// The same, where the first byte is that of a form of two bytes or of none: 0xc0 and 0xc1 begin overlong ones alone.
fn decode_two(s: &[u8]) -> Option<CodePoint>
    requires { (0x80 ≤ get_or s.now 0 0) × (get_or s.now 0 0 < 0xe0) }
    ensures { Decoded s.now result }
{
    if s.len() < 2 || s[0] < 0xc2 {
        return None;
    }
    let b = carried(s[1])?;
    let code = (s[0] as u32 - 0xc0) * 64 + b;
    Some(CodePoint { code, len: 2 })
}

// The same, where the first byte is that of a form of three bytes or of none. What is below U+0800 is overlong.
fn decode_three(s: &[u8]) -> Option<CodePoint>
    requires { 0xe0 ≤ get_or s.now 0 0 }
    ensures { Decoded s.now result }
{
    if s.len() < 3 || s[0] > 0xef {
        return None;
    }
    let b = carried(s[1])?;
    let c = carried(s[2])?;
    let code = (s[0] as u32 - 0xe0) * 4096 + b * 64 + c;
    if code < 0x800 {
        return None;
    }
    Some(CodePoint { code, len: 3 })
}

// The length of the form at the front, whose first byte is not below 0x80; 0 where none is there.
fn white_len_wide(s: &[u8]) -> usize
    requires { 0x80 ≤ get_or s.now 0 0 }
    ensures { result ≡ form_at s.now }
{
    let Some(point) = decode(s) else {
        return 0;
    };
    if is_among(point.code, BYTES, 25) {
        return point.len;
    }
    0
}

// The length of the form at the front; 0 where none is there.
pub fn white_len(s: &[u8]) -> usize
    ensures { result ≡ form_at s.now }
{
    if s.len() < 1 {
        return 0;
    }
    let a = s[0];
    if a >= 0x80 {
        return white_len_wide(s);
    }
    if is_among(a as u32, 0, BYTES) {
        return 1;
    }
    0
}

// Whether the last `k` bytes, two or more, are a form.
fn is_white_last(s: &[u8], k: usize) -> bool
    requires { 2 ≤ k }
    ensures { result ≡ last_form k s.now }
{
    let n = s.len();
    if n < k {
        return false;
    }
    if s[n - k] < 0x80 {
        return false;
    }
    white_len_wide(&s[n - k..]) == k
}

// The length of the form at the end; 0 where none is there. Only a form of one byte ends in a byte below 0x80.
pub fn white_len_last(s: &[u8]) -> usize
    ensures { result ≡ form_end s.now }
{
    let n = s.len();
    if n < 1 {
        return 0;
    }
    if s[n - 1] < 0x80 {
        return white_len(&s[n - 1..]);
    }
    if is_white_last(s, 2) {
        return 2;
    }
    if is_white_last(s, 3) {
        return 3;
    }
    0
}

// Whether a byte is above the space and below 0x80: no form begins or ends with it.
fn is_graphic(byte: u8) -> bool
    ensures { result ≡ graphic byte }
{
    (b' ' < byte) & (byte < 0x80)
}

// How many bytes of forms are at the front.
pub fn trim_start(s: &[u8]) -> usize
    ensures { result ≡ length s.now - length (trim_start s.now) }
{
    let mut at = 0;
    while at < s.len() {
        if is_graphic(s[at]) {
            return at;
        }
        let k = white_len(&s[at..]);
        if k == 0 {
            return at;
        }
        at += k;
    }
    at
}

// How many bytes are left without the forms at the end.
pub fn trim_end(s: &[u8]) -> usize
    ensures { result ≡ length (trim_end s.now) }
{
    let mut end = s.len();
    while end > 0 {
        if is_graphic(s[end - 1]) {
            return end;
        }
        let k = white_len_last(&s[..end]);
        if k == 0 {
            return end;
        }
        end -= k;
    }
    0
}

// The part without the forms at both ends; where nothing is left, the empty part at the front.
pub fn trim(s: &[u8]) -> Part
    ensures { (result.start ≡ trim_at s.now) × (result.end ≡ trim_at s.now + length (trim s.now)) }
{
    let start = trim_start(s);
    let kept = trim_end(&s[start..]);
    if kept == 0 {
        return Part { start: 0, end: 0 };
    }
    Part {
        start,
        end: start + kept,
    }
}

// Whether an input begins and ends with a graphic byte.
fn is_solid(s: &[u8]) -> bool
    ensures { result ≡ solid s.now }
{
    let n = s.len();
    if n < 1 {
        return false;
    }
    is_graphic(s[0]) & is_graphic(s[n - 1])
}

// The same part as `trim`'s, for a title or a message: of most titles nothing goes.
pub fn trim_text(s: &[u8]) -> Part
    ensures { (result.start ≡ trim_at s.now) × (result.end ≡ trim_at s.now + length (trim s.now)) }
{
    if is_solid(s) {
        return Part {
            start: 0,
            end: s.len(),
        };
    }
    trim(s)
}

// Whether an input is as people write a value: a space before a graphic byte, and an LF after one.
fn is_plain(s: &[u8]) -> bool
    ensures { result ≡ plain s.now }
{
    let n = s.len();
    if n < 3 {
        return false;
    }
    (s[0] == b' ') & is_graphic(s[1]) & is_graphic(s[n - 2]) & (s[n - 1] == b'\n')
}

// The same part as `trim`'s, for a value or a line of one: one look is enough for most of them.
pub fn trim_value(s: &[u8]) -> Part
    ensures { (result.start ≡ trim_at s.now) × (result.end ≡ trim_at s.now + length (trim s.now)) }
{
    if is_plain(s) {
        return Part {
            start: 1,
            end: s.len() - 1,
        };
    }
    trim(s)
}
