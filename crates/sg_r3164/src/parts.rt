// The parts of a record, each by the bytes that it takes at the front of a text.
ghost use Rattle.std.specs.Prelude.{◌≡◌, ◌+◌, ◌≤◌, ◌<◌, length, IfSome};
ghost use Rattle.std.specs.Option.{ForSome};
ghost use Rattle.std.specs.List.{prefix_len};
ghost use Rattle.sg_r3164.specs.Parts.{is_host_byte, is_program_byte, is_pid_byte, past, host_len, pid_tag, tag};

use sg_msg::{has_at, is_print};

/// What the tag of a record takes.
#[derive(Clone, Copy, PartialEq, Eq, Drop)]
pub(crate) struct Tag {
    /// The length of the program's name, which stands first.
    pub(crate) program: usize,
    /// The length of the process id, which stands behind the name and a bracket.
    pub(crate) pid: Option<usize>,
    /// The length of the tag, with the colon and the space that may end it.
    pub(crate) len: usize,
}

fn is_host_byte(byte: u8) -> bool
    ensures { result ≡ is_host_byte byte }
{
    is_print(byte) && byte != b'['
}

fn is_program_byte(byte: u8) -> bool
    ensures { result ≡ is_program_byte byte }
{
    is_print(byte) && byte != b':' && byte != b'['
}

fn is_pid_byte(byte: u8) -> bool
    ensures { result ≡ is_pid_byte byte }
{
    is_print(byte) && byte != b']'
}

fn host_run(text: &[u8]) -> usize
    ensures value { result ≡ prefix_len is_host_byte text.now }
    ensures within { result ≤ length text.now }
{
    text.iter().take_while(|byte| is_host_byte(**byte)).count()
}

fn program_run(text: &[u8]) -> usize
    ensures value { result ≡ prefix_len is_program_byte text.now }
    ensures within { result ≤ length text.now }
{
    text.iter()
        .take_while(|byte| is_program_byte(**byte))
        .count()
}

fn pid_run(text: &[u8]) -> usize
    ensures value { result ≡ prefix_len is_pid_byte text.now }
    ensures within { result ≤ length text.now }
{
    text.iter().take_while(|byte| is_pid_byte(**byte)).count()
}

// The place behind the byte, where it stands at this place, and else this place.
pub(crate) fn past(text: &[u8], place: usize, byte: u8) -> usize
    requires { place ≤ length text.now }
    ensures value { result ≡ past text.now place byte }
    ensures within { (place ≤ result) × (result ≤ length text.now) }
{
    if has_at(text, place, byte) {
        place + 1
    } else {
        place
    }
}

// The length of the host at the front, behind which a space stands.
pub(crate) fn host_len(text: &[u8]) -> Option<usize>
    ensures value { result ≡ host_len text.now }
    ensures within { IfSome result (λ len. len + 1 ≤ length text.now) }
{
    let len = host_run(text);
    if len == 0 || !has_at(text, len, b' ') || text[len - 1] == b':' {
        return None;
    }
    Some(len)
}

fn pid_tag(text: &[u8], program: usize) -> Option<Tag>
    requires { program < length text.now }
    ensures value { result ≡ pid_tag text.now program }
    ensures program { IfSome result (λ tag. tag.program ≡ program) }
    ensures pid { IfSome result
        (λ tag. ForSome tag.pid (λ pid. program + 1 + pid ≤ length text.now)) }
    ensures len { IfSome result (λ tag. tag.len ≤ length text.now) }
{
    let pid = pid_run(&text[program + 1..]);
    let end = program + 1 + pid;
    if pid == 0 || !has_at(text, end, b']') {
        return None;
    }
    let colon = past(text, end + 1, b':');
    Some(Tag {
        program,
        pid: Some(pid),
        len: past(text, colon, b' '),
    })
}

// The tag at the front.
pub(crate) fn find_tag(text: &[u8]) -> Option<Tag>
    ensures value { result ≡ tag text.now }
    ensures program { IfSome result (λ tag. tag.program ≤ length text.now) }
    ensures pid { IfSome result
        (λ tag. ForSome tag.pid (λ pid. tag.program + 1 + pid ≤ length text.now)) }
    ensures len { IfSome result (λ tag. tag.len ≤ length text.now) }
{
    let program = program_run(text);
    if program == 0 {
        return None;
    }
    if has_at(text, program, b':') {
        return Some(Tag {
            program,
            pid: None,
            len: past(text, program + 1, b' '),
        });
    }
    if !has_at(text, program, b'[') {
        return None;
    }
    pid_tag(text, program)
}
