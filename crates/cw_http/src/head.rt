//! What the lines of a head tell.
ghost use Rattle.std.specs.Prelude.{◌≡◌, ◌==◌, ◌-◌, count_by, position, length, IfSome};
ghost use Rattle.cw_http.specs.Head.{without_return, first_line, is_other_version, marks_other_version};
ghost use Rattle.cw_http.specs.Head.{has_other_version, refusal_of_lines};
ghost use Rattle.cw_http.specs.Kept.{IsRefusalCode};

// How many lines end.
fn line_ends(head: &[u8]) -> usize
    ensures { result ≡ count_by (λ c. c == 10) head.now }
{
    head.iter().filter(|byte| **byte == b'\n').count()
}

// A line without the CR at its end.
fn without_return(line: &[u8]) -> &[u8]
    ensures { result.now ≡ without_return line.now }
{
    let end = line.len().saturating_sub(1);
    if end < line.len() && line[end] == b'\r' {
        &line[..end]
    } else {
        line
    }
}

// Where the first line ends.
fn first_end(head: &[u8]) -> Option<usize>
    ensures { result ≡ position (λ c. c == 10) head.now }
{
    head.iter().position(|byte| *byte == b'\n')
}

// The first line, without its line end.
fn first_line(head: &[u8]) -> &[u8]
    ensures { result.now ≡ first_line head.now }
{
    match first_end(head) {
        Some(at) => without_return(&head[..at]),
        None => without_return(head),
    }
}

// Whether a text is a version other than 1.0 and 1.1.
fn is_other_version(text: &[u8]) -> bool
    ensures { result ≡ is_other_version text.now }
{
    match text {
        [major, point, minor] => {
            major.is_ascii_digit()
                && *point == b'.'
                && minor.is_ascii_digit()
                && !(*major == b'1' && (*minor == b'0' || *minor == b'1'))
        }
        _ => false,
    }
}

// Whether nine bytes are the mark of such a version.
fn marks_other_version(mark: &[u8]) -> bool
    requires { length mark.now ≡ 9 }
    ensures { result ≡ marks_other_version mark.now }
{
    let (front, version) = mark.split_at(6);
    front == b" HTTP/".as_slice() && is_other_version(version)
}

// Whether a line ends with such a mark.
fn has_other_version(line: &[u8]) -> bool
    ensures { result ≡ has_other_version line.now }
{
    if line.len() < 9 {
        return false;
    }
    marks_other_version(&line[line.len() - 9..])
}

// The refusal by the lines of a head, if there is one.
pub(crate) fn refusal_of_lines(head: &[u8]) -> Option<u16>
    ensures refusal { result ≡ refusal_of_lines head.now }
    ensures code { IfSome result IsRefusalCode }
{
    if line_ends(head).saturating_sub(2) > 64 {
        return Some(431);
    }
    if has_other_version(first_line(head)) {
        return Some(505);
    }
    None
}
