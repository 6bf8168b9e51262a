//! The script that is swept.
use std::alloc::{AllocError, Global};

// A source of one feed.
const SOURCE: &str =
    "rest 0 POST /connectors {\"name\":\"a\",\"config\":{\"connector.class\":\"FileStreamSource\",\"file\":\
\"orders\",\"topic\":\"t\",\"batch.size\":\"2\"}}\n";

// A sink of its topic.
const SINK: &str =
    "rest 0 POST /connectors {\"name\":\"b\",\"config\":{\"connector.class\":\"FileStreamSink\",\"file\":\"o\",\
\"topics\":\"t\"}}\n";

// The source's offset is set.
const ALTERATION: &str =
    "rest 0 PATCH /connectors/a/offsets {\"offsets\":[{\"partition\":{\"filename\":\"orders\"},\"offset\":\
{\"position\":4}}]}\n";

// The pieces of the script, and how many times each stands there.
const PIECES: [(&str, u32); 24] = [
    ("spawn\n", 1),
    ("settle 1\n", 5),
    ("init 0\ncommit 0 1 0 5 1 7\ninit 0\n", 1),
    (SOURCE, 1),
    ("settle 1\n", 34),
    (SINK, 1),
    ("settle 1\n", 26),
    ("compact offsets\n", 1),
    ("rest 0 PUT /connectors/a/stop\n", 1),
    ("settle 1\n", 10),
    (ALTERATION, 1),
    ("compact config\ncompact status\n", 1),
    ("rest 0 PUT /connectors/a/resume\n", 1),
    ("settle 1\n", 31),
    ("compact config\ncompact offsets\ncompact status\n", 1),
    ("rest 0 PUT /connectors/b/pause\n", 1),
    ("settle 1\n", 3),
    ("rest 0 PUT /connectors/a/stop\n", 1),
    ("settle 1\n", 10),
    ("rest 0 DELETE /connectors/a/offsets\n", 1),
    ("rest 0 DELETE /connectors/b\n", 1),
    ("settle 1\n", 7),
    ("compact config\ncompact offsets\ncompact status\n", 1),
    ("settle 1\n", 1),
];

/// A producer commits. A source is read to its end beside a sink, its offset is altered, it is read again, and its
/// offset is reset; the sink is paused and deleted; and logs are compacted. Each line makes at most one event that is
/// written.
pub(crate) fn swept_script(alloc: Global) -> Result<Vec<u8>, AllocError> {
    let mut text = Vec::new(alloc);
    for (piece, times) in PIECES {
        add(&mut text, piece, times)?;
    }
    Ok(text)
}

// Puts a piece of the script behind it so many times.
fn add(text: &mut Vec<u8>, piece: &str, times: u32) -> Result<(), AllocError> {
    for _ in 0..times {
        text.extend_from_slice(piece.as_bytes())?;
    }
    Ok(())
}

/// How many lines a text has.
pub(crate) fn count_of_lines(text: &[u8]) -> usize {
    text.iter().filter(|byte| **byte == b'\n').count()
}

/// The first lines of a text.
pub(crate) fn first_lines(alloc: Global, text: &[u8], count: usize) -> Result<Vec<u8>, AllocError> {
    let mut lines = Vec::new(alloc);
    let mut left = count;
    for byte in text {
        if left == 0 {
            break;
        }
        lines.push(*byte)?;
        if *byte == b'\n' {
            left -= 1;
        }
    }
    Ok(lines)
}
