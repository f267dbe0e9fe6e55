// Where the events of a log file begin and end.
ghost use Rattle.std.specs.Prelude.{◌≡◌};
ghost use Rattle.logfile.specs.Frames.{framed, cut_at};

// An event's length stands in front of it, low byte first.
pub const LENGTH_BYTES: usize = 4;

// The longest event that means anything, and a byte: with them the answer to a longer one is decided.
pub const KEPT_BYTES: usize = 262_228;

// The event that bytes begin with: how many of its bytes are kept, and how many after them are passed over.
#[derive(Clone, Copy, Debug, PartialEq, Eq)]
pub struct Frame {
    pub kept: usize,
    pub passed: usize,
}

// Bytes too few for the event that they begin: with its length it needs at least so many.
#[derive(Clone, Copy, Debug, PartialEq, Eq)]
pub struct Short {
    pub wanted: usize,
}

pub fn frame_at(bytes: &[u8]) -> Result<Frame, Short>
    ensures { result ≡ framed bytes.now }
{
    let length = bytes.first_chunk().ok_or(Short {
        wanted: LENGTH_BYTES,
    })?;
    // `as`: usize has no From<u32>
    let len = u32::from_le_bytes(*length) as usize;
    let kept = len.min(KEPT_BYTES);
    let wanted = LENGTH_BYTES + kept;
    if bytes.len() < wanted {
        return Err(Short { wanted });
    }
    Ok(Frame {
        kept,
        passed: len - kept,
    })
}

// How many bytes an event has that the file's end cuts short after these, or none where it ends before an event.
pub fn cut_at(bytes: &[u8]) -> Option<usize>
    ensures { result ≡ cut_at bytes.now }
{
    if bytes.is_empty() {
        return None;
    }
    Some(bytes.len().saturating_sub(LENGTH_BYTES))
}

#[cfg(test)]
mod tests {
    use super::*;

    #[test]
    fn frames_are_told(rt: HostRuntime) {
        assert_eq!(rt; frame_at(b"\x02\x00\x00"), Err(Short { wanted: 4 }));
        assert_eq!(rt; frame_at(b"\x02\x00\x00\x00a"), Err(Short { wanted: 6 }));
        assert_eq!(rt;
            frame_at(b"\x02\x00\x00\x00abc"),
            Ok(Frame { kept: 2, passed: 0 })
        );
        assert_eq!(rt;
            frame_at(b"\x00\x00\x00\x01a"),
            Err(Short { wanted: 262_232 })
        );
        assert_eq!(rt; cut_at(b""), None);
        assert_eq!(rt; cut_at(b"\x02\x00"), Some(0));
        assert_eq!(rt; cut_at(b"\x02\x00\x00\x00a"), Some(1));
    }
}
