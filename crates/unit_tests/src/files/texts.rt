// Tests of texts for facts that no clause shows: a writer's fault is reported, nothing is written
// to the writer after a fault, and a text takes a certain number of writes.

use std::alloc::Global;
use std::io::{self, ErrorKind, Write};
use std::test::Fail;
use text_output::{LINE, OutputBuffer, WriteFault, write_name};

/// A writer that accepts a number of writes, and fails at each write after them.
#[derive(Drop)]
struct Counted {
    held: Vec<u8>,
    left: usize,
    calls: usize,
}

impl Write for Counted {
    fn write(&mut self, buf: &[u8]) -> io::Result<usize> {
        self.calls = self.calls.saturating_add(1);
        if self.left == 0 {
            return Err(io::Error::from(ErrorKind::StorageFull));
        }
        self.left -= 1;
        self.held.extend_from_slice(buf)?;
        Ok(buf.len())
    }

    fn flush(&mut self) -> io::Result<()> {
        Ok(())
    }
}

fn writer_of(alloc: Global, left: usize) -> Counted {
    Counted {
        held: Vec::new(alloc),
        left,
        calls: 0,
    }
}

const BYTES: [u8; 17] = *b"\x00\x01\x09\x0a\x0f\x10\x19\x1a\x7f\x80\x99\x9a\xa0\xf9\xfe\xff0";

/// The line of a segment, and the lines of its bytes.
const SEGMENT: &[u8] =
    b"segment 0x0000000000010000 400 rw-\n0001090a0f10191a7f80999aa0f9feff\n30\n";

/// Puts the line and the bytes of a segment after the waiting bytes `waiting`.
fn put_segment(
    buffer: &mut OutputBuffer<64>,
    out: &mut Counted,
    waiting: &[u8],
) -> Result<(), WriteFault> {
    buffer.put(out, waiting)?;
    buffer.put(out, b"segment 0x")?;
    buffer.put_address(out, 0x10000)?;
    buffer.put(out, b" ")?;
    buffer.put_decimal(out, 400)?;
    buffer.put(out, b" rw-\n")?;
    buffer.put_hex_lines(out, &BYTES)?;
    buffer.send(out)
}

/// Puts a segment after the bytes `waiting`, with at most three writes. Returns the number of
/// written bytes, whether they begin with `waiting`, and whether they end with the segment's text.
fn segment_behind(alloc: Global, waiting: &[u8]) -> Result<(usize, bool, bool), WriteFault> {
    let mut out = writer_of(alloc, 3);
    let mut buffer = OutputBuffer::<64>::new();
    put_segment(&mut buffer, &mut out, waiting)?;
    Ok((
        out.held.len(),
        out.held.starts_with(waiting),
        out.held.ends_with(SEGMENT),
    ))
}

// Puts the line and the bytes of a segment after 0 to 64 waiting bytes, in a buffer of 64 bytes. So
// the buffer becomes full at each offset of the line.
#[test]
fn a_full_buffer_at_each_place_of_a_line(rt: HostRuntime) -> Result<(), Fail> {
    let filler = [b'-'; 65];
    for waiting in 0..65 {
        let seen = segment_behind(rt.alloc(), &filler[..waiting])?;
        assert!(rt;
            seen == (waiting + SEGMENT.len(), true, true),
            "behind {waiting}"
        );
    }
    Ok(())
}

/// Each row has the length of a name, and the number of writes that the name takes.
const WRITES: [(usize, usize); 5] = [(0, 1), (1, 1), (240, 1), (LINE / 4, 1), (LINE / 4 + 1, 2)];

/// Returns the number of writes that a name takes. The writer accepts `room` writes.
fn writes_of_name(alloc: Global, name: &[u8], room: usize) -> Result<usize, WriteFault> {
    let mut out = writer_of(alloc, room);
    write_name(&mut out, name)?;
    Ok(out.calls)
}

#[test]
fn a_line_goes_out_with_one_write(rt: HostRuntime) -> Result<(), Fail> {
    let name = [b' '; LINE / 4 + 1];
    for &(length, writes) in &WRITES {
        let name = &name[..length.min(name.len())];
        let seen = (name.len(), writes_of_name(rt.alloc(), name, writes)?);
        assert!(rt; seen == (length, writes));
    }
    Ok(())
}

/// Returns the effects of a writer that accepts `writes` writes: whether each of three calls fails,
/// and the numbers of bytes and of calls that the writer gets.
fn failing(alloc: Global, writes: usize) -> ([bool; 3], usize, usize) {
    let mut out = writer_of(alloc, writes);
    let mut buffer = OutputBuffer::<64>::new();
    let lines = buffer.put_hex_lines(&mut out, &[0; 300]).is_err();
    let held = out.held.len();
    let sent = buffer.send(&mut out).is_err();
    let put = buffer.put(&mut out, &[b'-'; 65]).is_err();
    ([lines, sent, put], held, out.calls)
}

// If any write fails, the call reports the failure, and the writer gets nothing more.
#[test]
fn a_writer_that_fails_gets_nothing_more(rt: HostRuntime) {
    let alloc = rt.alloc();
    for writes in 0..10 {
        assert!(rt; failing(alloc, writes) == ([true; 3], 33 * writes, writes + 1));
    }
    let mut out = writer_of(alloc, 0);
    let fails = write_name(&mut out, b"name").is_err();
    assert!(rt; (fails, out.calls) == (true, 1));
}

#[test]
fn a_text_longer_than_the_buffer_goes_out_whole(rt: HostRuntime) -> Result<(), Fail> {
    let alloc = rt.alloc();
    let text = [b'.'; 1000];
    let mut out = writer_of(alloc, 16);
    let mut buffer = OutputBuffer::<64>::new();
    buffer.put(&mut out, &text)?;
    buffer.send(&mut out)?;
    assert!(rt; out.held.as_slice() == text.as_slice());
    Ok(())
}
