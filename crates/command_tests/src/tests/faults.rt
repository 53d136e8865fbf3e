//! Calls of which one read or write fails, and hostile texts.
use super::replays::{JOIN_AND_PACKET, N2, STREAM};
use super::*;

// A plan in which the call of this number fails, counted from 0.
fn one_fails(alloc: Global, number: u64) -> Result<FaultPlan, AllocError> {
    let mut failing = Vec::new(alloc);
    failing.push(number)?;
    Ok(FaultPlan::new(failing))
}

// What `check` writes of a program where each write takes so many bytes and the one of this number fails, and its status.
fn checked(alloc: Global, program: &[u8], most: usize, number: u64) -> Result<(Vec<u8>, u8), Fail> {
    let words = words_of(alloc, &["check", "p"])?;
    let mut files = files_with(alloc, &[program])?;
    let mut out = MemSink::new(alloc, most.max(1), one_fails(alloc, number)?);
    let status = check_call(alloc, &words, &mut files, &mut out);
    Ok((out.bytes().to_vec(alloc)?, status))
}

// Whatever write fails, a front of the answer is written; and there are so many writes.
fn writes_fail(
    rt: &impl Abort,
    alloc: Global,
    whole: &[u8],
    most: usize,
    count: u64,
) -> Result<(), Fail> {
    for number in 0..count {
        let (text, status) = checked(alloc, ONE, most, number)?;
        assert_eq!(rt; status, 8);
        assert_eq!(rt; text.len() as u64, number.saturating_mul(most as u64));
        assert!(rt; whole.starts_with(text.as_slice()));
    }
    let (text, status) = checked(alloc, ONE, most, count)?;
    assert_eq!(rt; status, 1);
    assert_eq!(rt; text.as_slice(), whole);
    Ok(())
}

#[test]
fn each_write_may_fail(rt: HostRuntime) -> Result<(), Fail> {
    let alloc = rt.alloc();
    let (whole, _) = answer(alloc, &["check", "p"], &[ONE])?;
    let length = whole.len() as u64;
    writes_fail(&rt, alloc, &whole, 1, length)?;
    writes_fail(&rt, alloc, &whole, 7, length.div_ceil(7))?;
    writes_fail(&rt, alloc, &whole, 4096, 1)
}

/// The words of a call and what its files hold, and the line and the status where the first read fails, the second, and so on.
type Reads = (
    &'static [&'static str],
    &'static [&'static [u8]],
    &'static [&'static [u8]],
);

const READS: &[Reads] = &[
    (
        &["trace", "p", "n", "j"],
        &[
            FIREWALL,
            N2,
            b"vericon-journal 1\npacket 0 1 1 1 2 1\nflow 1 1 2 1 2\nend\n",
        ],
        &[b"read fault p\n", b"read fault n\n", b"read fault j\n"],
    ),
    (
        &["replay", "p", "n", "j", "1", "s"],
        &[FIREWALL, N2, JOIN_AND_PACKET, STREAM],
        &[
            b"read fault p\n",
            b"read fault n\n",
            b"read fault j\n",
            b"read fault s\n",
        ],
    ),
];

// What a call says where the read of this number fails.
fn read_fails(alloc: Global, row: &Reads, number: u64) -> Result<(Vec<u8>, u8), Fail> {
    let words = words_of(alloc, row.0)?;
    let mut files = MemFiles::new(alloc, one_fails(alloc, number)?, FaultPlan::none(alloc));
    for (name, bytes) in ["p", "n", "j", "s"].iter().zip(row.1) {
        files.write_all(alloc, name, bytes)?;
    }
    let mut out = MemSink::new(alloc, 4096, FaultPlan::none(alloc));
    let status = check_call(alloc, &words, &mut files, &mut out);
    Ok((out.bytes().to_vec(alloc)?, status))
}

#[test]
fn each_read_may_fail(rt: HostRuntime) -> Result<(), Fail> {
    for row in READS {
        for (number, line) in row.2.iter().enumerate() {
            let (text, status) = read_fails(rt.alloc(), row, number as u64)?;
            assert_eq!(rt; text.as_slice(), *line);
            assert_eq!(rt; status, 5);
        }
        let (_, status) = read_fails(rt.alloc(), row, row.2.len() as u64)?;
        assert_eq!(rt; status, 0);
    }
    Ok(())
}

#[test]
fn a_program_may_be_parentheses_alone(rt: HostRuntime) -> Result<(), Fail> {
    let mut text = Vec::new(rt.alloc());
    for _ in 0..65_536u32 {
        text.push(b'(')?;
    }
    let (line, status) = answer(rt.alloc(), &["check", "p"], &[&text])?;
    assert_eq!(rt; line.as_slice(), b"p refused at 0: Unexpected\n".as_slice());
    assert_eq!(rt; status, 3);
    Ok(())
}

/// What is said of a journal that is refused at its first line, at the second, and so on.
const LINES: &[&[u8]] = &[
    b"j refused line 1\n",
    b"j refused line 2\n",
    b"j refused line 3\n",
    b"j refused line 4\n",
    b"j refused line 5\n",
];

// Where a journal is refused that is cut behind so many bytes, counted from 0: at the line that is cut, and at the line behind it
// where that one is whole and lacks its end alone.
fn refused_line(journal: &[u8], length: usize) -> usize {
    let front = &journal[..length.min(journal.len())];
    let mut lines = 0usize;
    for byte in front {
        if *byte == b'\n' {
            lines = lines.saturating_add(1);
        }
    }
    let is_whole = journal.get(length) == Some(&b'\n') && front.last() != Some(&b'\n');
    lines.saturating_add(usize::from(is_whole && length > 0))
}

#[test]
fn a_journal_may_be_cut(rt: HostRuntime) -> Result<(), Fail> {
    let alloc = rt.alloc();
    let words = ["trace", "p", "n", "j"];
    let (whole, _) = answer(alloc, &words, &[FIREWALL, N2, JOIN_AND_PACKET])?;
    for length in 0..JOIN_AND_PACKET.len() {
        let cut = &JOIN_AND_PACKET[..length];
        let (text, status) = answer(alloc, &words, &[FIREWALL, N2, cut])?;
        // the last line may lack its end
        if length + 1 == JOIN_AND_PACKET.len() {
            assert_eq!(rt; text.as_slice(), whole.as_slice());
            assert_eq!(rt; status, 0);
        } else {
            let line = refused_line(JOIN_AND_PACKET, length);
            assert_eq!(rt; Some(text.as_slice()), LINES.get(line).copied());
            assert_eq!(rt; status, 3);
        }
    }
    Ok(())
}
