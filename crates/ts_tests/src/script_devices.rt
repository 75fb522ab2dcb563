//! Scripts over devices that transfer bytes in pieces or fail: a script with a run of retention, and the output of each
//! line.

use std::alloc::{AllocError, Global};
use std::test::Fail;
use ts_core::{Sink, Source};
use ts_script::{RunFault, run, run_within};
use ts_testkit::{Failure, NEVER, PieceReader, PieceWriter, fixed_seed};

/// The lines of the script, and the output of each.
const SCRIPT: [(&str, &str); 11] = [
    (
        "settings {\"raw\":\"2m\",\"rules\":[{\"name\":\"m1\",\"measurement\":\"cpu\",\"interval\":\"1m\",\"offset\":\"0s\",\"keep\":[\"host\"],\"duration\":\"INF\"}]}\n",
        "",
    ),
    ("precision s\n", ""),
    ("write cpu,host=a v=5i 10\n", "ok\n"),
    ("write cpu,host=a v=7i 70\n", "ok\n"),
    ("write cpu,host=b v=1i 70\n", "ok\n"),
    ("at 200s\n", ""),
    ("retain\n", "marks 80000000000 m1=-153722868\n"),
    ("live\n", "0\n"),
    ("write cpu,host=a v=1i 79\n", "fault 51 mark 80000000000\n"),
    (
        "query SELECT COUNT(v),SUM(v) FROM cpu WHERE time >= 0 AND time < 180s GROUP BY time(1m)\n",
        "{\"results\":[{\"series\":[{\"columns\":[\"time\",\"count\",\"sum\"],\"name\":\"cpu\",\"values\":[[\"1970-01-01T00:00:00Z\",1,5],[\"1970-01-01T00:01:00Z\",2,8],[\"1970-01-01T00:02:00Z\",0,null]]}],\"statement_id\":0}]}\n",
    ),
    (
        "explain SELECT COUNT(v),SUM(v) FROM cpu WHERE time >= 0 AND time < 180s GROUP BY time(1m)\n",
        "{\"results\":[{\"cert\":\"plan 1\\nrollup m1 0 120000000000\\nraw 120000000000 180000000000\\nend\\n\",\"statement_id\":0}]}\n",
    ),
];

/// The script's bytes, and its output.
#[derive(Drop)]
struct Texts {
    script: Vec<u8>,
    output: Vec<u8>,
}

impl Texts {
    /// Appends the lines, and the output of each.
    fn append(&mut self) -> Result<(), AllocError> {
        for (line, output) in &SCRIPT {
            self.script.extend_from_slice(line.as_bytes())?;
            self.output.extend_from_slice(output.as_bytes())?;
        }
        Ok(())
    }

    /// Returns both; none when out of memory.
    fn new(alloc: Global) -> Option<Texts> {
        let mut texts = Texts {
            script: Vec::new(alloc),
            output: Vec::new(alloc),
        };
        if texts.append().is_ok() {
            Some(texts)
        } else {
            None
        }
    }

    /// Returns the output of the lines within the first `read` bytes.
    fn output_to(&self, read: usize) -> Option<&[u8]> {
        let mut end: usize = 0;
        let mut written: usize = 0;
        for (line, output) in &SCRIPT {
            end = end.saturating_add(line.len());
            if end <= read {
                written = written.saturating_add(output.len());
            }
        }
        self.output.get(..written)
    }
}

/// A run of a script: its result, and its devices after it.
#[derive(Drop)]
struct Played<'a> {
    result: Result<(), RunFault>,
    reader: PieceReader<'a>,
    writer: PieceWriter,
}

impl<'a> Played<'a> {
    /// Returns true if exactly these bytes are written.
    fn has_written(&self, bytes: Option<&[u8]>) -> bool {
        Some(self.writer.written.as_slice()) == bytes
    }
}

/// Runs a script with at most `reads` reads, or with the usual limit.
fn run_up_to(
    alloc: Global,
    source: &mut Source<PieceReader<'_>>,
    sink: &mut Sink<PieceWriter>,
    reads: Option<u64>,
) -> Result<(), RunFault> {
    let Some(seed) = fixed_seed() else {
        return Err(RunFault::OutOfMemory);
    };
    match reads {
        Some(reads) => run_within(alloc, seed, source, sink, reads),
        None => run(alloc, seed, source, sink),
    }
}

/// Runs a script; returns its devices, too.
fn play<'a>(
    alloc: Global,
    reader: PieceReader<'a>,
    writer: PieceWriter,
    reads: Option<u64>,
) -> Played<'a> {
    let mut source = Source::new(reader);
    let mut sink = Sink::new(writer);
    let result = run_up_to(alloc, &mut source, &mut sink, reads);
    Played {
        result,
        reader: source.into_inner(),
        writer: sink.into_inner(),
    }
}

/// Runs a script of which `piece` bytes are read at a time, to a writer that accepts all bytes.
fn play_all(
    alloc: Global,
    script: &[u8],
    piece: usize,
    fails_at: usize,
    reads: Option<u64>,
) -> Played<'_> {
    let reader = PieceReader::new(script, piece, fails_at);
    let writer = PieceWriter::new(Vec::new(alloc), NEVER, NEVER, Failure::Error);
    play(alloc, reader, writer, reads)
}

/// Returns true if a failed read ends the run: nothing is read after it, and the output of the lines before it is
/// written.
fn stops_at_read(alloc: Global, texts: &Texts, piece: usize, call: usize) -> bool {
    let played = play_all(alloc, &texts.script, piece, call, None);
    matches!(played.result, Err(RunFault::Reader))
        && played.reader.calls == call.saturating_add(1)
        && played.has_written(texts.output_to(call.saturating_mul(piece)))
}

/// Returns the first of the reads of `piece` bytes that doesn't end the run if it fails.
fn first_wrong_read(alloc: Global, texts: &Texts, piece: usize) -> Option<usize> {
    // one call more than there are pieces: it sees the end
    for call in 0..=texts.script.len().div_ceil(piece.max(1)) {
        if !stops_at_read(alloc, texts, piece, call) {
            return Some(call);
        }
    }
    None
}

#[test]
fn a_failed_read_stops_a_script(rt: HostRuntime) -> Result<(), Fail> {
    let texts = Texts::new(rt.alloc()).ok_or("no texts")?;
    for piece in [1, 7, 100, 1_000] {
        assert_eq!(rt;
            first_wrong_read(rt.alloc(), &texts, piece),
            None,
            "{piece}"
        );
    }
    Ok(())
}

/// Returns true if a failed write ends the run, when exactly the bytes before it are written.
fn stops_at_write(
    alloc: Global,
    texts: &Texts,
    piece: usize,
    call: usize,
    failure: Failure,
) -> bool {
    let reader = PieceReader::new(&texts.script, piece, NEVER);
    let writer = PieceWriter::new(Vec::new(alloc), 1, call, failure);
    let played = play(alloc, reader, writer, None);
    matches!(played.result, Err(RunFault::Writer))
        && played.writer.calls == call.saturating_add(1)
        && played.has_written(texts.output.get(..call))
}

/// Returns the first of the writes that doesn't end the run if it fails.
fn first_wrong_write(alloc: Global, texts: &Texts, piece: usize) -> Option<usize> {
    for call in 0..texts.output.len() {
        if !stops_at_write(alloc, texts, piece, call, Failure::Error)
            || !stops_at_write(alloc, texts, piece, call, Failure::Nothing)
        {
            return Some(call);
        }
    }
    None
}

#[test]
fn a_failed_write_stops_a_script(rt: HostRuntime) -> Result<(), Fail> {
    let texts = Texts::new(rt.alloc()).ok_or("no texts")?;
    for piece in [1, 1_000] {
        assert_eq!(rt;
            first_wrong_write(rt.alloc(), &texts, piece),
            None,
            "{piece}"
        );
    }
    Ok(())
}

/// Returns true if a script that is read byte by byte hasn't ended within `reads` reads, and its lines up to there are
/// answered.
fn runs_out_of_reads(alloc: Global, texts: &Texts, reads: usize) -> bool {
    let played = play_all(alloc, &texts.script, 1, NEVER, Some(reads as u64));
    matches!(played.result, Err(RunFault::TooManyReads))
        && played.reader.calls == reads
        && played.has_written(texts.output_to(reads))
}

/// Returns the least number of reads, of up to the script's length, that doesn't run out.
fn first_enough(alloc: Global, texts: &Texts) -> Option<usize> {
    for reads in 0..=texts.script.len() {
        if !runs_out_of_reads(alloc, texts, reads) {
            return Some(reads);
        }
    }
    None
}

/// Returns true if a script that is read byte by byte ends within one read more than it has bytes.
fn ends_within_reads(alloc: Global, texts: &Texts) -> bool {
    let reads = (texts.script.len() as u64).saturating_add(1);
    let played = play_all(alloc, &texts.script, 1, NEVER, Some(reads));
    played.result.is_ok() && played.writer.written == texts.output
}

#[test]
fn a_script_ends_within_its_reads(rt: HostRuntime) -> Result<(), Fail> {
    let texts = Texts::new(rt.alloc()).ok_or("no texts")?;
    assert_eq!(rt; first_enough(rt.alloc(), &texts), None);
    assert!(rt; ends_within_reads(rt.alloc(), &texts));
    Ok(())
}

/// Returns true if 100 reads of blank lines, byte by byte, are not enough; nothing more is read, and nothing written.
fn stops_after_reads(alloc: Global, lines: &[u8]) -> bool {
    let played = play_all(alloc, lines, 1, NEVER, Some(100));
    matches!(played.result, Err(RunFault::TooManyReads))
        && played.reader.calls == 100
        && played.reader.left.len() == 900
        && played.writer.calls == 0
}

#[test]
fn blank_lines_have_no_end(rt: HostRuntime) -> Result<(), Fail> {
    let lines = vec![in rt.alloc(); b'\n'; 1_000]?;
    assert!(rt; stops_after_reads(rt.alloc(), &lines));
    Ok(())
}
