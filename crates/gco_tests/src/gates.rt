//! The workers that words ask for make the cuts of a run, and no others do.
use crate::rows::{expect, take_ok};
use crate::streams::{CutWriter, ROOM, SlowReader};
use byte_streams::{Watched, WatchedReader};
use gco_cli::run_gated;
use std::alloc::{AllocError, Global};
use std::process::Abort;
use std::sync::Wait;
use std::sync::atomic::{AtomicU32, Ordering};
use std::thread::Threads;
use worker_options::Gate;

/// Counts the turns that workers ask for, and lets each pass.
#[derive(Drop)]
struct Counter {
    turns: AtomicU32,
}

impl Gate for Counter {
    fn pass(&self, _block: u32, _turn: u32) -> bool {
        self.turns.fetch_add(1, Ordering::SeqCst);
        true
    }
}

/// What is written of so many blocks: a front, the same of each block, and the end of a line.
fn written_of(
    alloc: Global,
    front: &str,
    block: &str,
    blocks: usize,
) -> Result<String, AllocError> {
    let mut written = String::from_str(alloc, front)?;
    for _ in 0..blocks {
        written.push_str(block)?;
    }
    written.push_str("\n")?;
    Ok(written)
}

/// Terms of two variables that are best at 11, which costs 1: at 00 they cost 2, at 01 they cost 4,
/// at 10 they cost 7. Neither variable is told without the other, so none is decided before the
/// cut. Each second pair is named the other way round.
fn push_terms(alloc: Global, file: &mut String, block: usize) -> Result<(), AllocError> {
    let first = block.saturating_mul(2);
    let second = first.saturating_add(1);
    let pair = if block % 2 == 0 {
        (first, second)
    } else {
        (second, first)
    };
    let (from, to) = pair;
    let terms = format!(in alloc;
        "{{ on = [{first}], values = [0,1] }}, {{ on = [{second}], values = [2,0] }}, \
         {{ on = [{from},{to}], values = [0,4,4,0] }},\n"
    )?;
    file.push_str(terms.as_str())
}

/// An energy of so many blocks of two variables.
fn energy_file(alloc: Global, blocks: usize) -> Result<String, AllocError> {
    let variables = blocks.saturating_mul(2);
    let mut file = format!(in alloc; "variables = {variables}\nterms = [\n")?;
    for block in 0..blocks {
        push_terms(alloc, &mut file, block)?;
    }
    file.push_str("]\n")?;
    Ok(file)
}

/// The pair of two sites.
fn push_pair(alloc: Global, file: &mut String, block: usize) -> Result<(), AllocError> {
    let first = block.saturating_mul(2);
    let second = first.saturating_add(1);
    let pair = format!(in alloc; "[{first},{second},5],\n")?;
    file.push_str(pair.as_str())
}

/// A problem of so many blocks of two sites that would each pay more for label 1 alone, and less
/// for it together.
fn label_file(alloc: Global, blocks: usize) -> Result<String, AllocError> {
    let sites = blocks.saturating_mul(2);
    let mut file = format!(in alloc; "sites = {sites}\nlabels = 2\ndata = [\n")?;
    for _ in 0..blocks {
        file.push_str("3,0,3,0,\n")?;
    }
    file.push_str("]\npairs = [\n")?;
    for block in 0..blocks {
        push_pair(alloc, &mut file, block)?;
    }
    file.push_str("]\n")?;
    Ok(file)
}

/// Words, whether the input is an energy, of how many blocks, and whether workers are asked for. A
/// net of fewer than 4,096 nodes one thread cuts.
type Row = (&'static [&'static str], bool, usize, bool);

const ROWS: &[Row] = &[
    (&["gco", "energy"], true, 2_048, false),
    (&["gco", "energy", "--threads", "2"], true, 2_047, false),
    (&["gco", "energy", "--threads", "2"], true, 2_048, true),
    (&["gco", "label", "--blocks", "2"], false, 2_048, false),
    (
        &["gco", "label", "--threads", "2", "--blocks", "2"],
        false,
        2_047,
        false,
    ),
    (
        &["gco", "label", "--threads", "2", "--blocks", "2"],
        false,
        2_048,
        true,
    ),
];

/// An energy, and what is written of it.
fn energy_texts(alloc: Global, blocks: usize) -> Result<(String, String), AllocError> {
    let front = format!(in alloc; "minimum {blocks}\nassignment ")?;
    let written = written_of(alloc, front.as_str(), "11", blocks)?;
    Ok((energy_file(alloc, blocks)?, written))
}

/// A problem of labels, and what is written of it.
fn label_texts(alloc: Global, blocks: usize) -> Result<(String, String), AllocError> {
    let front = "energy 0 data 0 smooth 0\nlabels";
    let written = written_of(alloc, front, " 1 1", blocks)?;
    Ok((label_file(alloc, blocks)?, written))
}

/// The input of a row, and what is written of it.
fn texts_of(alloc: Global, row: &Row) -> Result<(String, String), AllocError> {
    if row.1 {
        energy_texts(alloc, row.2)
    } else {
        label_texts(alloc, row.2)
    }
}

/// Whether a run of these words with this gate writes what it should.
fn is_written(
    rt: &(impl AllocGlobal + Threads + Wait + Sync),
    words: &[&'static str],
    input: &[u8],
    written: &[u8],
    gate: &(dyn Gate + Sync),
) -> bool {
    let mut reader = SlowReader::new(input, ROOM, false);
    let mut writer = CutWriter::ample();
    let mut faults = CutWriter::ample();
    let mut source = WatchedReader::new(&mut reader);
    let mut sink = Watched::new(&mut writer);
    let mut fault_sink = Watched::new(&mut faults);
    let status = run_gated(rt, words, gate, &mut source, &mut sink, &mut fault_sink);
    status == 0 && writer.held.as_slice() == written
}

/// Whether a run of these words writes what it should, and a worker asked for a turn exactly where
/// workers are asked for.
fn is_shared(
    rt: &(impl AllocGlobal + Threads + Wait + Sync),
    words: &[&'static str],
    input: &[u8],
    written: &[u8],
    by_workers: bool,
) -> bool {
    let counter = Counter {
        turns: AtomicU32::new(0),
    };
    let gate: &(dyn Gate + Sync) = &counter;
    let is_right = is_written(rt, words, input, written, gate);
    is_right && (counter.turns.load(Ordering::SeqCst) > 0) == by_workers
}

/// Whether a run ends as the row tells.
fn is_answered(rt: &(impl AllocGlobal + Abort + Threads + Wait + Sync), row: &Row) -> bool {
    let (input, written) = take_ok(rt, texts_of(rt.alloc(), row));
    is_shared(rt, row.0, input.as_bytes(), written.as_bytes(), row.3)
}

#[test]
fn workers_make_the_cuts(rt: HostRuntime) {
    for (place, row) in ROWS.iter().enumerate() {
        expect(&rt, place, is_answered(&rt, row));
    }
}

/// Adds a picture of 64 by 64 samples: in each row 0 and this one in turn.
fn push_picture(bytes: &mut Vec<u8>, second: u8) -> Result<(), AllocError> {
    bytes.extend_from_slice(b"P5\n64 64\n1\n")?;
    for _ in 0..2_048 {
        bytes.extend_from_slice(&[0, second])?;
    }
    Ok(())
}

/// Pictures of these second samples, one behind the other.
fn pictures_of(alloc: Global, seconds: &[u8]) -> Result<Vec<u8>, AllocError> {
    let mut bytes = Vec::new(alloc);
    for second in seconds {
        push_picture(&mut bytes, *second)?;
    }
    Ok(bytes)
}

/// Words, the second sample of each picture of the input, and whether workers are asked for.
type PictureRow = (&'static [&'static str], &'static [u8], bool);

/// In each row half of the pixels would rather have label 0 and the others label 1, by 1 each. An
/// unlike neighbour costs 1: so no pixel is decided before the cut, and all 0 is best.
const PICTURES: &[PictureRow] = &[
    (&["gco", "restore"], &[1], false),
    (
        &["gco", "restore", "--threads", "2", "--blocks", "2"],
        &[1],
        true,
    ),
    (
        &["gco", "stereo", "--labels", "2", "--cap", "1"],
        &[0, 1],
        false,
    ),
    (
        &[
            "gco",
            "stereo",
            "--labels",
            "2",
            "--cap",
            "1",
            "--threads",
            "2",
            "--blocks",
            "2",
        ],
        &[0, 1],
        true,
    ),
    (
        &[
            "gco", "segment", "--low", "0", "--high", "1", "--strong", "1",
        ],
        &[1, 0],
        false,
    ),
    (
        &[
            "gco",
            "segment",
            "--low",
            "0",
            "--high",
            "1",
            "--strong",
            "1",
            "--threads",
            "2",
            "--blocks",
            "2",
        ],
        &[1, 0],
        true,
    ),
];

/// Whether a run over the pictures of a row writes this, as the row tells.
fn is_cut(
    rt: &(impl AllocGlobal + Abort + Threads + Wait + Sync),
    row: &PictureRow,
    written: &[u8],
) -> bool {
    let input = take_ok(rt, pictures_of(rt.alloc(), row.1));
    is_shared(rt, row.0, input.as_slice(), written, row.2)
}

#[test]
fn workers_cut_pictures(rt: HostRuntime) {
    let written = take_ok(&rt, pictures_of(rt.alloc(), &[0]));
    for (place, row) in PICTURES.iter().enumerate() {
        expect(&rt, place, is_cut(&rt, row, written.as_slice()));
    }
}
