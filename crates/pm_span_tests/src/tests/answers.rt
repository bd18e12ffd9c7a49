//! Calls the look-ups of a map, and compares their results with those of a plain walk over the text.
ghost use Rattle.pm_span.specs.Files.{Holds};

use crate::tests::checks::check_answer;
use crate::tests::plain::PlainFile;
use crate::tests::recorded::RECORDED;
use pm_span::parts::{add_file, bounds, fits, span_of};
use pm_span::{LineColumn, SourceMap, Span};
use std::alloc::Global;
use std::process::Abort;
use test_helpers::release;

/// A kind of look-up of a span.
#[derive(Clone, Copy, Debug)]
pub enum LookUp {
    Bytes,
    Text,
    Lines,
}

/// All kinds of look-ups.
pub const LOOK_UPS: &[LookUp] = &[LookUp::Bytes, LookUp::Text, LookUp::Lines];

/// The results of a test, as one number.
#[derive(Clone, Copy)]
pub struct Digest {
    /// FNV-1a with 64 bits, over all numbers and texts that were returned.
    pub value: u64,
    /// The number of spans that were looked up.
    pub asked: u32,
}

impl Digest {
    /// The digest of no result.
    pub fn new() -> Digest {
        Digest {
            value: 0xcbf29ce484222325,
            asked: 0,
        }
    }

    /// Adds a number to the digest.
    fn add(&mut self, answer: u64) {
        self.value = (self.value ^ answer).wrapping_mul(0x100000001b3);
    }

    /// Adds a line and a column to the digest.
    fn add_place(&mut self, place: LineColumn) {
        self.add(place.line as u64);
        self.add(place.column as u64);
    }

    /// Adds a text to the digest.
    fn add_text(&mut self, text: &str) {
        self.add(text.len() as u64);
        for byte in text.bytes() {
            self.add(byte as u64);
        }
    }
}

/// Asserts that the digest of the test with this name is the recorded one.
pub fn compare(rt: &impl Abort, name: &str, digest: Digest) {
    let recorded = RECORDED.iter().find(|record| record.0 == name);
    let recorded = recorded.map(|record| record.1);
    assert_eq!(rt; Some(digest.value), recorded, "the answers of {name}");
}

/// A map, with its texts.
#[derive(Drop)]
pub struct Maps {
    alloc: Global,
    map: SourceMap,
    files: Vec<PlainFile>,
    /// The position at the end of the last file.
    pub last: u32,
}

impl Maps {
    /// Makes a map that has only file 0.
    pub fn new(alloc: Global) -> Maps {
        Maps {
            alloc,
            map: SourceMap::with_limit(alloc, 1000000),
            files: Vec::new(alloc),
            last: 0,
        }
    }

    /// Adds the text, and returns the position at which it begins.
    pub fn add(&mut self, rt: &impl Abort, text: &str) -> u32 {
        let Some(lo) = fits(&self.map, text) else {
            assert!(rt; false, "the text fits");
            return 0;
        };
        let _ = add_file(&mut self.map, text).expect(rt, "a file");
        let file = PlainFile::new(self.alloc, text, lo).expect(rt, "a file");
        check_answer(rt, (lo, lo), &lo, &self.last.saturating_add(1));
        self.last = file.hi();
        self.files.push(file).expect(rt, "a file");
        lo
    }

    /// Removes the files.
    pub fn invalidate(&mut self) {
        self.map.invalidate();
        self.files.clear();
        self.last = 0;
    }

    /// Looks up the positions from `lo` to `hi`, and adds the results to the digest. It asserts that the map holds
    /// the span exactly if a file has it, and that the results are those of a plain walk.
    pub fn ask(&mut self, rt: &impl Abort, digest: &mut Digest, what: LookUp, lo: u32, hi: u32) {
        if hi < lo {
            return;
        }
        let span = span_of(lo, hi);
        let file = self.files.iter().find(|file| file.has(lo, hi));
        let is_held = self.map.holds(span);
        check_answer(rt, (lo, hi), &is_held, &(file.is_some() || hi == 0));
        digest.add(is_held as u64);
        if !is_held {
            return;
        }
        digest.asked = digest.asked.saturating_add(1);
        match what {
            LookUp::Bytes => ask_bytes(rt, digest, &mut self.map, file, span),
            LookUp::Text => ask_text(rt, digest, &mut self.map, file, span),
            LookUp::Lines => ask_lines(rt, digest, &self.map, file, span),
        }
    }
}

/// Looks up the bytes of a span.
fn ask_bytes(
    rt: &impl Abort,
    digest: &mut Digest,
    map: &mut SourceMap,
    file: Option<&PlainFile>,
    span: Span,
)
    requires { Holds map.old span }
{
    let (lo, hi) = bounds(span);
    let bytes = span.byte_range(map);
    let plain = match file {
        None => 0..0,
        Some(file) => file.byte_range(lo, hi),
    };
    digest.add(bytes.start as u64);
    digest.add(bytes.end as u64);
    check_answer(rt, (lo, hi), &bytes, &plain);
}

/// Looks up the text of a span, copied and borrowed.
fn ask_text(
    rt: &impl Abort,
    digest: &mut Digest,
    map: &mut SourceMap,
    file: Option<&PlainFile>,
    span: Span,
)
    requires { Holds map.old span }
{
    let (lo, hi) = bounds(span);
    let plain = file.and_then(|file| file.text_between(lo, hi));
    let lent = span.source_str(map);
    check_answer(rt, (lo, hi), &lent, &plain);
    digest.add_text(lent.unwrap_or(""));
    let copy = span.source_text(map).expect(rt, "a copied text");
    check_answer(rt, (lo, hi), &copy.as_deref(), &plain);
    release(copy);
}

/// Looks up the lines and columns of a span.
fn ask_lines(
    rt: &impl Abort,
    digest: &mut Digest,
    map: &SourceMap,
    file: Option<&PlainFile>,
    span: Span,
)
    requires { Holds map.now span }
{
    let (lo, hi) = bounds(span);
    let (start, end) = (span.start(map), span.end(map));
    digest.add_place(start);
    digest.add_place(end);
    let nowhere = LineColumn { line: 1, column: 0 };
    let (plain_start, plain_end) = match file {
        None => (nowhere, nowhere),
        Some(file) => (file.line_column(lo), file.line_column(hi)),
    };
    let answers = (start, end);
    check_answer(rt, (lo, hi), &answers, &(plain_start, plain_end));
}
