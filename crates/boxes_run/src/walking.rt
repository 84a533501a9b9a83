// Containers of as many boxes as are allowed, and of one more; counts of kinds; and the count rules.
use crate::report::{boxes, of_kind, rule, whole};
use boxes::body::Body;
use boxes::kinds::{Container, FTYP, Kind, PDAT, PFHD, PFIL, PLOC, PSEG, PSHD, SURL};
use numerals::place::Place;
use refusals::Refusal;
use std::io;
use tallying::counting::tally;
use tallying::rules::keeps;
use tallying::tally::Tally;

// A kind that the table has not.
const FREE: Kind = Kind { code: 0x66726565 };

// The kinds whose rules are held against what a walk told.
const RULED: [Kind; 8] = [FTYP, PFIL, PFHD, SURL, PSEG, PSHD, PLOC, PDAT];

fn tallied(s: &[u8], container: Container, start: u64, end: u64) -> Result<Tally, Refusal> {
    let body = Body {
        container,
        start: Place(start),
        end: Place(end),
    };
    tally(s, body)
}

fn boxes_in(rt: &impl Print, asked: &str, s: &[u8], start: u64, end: u64) -> io::Result<()> {
    boxes(rt, asked, tallied(s, Container::File, start, end))
}

pub fn by_number_of_boxes(rt: &impl Print) -> io::Result<()> {
    let mut s = [0u8; 4104];
    fill(&mut s);
    by_number_of_boxes_in(rt, &s)
}

// Makes boxes of 8 bytes of a buffer of zeros.
fn fill(buf: &mut [u8]) {
    for size in buf.iter_mut().skip(3).step_by(8) {
        *size = 8;
    }
}

fn by_number_of_boxes_in(rt: &impl Print, s: &[u8]) -> io::Result<()> {
    boxes_in(rt, "no box", s, 0, 0)?;
    boxes_in(rt, "1 box", s, 0, 8)?;
    boxes_in(rt, "511 boxes", s, 0, 4088)?;
    boxes_in(rt, "511 boxes and 7 bytes", s, 0, 4095)?;
    boxes_in(rt, "512 boxes", s, 0, 4096)?;
    boxes_in(rt, "512 boxes and 1 byte", s, 0, 4097)?;
    boxes_in(rt, "513 boxes", s, 0, 4104)?;
    boxes_in(rt, "512 boxes from the second", s, 8, 4104)
}

fn kind_in(rt: &impl Print, asked: &str, s: &[u8], end: u64, kind: Kind) -> io::Result<()> {
    of_kind(rt, asked, tallied(s, Container::File, 0, end), kind)
}

// Five boxes, and a sixth with a fault.
pub fn by_kind(rt: &impl Print) -> io::Result<()> {
    by_kind_in(
        rt,
        b"\x00\x00\x00\x08ftyp\x00\x00\x00\x08pseg\x00\x00\x00\x08ftyp\x00\x00\x00\x08pfil\x00\x00\x00\x08free\x00\x00\x00\x00pdat",
    )
}

fn by_kind_in(rt: &impl Print, s: &[u8]) -> io::Result<()> {
    kind_in(rt, "ftyp", s, 40, FTYP)?;
    kind_in(rt, "pseg", s, 40, PSEG)?;
    kind_in(rt, "pdat", s, 40, PDAT)?;
    kind_in(rt, "free, which the table has not", s, 40, FREE)?;
    kind_in(rt, "pdat, with a fault behind", s, 48, PDAT)?;
    whole(rt, "five boxes", tallied(s, Container::File, 0, 40))?;
    whole(
        rt,
        "five boxes of a pfil",
        tallied(s, Container::Pfil, 0, 40),
    )?;
    whole(
        rt,
        "five boxes and a fault",
        tallied(s, Container::File, 0, 48),
    )
}

pub fn by_rule(rt: &impl Print) -> io::Result<()> {
    by_rule_at_home(rt)?;
    by_rule_elsewhere(rt)
}

// Whether so many of a kind keep the rule of a container.
fn kept(rt: &impl Print, asked: &str, container: Container, kind: Kind, n: u64) -> io::Result<()> {
    rule(rt, asked, Ok(keeps(container, kind, n)))
}

fn by_rule_at_home(rt: &impl Print) -> io::Result<()> {
    kept(rt, "no ftyp in a file", Container::File, FTYP, 0)?;
    kept(rt, "one ftyp in a file", Container::File, FTYP, 1)?;
    kept(rt, "two ftyp in a file", Container::File, FTYP, 2)?;
    kept(
        rt,
        "the most ftyp in a file",
        Container::File,
        FTYP,
        u64::MAX,
    )?;
    kept(rt, "no pseg in a file", Container::File, PSEG, 0)?;
    kept(rt, "two pseg in a file", Container::File, PSEG, 2)?;
    kept(rt, "no pdat in a file", Container::File, PDAT, 0)?;
    kept(rt, "two pdat in a file", Container::File, PDAT, 2)?;
    kept(rt, "no surl in a pfil", Container::Pfil, SURL, 0)?;
    kept(rt, "one surl in a pfil", Container::Pfil, SURL, 1)?;
    kept(
        rt,
        "the most surl in a pfil",
        Container::Pfil,
        SURL,
        u64::MAX,
    )?;
    kept(rt, "no ploc in a pseg", Container::Pseg, PLOC, 0)?;
    kept(rt, "one ploc in a pseg", Container::Pseg, PLOC, 1)
}

fn by_rule_elsewhere(rt: &impl Print) -> io::Result<()> {
    kept(rt, "two ftyp in a pfil", Container::Pfil, FTYP, 2)?;
    kept(rt, "no ftyp in a pseg", Container::Pseg, FTYP, 0)?;
    kept(rt, "no surl in a file", Container::File, SURL, 0)?;
    kept(rt, "no surl in a pseg", Container::Pseg, SURL, 0)?;
    kept(rt, "two pshd in a file", Container::File, PSHD, 2)?;
    kept(rt, "two pshd in a pfil", Container::Pfil, PSHD, 2)
}

// The whole table, held against what a walk told.
fn table(
    rt: &impl Print,
    asked: &str,
    s: &[u8],
    start: u64,
    end: u64,
    c: Container,
) -> io::Result<()> {
    let t = tallied(s, c, start, end);
    rule(
        rt,
        asked,
        t.map(|t| RULED.iter().all(|kind| keeps(c, *kind, t.of(*kind)))),
    )
}

// A container that holds what the table says of a file, and other boxes.
pub fn by_table(rt: &impl Print) -> io::Result<()> {
    by_table_in(
        rt,
        b"\x00\x00\x00\x08ftyp\x00\x00\x00\x08pfil\x00\x00\x00\x08free\x00\x00\x00\x08pseg\x00\x00\x00\x08pseg",
    )
}

fn by_table_in(rt: &impl Print, s: &[u8]) -> io::Result<()> {
    table(rt, "a file", s, 0, 40, Container::File)?;
    table(rt, "a file with no pseg", s, 0, 24, Container::File)?;
    table(rt, "a file with no ftyp", s, 8, 40, Container::File)?;
    table(rt, "a file cut short", s, 0, 39, Container::File)?;
    table(rt, "the same as a pfil", s, 0, 40, Container::Pfil)?;
    table(rt, "the same as a pseg", s, 0, 40, Container::Pseg)
}
