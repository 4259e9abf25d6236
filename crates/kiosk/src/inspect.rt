// What profiles hold: their spaces, and of each element that can be opened its tables and its bounds.
use crate::failure::{Failure, Told};
use crate::figures::{Many, print_figures};
use crate::profiles::file_of;
use meaning::Channels;
use profile::{Element, Fault, Header, Kind, Opened, Part, Tables, Tag, open};
use stage::{Stage, lattice_nodes};
use std::io;
use std::process::ExitCode;

fn tag_name(tag: Tag) -> &'static str {
    match tag {
        Tag::A2B0 => "A2B0",
        Tag::B2A0 => "B2A0",
    }
}

// How many entries a part holds.
fn entries_of(kind: Kind, part: Part<'_>) -> usize {
    match kind {
        Kind::Lut8 => part.bytes.len(),
        Kind::Lut16 => part.bytes.len() / 2,
    }
}

// Prints where in the file a part lies.
fn print_place(rt: &HostRuntime, part: Part<'_>) -> io::Result<()> {
    let bytes = part.bytes.len();
    let place = part.place;
    println!(rt; ", {bytes} bytes from byte {place}")
}

// Prints how many tables there are, of how many entries each, and where they lie.
fn print_tables(rt: &HostRuntime, kind: Kind, tables: Channels, part: Part<'_>) -> io::Result<()> {
    let tables = tables.number();
    let entries = entries_of(kind, part) / tables.max(1);
    print!(rt; "{tables} of {entries} entries")?;
    print_place(rt, part)
}

// Prints what an element holds, and its bounds.
fn print_element(rt: &HostRuntime, element: &Element<'_>) -> io::Result<()> {
    let kind = element.kind();
    let Tables {
        input,
        nodes,
        output,
    } = element.tables();
    print!(rt; "    input tables: ")?;
    print_tables(rt, kind, element.ins(), input)?;
    let points = element.grid().points();
    let count = lattice_nodes(element.ins(), points);
    print!(rt; "    nodes: {count} with {points} grid points")?;
    print_place(rt, nodes)?;
    print!(rt; "    output tables: ")?;
    print_tables(rt, kind, element.outs(), output)?;
    print_figures(rt, "    ", element)
}

// Prints what an opened element is.
fn print_opened(rt: &HostRuntime, tag: Tag, opened: &Opened<'_>) -> io::Result<()> {
    let tag = tag_name(tag);
    let kind = opened.element.kind();
    let takes = opened.takes;
    let gives = opened.gives;
    let ins = opened.element.ins().number();
    let outs = Many(opened.element.outs().number(), "channel");
    println!(rt; "  {tag}: {kind} from {takes} to {gives}, {ins} to {outs}")?;
    print_element(rt, &opened.element)
}

// Tells an element, and its fault if it has one. An element that is not there has that fault.
fn inspect_element(rt: &HostRuntime, bytes: &[u8], tag: Tag) -> io::Result<Option<Fault>> {
    match open(bytes, tag) {
        Ok(opened) => {
            print_opened(rt, tag, &opened)?;
            Ok(None)
        }
        Err(fault) => {
            let tag = tag_name(tag);
            let told = Told(fault);
            println!(rt; "  {tag}: {told}")?;
            Ok(Some(fault))
        }
    }
}

// Whether the two elements of a file are as they should be: one of them may be absent.
fn judged<'a>(
    path: &'a str,
    forward: Option<Fault>,
    back: Option<Fault>,
) -> Result<(), Failure<'a>> {
    let faulty = |tag, fault| Failure::Element {
        path,
        tag: tag_name(tag),
        fault: Told(fault),
    };
    match (forward, back) {
        (Some(Fault::Absent), Some(Fault::Absent)) => Err(Failure::NoElement { path }),
        (None | Some(Fault::Absent), None | Some(Fault::Absent)) => Ok(()),
        (None | Some(Fault::Absent), Some(fault)) => Err(faulty(Tag::B2A0, fault)),
        (Some(fault), _) => Err(faulty(Tag::A2B0, fault)),
    }
}

// Tells one file.
fn inspect_file<'a>(rt: &HostRuntime, path: &'a str) -> Result<(), Failure<'a>> {
    let file = file_of(rt, path)?;
    let bytes = file.as_slice();
    let length = bytes.len();
    println!(rt; "{path}: {length} bytes")?;
    let Header { colour, other } = match Header::read(bytes) {
        Ok(header) => header,
        Err(fault) => {
            let fault = Told(fault);
            println!(rt; "  {fault}")?;
            return Err(Failure::Header { path, fault });
        }
    };
    println!(rt; "  colour space {colour}, other space {other}")?;
    let forward = inspect_element(rt, bytes, Tag::A2B0)?;
    let back = inspect_element(rt, bytes, Tag::B2A0)?;
    judged(path, forward, back)
}

// Tells each file. One in which something is wrong is reported, and the others are told all the same.
pub(crate) fn run<'a>(rt: &HostRuntime, files: &[&'a str]) -> Result<ExitCode, Failure<'a>> {
    let mut status = ExitCode::SUCCESS;
    for path in files {
        if let Err(failure) = inspect_file(rt, *path) {
            eprintln!(rt; "kiosk: {failure}")?;
            status = ExitCode::FAILURE;
        }
    }
    Ok(status)
}
