//! Reads a county from standard input, says whether its map is sound, how much there is in it and where a point lies, and
//! makes a certificate of its map, where it is sound.
#![tactic(auto)]

use std::hash::RandomState;
use std::io::{self, Read};
use tl_build::{Audit, Built, audit, build};
use tl_cert::{Certificate, write_cert};
use tl_check_inside::{Place, locate};
use tl_geom::Point;
use tl_map::{Map, MapStop, read_map};
use tl_record::{Meter, MeterOut};
use tl_tree::PlainList;

fn main(rt: HostRuntime) -> io::Result<()> {
    let mut records = Vec::new(rt.alloc());
    rt.stdin().read_to_end(&mut records)?;
    say_verdict(&rt, &records)?;
    ask_map(&rt, &records)
}

/// Says whether the map of a county is sound.
fn say_verdict(rt: &HostRuntime, records: &[u8]) -> io::Result<()> {
    let hasher = RandomState::new(rt)?;
    match audit(rt.alloc(), hasher, &mut Meter::new(records)) {
        Ok(Audit::Sound(report)) => println!(rt; "sound {report}"),
        Ok(Audit::Fault(fault)) => println!(rt; "{fault}"),
        Err(stop) => println!(rt; "{stop}"),
    }
}

/// Reads the map of a county, and says what it holds.
fn ask_map(rt: &HostRuntime, records: &[u8]) -> io::Result<()> {
    let hasher = RandomState::new(rt)?;
    match read_map(rt.alloc(), hasher, &mut Meter::new(records)) {
        Ok(map) => say_all(rt, &map),
        Err(MapStop::Fault(fault)) => println!(rt; "{fault}"),
        Err(MapStop::NoRecords(lacking)) => println!(rt; "{lacking}"),
        Err(MapStop::Refused { line, cause }) => println!(rt; "line {line}: {cause}"),
        Err(MapStop::Device) => println!(rt; "the records can't be read"),
        Err(MapStop::Memory) => println!(rt; "memory was refused"),
    }
}

/// Says how much there is in a map, where a point lies, and how long its certificate is.
fn say_all(rt: &HostRuntime, map: &Map) -> io::Result<()> {
    say_counts(rt, map)?;
    say_place(rt, map, Point { x: 60, y: 20 })?;
    say_certificate(rt, map)
}

/// Says how much there is in a map.
fn say_counts(rt: &HostRuntime, map: &Map) -> io::Result<()> {
    println!(rt;
        "chains={} polygons={} landmarks={}",
        map.chains(),
        map.polygons(),
        map.landmarks()
    )
}

/// Says on which chain, or in how many polygons and landmarks, a point lies.
fn say_place(rt: &HostRuntime, map: &Map, point: Point) -> io::Result<()> {
    let index = PlainList::new(map.segments());
    match locate(rt.alloc(), map, &index, point) {
        Ok(Place::OnChain(c)) => println!(rt; "at {},{} chain={c}", point.x, point.y),
        Ok(
            Place::In {
                polygons,
                landmarks,
            },
        ) => println!(rt;
            "at {},{} polygons={} landmarks={}",
            point.x,
            point.y,
            polygons.len(),
            landmarks.len()
        ),
        Err(_) => println!(rt; "memory was refused"),
    }
}

/// Makes a certificate of a map, where it is sound.
fn say_certificate(rt: &HostRuntime, map: &Map) -> io::Result<()> {
    match build(rt.alloc(), map) {
        Ok(Built::Cert(certificate)) => say_length(rt, &certificate),
        Ok(Built::Fault(fault)) => println!(rt; "{fault}"),
        Err(stop) => println!(rt; "{stop}"),
    }
}

/// Writes a certificate into memory, and says how long its text is.
fn say_length(rt: &HostRuntime, certificate: &Certificate) -> io::Result<()> {
    let mut text = Vec::new(rt.alloc());
    match write_cert(certificate, &mut MeterOut::new(&mut text)) {
        Ok(()) => println!(rt; "certificate bytes={}", text.len()),
        Err(_) => println!(rt; "memory was refused"),
    }
}
