//! What is decided of small maps by certificates, read part by part and in memory.

use std::alloc::Global;
use tl_cert::read_cert;
use tl_check::{Verdict, check_cert, check_map};
use tl_map_county::Map;
use tl_record::Meter;

/// Whether this is decided of a map by the certificate of a text, once it is read.
pub fn is_decided_in_memory(alloc: Global, map: &Map, cert: &str, wanted: Verdict) -> bool {
    match read_cert(alloc, &mut Meter::new(cert.as_bytes())) {
        Ok(read) => check_map(alloc, map, &read, u64::MAX) == Ok(wanted),
        Err(_) => false,
    }
}

/// Whether this is decided of a map by the text of a certificate.
pub fn is_decided(alloc: Global, map: &Map, cert: &str, wanted: Verdict) -> bool {
    check_cert(
        alloc,
        map,
        &mut Meter::new(cert.as_bytes()),
        u64::MAX,
        false,
    ) == Ok(wanted)
}
