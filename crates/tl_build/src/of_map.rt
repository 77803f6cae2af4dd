//! A certificate of a map, made with none given.

ghost use Rattle.std.specs.Prelude.{◌≡◌, ◌≤◌, ◌↔◌, IfOk, IfErr};
ghost use Rattle.tl_tree_index.specs.Trees.{depth, tree_of};
ghost use Rattle.tl_tree_index.specs.Packed.{IsEvenlySplit};
ghost use Rattle.tl_check_planar.specs.Planar.{IsPlanar};
ghost use Rattle.tl_check_sweep.specs.Searched.{IsSearched};
ghost use Rattle.tl_check_verdict.specs.Sound.{IsSound, IsSoundFor};
ghost use Rattle.tl_check_verdict.specs.Valid.{IsValid};
ghost use Rattle.tl_check_verdict.specs.Truth.{IsTrueOfMap, IsTrueOfMapFor};
ghost use Rattle.tl_build.specs.Building.{IfCert, OnCert, IfFault, HasCert};
ghost use Rattle.tl_build.specs.Auditing.{IsMemoryStop};
ghost use Rattle.tl_build.specs.Keeping.Deciding.{BuildsFor};

use crate::answer::Built;
use std::alloc::Global;
use tl_build_propose::propose;
use tl_cert_output::Stop;
use tl_check_gaps::Gaps;
use tl_check_sweep::{SweepReport, Swept, sweep};
use tl_check_verdict::MapFault;
use tl_decide::first_fault;
use tl_map_county::Map;

/// Makes a certificate of version 2 of a map that is sound, or names a fault of one that isn't. Which of several faults is
/// named, and which valid certificate is made, is open.
///
/// [`Stop::Memory`] comes where memory was refused, and no other stop does.
pub fn build(alloc: Global, map: &Map) -> Result<Built, Stop>
    // The map is sound.
    ensures sound { OnCert result (IsSound map.now) }
    // The certificate is valid for the map, and of version 2.
    ensures valid { IfCert result (IsValid map.now) }
    ensures version { IfCert result (λ cert. cert.version ≡ 2) }
    // Its tree has at most 8 levels, which hold the 8 ^ 8 segments that a map can have.
    ensures shallow { IfCert result (λ cert. depth (tree_of cert.tree) ≤ 8) }
    // It is split evenly: of more than eight segments an inner node has the lesser of 8 and an eighth, rounded up,
    // children, whose numbers of segments differ by at most one, and of eight or fewer there is a leaf.
    ensures split { IfCert result (λ cert. IsEvenlySplit (tree_of cert.tree)) }
    // Each fault is true, and none is of faces.
    ensures fault { IfFault result (IsTrueOfMap map.now) }
    // If it isn't stopped, a certificate is made exactly where the map is sound, and a fault is named where not.
    ensures exactly { IfOk result (λ built. HasCert built ↔ IsSound map.now) }
    // It stops for memory alone.
    ensures stops { IfErr result IsMemoryStop }
{
    build_with(alloc, map, false)
}

/// Makes a certificate as [`build`] does, and where `faces` are asked for, only of a map whose faces agree. One sweep tells of faces
/// too. They are asked for only of a map that is sound otherwise.
pub fn build_with(alloc: Global, map: &Map, faces: bool) -> Result<Built, Stop>
    // The map is sound, and keeps what is asked of its faces.
    ensures sound { OnCert result (IsSoundFor faces map.now) }
    // The certificate is valid for the map, and of version 2.
    ensures valid { IfCert result (IsValid map.now) }
    ensures version { IfCert result (λ cert. cert.version ≡ 2) }
    // Its tree has at most 8 levels, which hold the 8 ^ 8 segments that a map can have.
    ensures shallow { IfCert result (λ cert. depth (tree_of cert.tree) ≤ 8) }
    // It is split evenly: of more than eight segments an inner node has the lesser of 8 and an eighth, rounded up,
    // children, whose numbers of segments differ by at most one, and of eight or fewer there is a leaf.
    ensures split { IfCert result (λ cert. IsEvenlySplit (tree_of cert.tree)) }
    // Each fault is true; one of faces comes only where they are asked for, and nothing else is wrong with the map.
    ensures fault { IfFault result (IsTrueOfMapFor faces map.now) }
    // If it isn't stopped, a certificate is made exactly where the map keeps what is asked of it, and a fault is named where not.
    ensures exactly { IfOk result (λ built. HasCert built ↔ IsSoundFor faces map.now) }
    // It stops for memory alone.
    ensures stops { IfErr result IsMemoryStop }
{
    build_for(alloc, map, faces)
}

/// The same, with one clause for all that the answer says: by a sweep.
fn build_for(alloc: Global, map: &Map, faces: bool) -> Result<Built, Stop>
    ensures { BuildsFor faces map.now result }
{
    let report = sweep(alloc, map, Gaps::First)?;
    match report.swept {
        Swept::Placed | Swept::Planar => build_planar(alloc, map, faces, &report),
        Swept::Meet(meet) => Ok(Built::Fault(MapFault::Meet(meet))),
    }
}

/// The same where the chains are planar. The walks of the certificate that is proposed tell whether there is a fault, so that they are traced once.
fn build_planar(alloc: Global, map: &Map, faces: bool, report: &SweepReport) -> Result<Built, Stop>
    requires searched { IsSearched map.now Gaps.First report.now }
    requires planar { IsPlanar map.now.chains }
    ensures { BuildsFor faces map.now result }
{
    // that each chain has two points or more
    map.has_proper_chains();
    let cert = propose(alloc, map)?;
    match first_fault(alloc, map, faces, report, cert.walks())? {
        None => Ok(Built::Cert(cert)),
        Some(fault) => Ok(Built::Fault(fault)),
    }
}
