//! The last object, which says how many there are.

ghost use Rattle.tigertopo_faults.specs.Objects.Ends.{faults_end, refusals_end, skipped_end, sound_object};

use std::alloc::{AllocError, Global};
use tl_cert_output::{Page, Text};
use tl_check_verdict::Report;

/// That of a sound map.
#[derive(Clone, Copy)]
pub struct SoundObject<'a> {
    pub report: &'a Report,
}

impl Text for SoundObject<'_> {
    ghost use Rattle.std.specs.Prelude.{⊤};

    ghost text = { λ told. sound_object told.report.now };

    ghost is_ready = { λ told. ⊤ };

    fn add_to<P: Page>(&self, _alloc: Global, page: &mut P) -> Result<(), AllocError> {
        print_sound_object(self.report, page);
        Ok(())
    }
}

/// Prints that of a sound map.
pub fn print_sound_object<P: Page>(report: &Report, page: &mut P)
    ensures { P.adds page.old page.new (sound_object report.now) }
{
    page.add(b"{\"is\":\"sound\",\"chains\":");
    page.number(report.chains);
    page.add(b",\"segments\":");
    page.number(report.segments);
    page.add(b",\"nodes\":");
    page.number(report.nodes);
    page.add(b",\"polygons\":");
    page.number(report.polygons);
    page.add(b",\"landmarks\":");
    page.number(report.landmarks);
    page.add(b",\"rings\":");
    page.number(report.rings);
    page.add(b"}\n");
}

/// Prints that of so many faults, of which so many are printed and so many polygons are touched.
pub(crate) fn print_faults_end<P: Page>(count: u64, printed: u64, touched: u64, page: &mut P)
    ensures { P.adds page.old page.new (faults_end count printed touched) }
{
    page.add(b"{\"is\":\"faults\",\"faults\":");
    page.number(count);
    page.add(b",\"printed\":");
    page.number(printed);
    page.add(b",\"touched\":");
    page.number(touched);
    page.add(b"}\n");
}

/// Prints that of so many refused lines, of which so many are printed.
pub fn print_refusals_end<P: Page>(count: u64, printed: u64, page: &mut P)
    ensures { P.adds page.old page.new (refusals_end count printed) }
{
    page.add(b"{\"is\":\"refusals\",\"refused\":");
    page.number(count);
    page.add(b",\"printed\":");
    page.number(printed);
    page.add(b"}\n");
}

/// Prints that of so many refused lines that were skipped.
pub fn print_skipped_end<P: Page>(count: u64, page: &mut P)
    ensures { P.adds page.old page.new (skipped_end count) }
{
    page.add(b"{\"is\":\"skipped\",\"refused\":");
    page.number(count);
    page.add(b"}\n");
}
