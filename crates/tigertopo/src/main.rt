//! The command `tigertopo`: does what its words ask, over the files of the system.
#![tactic(auto)]

use std::hash::RandomState;
use std::io::IsTerminal;
use std::process::ExitCode;
use tigertopo_program::start::answer;
use tigertopo_program::words::words_of;
use tigertopo_system_files::SystemFiles;
use tl_record::MeterOut;

fn main(rt: HostRuntime) -> ExitCode {
    let mut out = MeterOut::new(rt.stdout());
    let mut err = MeterOut::new(rt.stderr());
    let mut files = SystemFiles::new(&rt, rt.alloc(), rt.stderr().is_terminal());
    let words = words_of(&rt, rt.alloc());
    let status = answer(
        &mut files,
        rt.alloc(),
        RandomState::new(&rt),
        words,
        &mut out,
        &mut err,
    );
    ExitCode::from(status)
}
