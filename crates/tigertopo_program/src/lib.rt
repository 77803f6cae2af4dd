//! The program `tigertopo`: all its commands, from the words of the command line to the exit status.
//!
//! [`start`] makes a command of the words (`tigertopo_words`), and [`run`] does what it asks: it asks whether the file that is made may
//! be made ([`room`]), has the command performed, and tells what came of it ([`telling`]). Behind a refused line, a device that failed,
//! and an answer to files without chains [`hint`] says what helps.
//!
//! [`records`] answers of records alone, [`decide`] decides maps and makes certificates, [`convert`] reads one to write it in version 2,
//! [`lists`] lists all that is wrong, and [`mod@export`], [`draw`] and [`border`] make files of maps. An answer is a text and a status.
//!
//! Whatever the status, what stood under each name stands there still, but under the name of a file that is made and
//! under that with `.unfinished` behind it. These two change only where the name is free (`IsFree` of
//! `tigertopo_files/specs/Files`): what stands under it is empty or begins as files of this kind do, what stands under
//! the other begins as they do or ends before that could be told, and neither is a file that is read. Where it is found
//! not to be free the status is 64, and no file is opened. Where there is no answer no file was made. Of names whose
//! bytes aren't known, as those of the system's own files, [`run::run`] says which lines were written, and not of which
//! records they are true.
#![tactic(auto)]

pub mod answer;
pub mod border;
pub mod convert;
pub mod decide;
pub mod draw;
pub mod export;
pub mod hint;
mod line;
pub mod lists;
mod making;
pub mod perform;
pub mod print;
pub mod reading;
pub mod records;
pub mod refusal;
pub mod room;
pub mod run;
pub mod start;
pub mod stop;
pub mod telling;
pub mod usage;
pub mod words;
