//! Certificates that are read and written again, however few bytes come or go at a time, and behind a read or a write that
//! fails.

mod examples;
mod reading;
mod writing;
