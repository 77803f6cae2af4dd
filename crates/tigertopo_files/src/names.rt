//! Lists of names.

ghost use Rattle.std.specs.Prelude.{◌≡◌, IfOk, map, option_map, string_bytes};
ghost use Rattle.tigertopo_files.specs.Reading.{all_names};

use std::alloc::{AllocError, Global};

/// Copies of names, and of that of a file that is read by itself behind them, where there is one.
pub fn all_names(
    alloc: Global,
    names: &[String],
    single: Option<&String>,
) -> Result<Vec<String>, AllocError>
    ensures { IfOk result (λ all. map string_bytes all.items
        ≡ all_names (map string_bytes names.now) (option_map (λ name. string_bytes name.now) single.entry)) }
{
    let mut all = copy_names(alloc, names)?;
    if let Some(name) = single {
        all.push(String::from_str(alloc, name.as_str())?)?;
    }
    Ok(all)
}

// Copies of names.
fn copy_names(alloc: Global, names: &[String]) -> Result<Vec<String>, AllocError>
    ensures { IfOk result (λ copies. map string_bytes copies.items ≡ map string_bytes names.now) }
{
    let mut copies = Vec::new(alloc);
    for name in names {
        copies.push(String::from_str(alloc, name.as_str())?)?;
    }
    Ok(copies)
}
