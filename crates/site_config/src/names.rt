ghost use Rattle.std.specs.Prelude.{◌≡◌, ◌||◌, ℕ, List, OnOk, Some, is_some, if◌then◌else◌};
ghost use Rattle.std.specs.Str.{bytes_eq};
ghost use Rattle.site_config.specs.NameMaps.{look_up, is_in};

use site_types::Thing;
use std::alloc::{AllocError, Global};
use std::collections::BTreeMap;

/// What each name stands for, in the order of the names' bytes.
pub type Names = BTreeMap<String, Thing>;

/// The numbers that were claimed.
pub type Numbers = BTreeMap<[u8; 4], ()>;

/// What a name stands for.
pub fn thing_of(names: &Names, name: &str) -> Option<Thing>
    ensures { result ≡ look_up names.now name.now }
{
    names.get(name).copied()
}

/// Lets a name stand for a thing.
pub fn put_name(
    alloc: Global,
    names: &mut Names,
    name: &str,
    thing: Thing,
) -> Result<(), AllocError>
    ensures { OnOk result ((q : List ℕ)
        → look_up names.new q ≡ (if bytes_eq name.now q then Some thing else look_up names.old q)) }
{
    let key = String::from_str(alloc, name)?;
    names.insert(key, thing)?;
    Ok(())
}

/// Whether a number was claimed.
pub fn has_number(numbers: &Numbers, number: [u8; 4]) -> bool
    ensures { result ≡ is_in numbers.now number }
{
    numbers.contains_key(&number)
}

/// Claims a number.
pub fn put_number(numbers: &mut Numbers, number: [u8; 4]) -> Result<(), AllocError>
    ensures { OnOk result ((q : List ℕ)
        → is_in numbers.new q ≡ (bytes_eq number q || is_in numbers.old q)) }
{
    numbers.insert(number, ())?;
    Ok(())
}
