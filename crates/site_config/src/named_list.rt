ghost use Rattle.std.specs.Prelude.{◌≡◌, IfOk, map};
ghost use Rattle.site_config.specs.NamedList.{AreListed, entries_view, named_view};
ghost use Rattle.site_config.specs.NameMaps.{look_up};

use crate::names::Names;
use crate::placing::label_of;
use site_types::Named;
use std::alloc::{AllocError, Global};
use tick_units::Items;

/// The names in their order, each with what it stands for.
pub fn names_of(alloc: Global, names: &Names) -> Result<Items<Named>, AllocError>
    ensures { IfOk result (λ listed. AreListed (look_up names.now) listed) }
{
    let room = names.len();
    list_names(alloc, names, room)
}

fn list_names(alloc: Global, names: &Names, room: usize) -> Result<Items<Named>, AllocError>
    ensures { IfOk result (λ listed. map named_view listed ≡ entries_view names.now.entries) }
{
    let mut listed = Vec::with_capacity(alloc, room)?;
    'entries: for (name, thing) in names.iter() {
        let name = label_of(name.as_str())?;
        let thing = *thing;
        listed.push(Named { name, thing })?;
    }
    Ok(Items::from_vec(listed))
}
