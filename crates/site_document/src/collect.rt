ghost use Rattle.std.specs.Prelude.{◌≡◌, IfOk};
ghost use Rattle.std.specs.declared.option.Option.{Option as Maybe};
ghost use Rattle.toml.specs.Data.{Data};
ghost use Rattle.toml.specs.View.{items_view, view};
ghost use Rattle.site_document.specs.Drafts.{collected};

use std::alloc::{AllocError, Global};
use tick_units::Items;
use toml::Value;

/// What the items of a list spell.
pub trait FromValue {
    ghost read: { Data → Maybe Self };

    /// What a value spells; none where it isn't of the form.
    fn from_value(alloc: Global, value: &Value) -> Result<Option<Self>, AllocError>
    where
        Self: Sized,
        ensures { IfOk result (λ item. item ≡ read (view value.now)) };
}

/// What the items of a list spell, in their order.
pub fn collect<T: FromValue + Drop>(alloc: Global, values: &[Value]) -> Result<Items<T>, AllocError>
    ensures { IfOk result (λ items. items ≡ collected T.read (items_view values.now)) }
{
    let mut items = Vec::new(alloc);
    'values: for value in values {
        if let Some(item) = T::from_value(alloc, value)? {
            items.push(item)?;
        }
    }
    Ok(Items::from_vec(items))
}
