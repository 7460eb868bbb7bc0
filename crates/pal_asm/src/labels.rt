//! Labels with their values.

ghost use Rattle.std.specs.Prelude.{◌≡◌, ℕ, List, false, OnOk};
ghost use Rattle.std.specs.BTreeMap.{get};
ghost use Rattle.pal_asm.specs.declared.name.Name.{Name as NameView};
ghost use Rattle.pal_asm.specs.Assembling.{is_defined, awaited, with_label};
ghost use Rattle.pal_asm.specs.SeenDraft.{name_cmp, HasLabels};

use crate::name::Name;
use flk_base::NoMemory;
use std::collections::BTreeMap;

/// The value of a label.
fn value_of(labels: &BTreeMap<Name, u32>, name: &Name) -> Option<u32>
    ensures { result ≡ get name_cmp labels.now name.now }
{
    labels.get(name).copied()
}

/// Whether the label of a line has been defined.
pub(crate) fn is_defined(labels: &BTreeMap<Name, u32>, label: &Option<Name>) -> bool
    ensures { (ls : List (NameView × ℕ)) → HasLabels labels.now ls
        → result ≡ is_defined ls label.now }
{
    match label {
        Some(name) => value_of(labels, name).is_some(),
        None => false,
    }
}

/// The value of the label that a statement waits for; any will do where it waits for none.
pub(crate) fn awaited(labels: &BTreeMap<Name, u32>, label: Option<Name>) -> Option<u32>
    ensures { (ls : List (NameView × ℕ)) → HasLabels labels.now ls → result ≡ awaited ls label }
{
    match label {
        Some(name) => value_of(labels, &name),
        None => Some(0),
    }
}

/// A label stands for the offset that was reached.
pub(crate) fn define(
    labels: &mut BTreeMap<Name, u32>,
    label: Option<Name>,
    at: u32,
) -> Result<(), NoMemory>
    ensures { OnOk result ((ls : List (NameView × ℕ)) → HasLabels labels.old ls
        → is_defined ls label ≡ false → HasLabels labels.new (with_label label at ls)) }
{
    let Some(name) = label else {
        return Ok(());
    };
    match labels.insert(name, at) {
        Ok(_) => Ok(()),
        Err(_) => Err(NoMemory),
    }
}
