//! An image is given the values of another table.
//!
//! First each value that changes is taken away, then each new one is given. So each image on the
//! way holds some of the old values, or some of the new ones, and none is over the limit, if that
//! is the same for all of them.
ghost use Rattle.std.specs.Prelude.{◌≡◌, ◌≢◌, ◌↔◌, Some, option_map, IfSome, IsTrue};
ghost use Rattle.ti_caps.specs.Tables.{Capability, IsCapability};
ghost use Rattle.ti_layout.specs.declared.layout.Format.TheVariants.{Extended};
ghost use Rattle.ti_layout.specs.Image.{format_of};
ghost use Rattle.ti_layout.specs.Laws.{without_cancel};
ghost use Rattle.ti_layout.specs.Values.{contents, content_of, entries_of, Agrees, AgreesIfSome, IsSorted};
ghost use Rattle.ti_compiled.specs.Changes.{HoldsGiven};
ghost use Rattle.ti_compiled.specs.inside.Changes.{IsLeft, IsSameBut};
ghost use Rattle.ti_compiled.specs.Image.{held_by};

use crate::image::Image;
use ti_caps::Cap;
use ti_layout::{Format, Table, Value, format_wanted};

// Whether two values say the same.
fn is_same(first: &Value, second: &Value) -> bool
    ensures { IsTrue result ↔ (content_of first.now ≡ content_of second.now) }
{
    match (first, second) {
        (Value::True, Value::True) | (Value::Cancelled, Value::Cancelled) => true,
        (Value::Number(first), Value::Number(second)) => first == second,
        (Value::Text(first), Value::Text(second)) => first.as_slice() == second.as_slice(),
        _ => false,
    }
}

// Whether a table gives a capability this value.
fn gives(table: &Table, entry: &(Cap, Value)) -> bool
    ensures { IsTrue result ↔ (contents table.now entry.now.0 ≡ Some (content_of entry.now.1)) }
{
    match table.get(entry.0) {
        Some(value) => is_same(value, &entry.1),
        None => false,
    }
}

// Gives a capability a value, or takes it away.
fn set(image: &mut Image, cap: Cap, value: Option<&Value>) -> Option<()>
    requires agrees { AgreesIfSome cap (option_map (λ v. content_of v.now) value) }
    ensures valid { IsCapability cap }
    ensures names { IfSome result (λ _. image.new.names ≡ image.old.names) }
    ensures contents { IfSome result (λ _. HoldsGiven image.old image.new cap (without_cancel (option_map (λ v. content_of v.now) value.entry))) }
{
    image.set_value(cap, value).ok()
}

// Takes an old value away, unless the new table gives the same.
fn take_away_changed(image: &mut Image, entry: &(Cap, Value), new: &Table) -> Option<()>
    requires held { held_by image.old entry.now.0 ≡ without_cancel (Some (content_of entry.now.1)) }
    ensures names { IfSome result (λ _. image.new.names ≡ image.old.names) }
    ensures others { IfSome result (λ _. IsSameBut image.old image.new entry.now.0) }
    ensures left { IfSome result (λ _. IsLeft (Some (content_of entry.now.1)) (contents new.now entry.now.0) (held_by image.new entry.now.0)) }
{
    if gives(new, entry) {
        return Some(());
    }
    set(image, entry.0, None)?;
    Some(())
}

// Takes away the old values that the new table does not give. The last one goes first, so that each
// removal moves only what remains.
fn take_all_changed_away(image: &mut Image, old: &[(Cap, Value)], new: &Table) -> Option<()>
    requires sorted { IsSorted (entries_of old.now) }
    requires held { (c : Capability) → IsCapability c → held_by image.old c ≡ without_cancel (contents (entries_of old.now) c) }
    ensures names { IfSome result (λ _. image.new.names ≡ image.old.names) }
    ensures left { IfSome result (λ _. (c : Capability) → IsCapability c
        → IsLeft (contents (entries_of old.now) c) (contents new.now c) (held_by image.new c)) }
{
    let mut left = old.len();
    while left > 0 {
        left -= 1;
        take_away_changed(image, &old[left], new)?;
    }
    Some(())
}

// Gives a new value, unless the old table gave the same.
fn give_changed(image: &mut Image, old: &Table, entry: &(Cap, Value)) -> Option<()>
    requires agrees { Agrees entry.now.0 (content_of entry.now.1) }
    requires left { IsLeft (contents old.now entry.now.0) (Some (content_of entry.now.1)) (held_by image.old entry.now.0) }
    ensures names { IfSome result (λ _. image.new.names ≡ image.old.names) }
    ensures others { IfSome result (λ _. IsSameBut image.old image.new entry.now.0) }
    ensures given { IfSome result (λ _. held_by image.new entry.now.0 ≡ without_cancel (Some (content_of entry.now.1))) }
{
    if gives(old, entry) {
        return Some(());
    }
    set(image, entry.0, Some(&entry.1))?;
    Some(())
}

// Gives the new values that the old table did not.
fn give_all_changed(image: &mut Image, old: &Table, new: &[(Cap, Value)]) -> Option<()>
    requires sorted { IsSorted (entries_of new.now) }
    requires left { (c : Capability) → IsCapability c → IsLeft (contents old.now c) (contents (entries_of new.now) c) (held_by image.old c) }
    ensures names { IfSome result (λ _. image.new.names ≡ image.old.names) }
    ensures contents { IfSome result (λ _. (c : Capability) → IsCapability c
        → held_by image.new c ≡ without_cancel (contents (entries_of new.now) c)) }
{
    for entry in new {
        give_changed(image, old, entry)?;
    }
    Some(())
}

// Whether a table has a number that only the extended format holds.
fn has_wide_number(table: &Table) -> bool
    ensures { IsTrue result ↔ (format_of (contents table.now) ≡ Extended) }
{
    matches!(format_wanted(table.entries()), Format::Extended)
}

// A copy of an image, if there is memory for it.
fn copy_of(image: &Image) -> Option<Image>
    ensures { IfSome result (λ i. i ≡ image.now) }
{
    image.copy().ok()
}

/// A copy of an image that holds the values of one table; the copy holds those of another. `None`
/// if a number of the old or of the new values is over 32,767, since there the limit is another, if
/// the new entry would be over the limit, and if there is no memory.
pub fn changed_copy(image: &Image, old: &Table, new: &Table) -> Option<Image>
    requires held { (c : Capability) → IsCapability c → held_by image.now c ≡ without_cancel (contents old.now c) }
    ensures narrow { IfSome result (λ _. (format_of (contents old.now) ≢ Extended) × (format_of (contents new.now) ≢ Extended)) }
    ensures names { IfSome result (λ i. i.names ≡ image.now.names) }
    ensures contents { IfSome result (λ i. (c : Capability) → IsCapability c → held_by i c ≡ without_cancel (contents new.now c)) }
{
    if has_wide_number(old) || has_wide_number(new) {
        return None;
    }
    let mut copy = copy_of(image)?;
    take_all_changed_away(&mut copy, old.entries(), new)?;
    give_all_changed(&mut copy, old, new.entries())?;
    Some(copy)
}
