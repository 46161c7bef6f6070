//! Lists of ids in the order of all, changed id by id.
ghost use Rattle.std.specs.Prelude.{◌<◌, ◌≤◌, ◌+◌, ◌⊎◌, vec_len, vec_capacity};
ghost use Rattle.ti_text.specs.Lists.{Has};
ghost use Rattle.base_index.specs.Listing.{AreAmong, Lists, ListsNoMore, ListsToo};

use crate::order::BlockOrder;

/// Puts an id into a list, unless it is there. If it is not, the list has room for it.
pub(crate) fn put_in(order: &BlockOrder, list: &mut Vec<u32>, id: u32)
    requires stands { Has order.now.listed id }
    requires among { AreAmong list.old.items order.now.listed }
    requires room { (vec_len list.old < vec_capacity list.old) ⊎ Lists order.now.listed list.old.items id }
    ensures items { ListsToo order.now.listed list.old.items list.new.items id }
    ensures room { vec_capacity list.old ≤ vec_capacity list.new }
    ensures len { vec_len list.new ≤ vec_len list.old + 1 }
{
    let place = order.count_before(list, id);
    if place < list.len() && list[place] == id {
        return;
    }
    list.insert(place, id).unwrap();
}

/// Takes an id out of a list, if it is there.
pub(crate) fn take_out(order: &BlockOrder, list: &mut Vec<u32>, id: u32)
    requires stands { Has order.now.listed id }
    requires among { AreAmong list.old.items order.now.listed }
    ensures items { ListsNoMore order.now.listed list.old.items list.new.items id }
    ensures room { vec_capacity list.old ≤ vec_capacity list.new }
    ensures len { vec_len list.new ≤ vec_len list.old }
{
    let place = order.count_before(list, id);
    if place < list.len() && list[place] == id {
        list.remove(place);
    }
}
