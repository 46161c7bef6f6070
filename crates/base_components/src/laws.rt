//! Laws of components, for the crates above. They compute nothing.
ghost use Rattle.base_components.specs.Laws.{ComponentsAreDetermined, NumbersFall, CyclesShareANumber, WalksJoin};

/// The ends of an edge are in one component exactly if the edge is on a cycle.
pub fn cycles_share_a_number()
    ensures { CyclesShareANumber }
{}

/// Along a walk no component's number rises.
pub fn numbers_fall()
    ensures { NumbersFall }
{}

/// However components are numbered, the same nodes share a number.
pub fn components_are_determined()
    ensures { ComponentsAreDetermined }
{}

/// A node leads to what any node that it leads to does.
pub fn walks_join()
    ensures { WalksJoin }
{}
